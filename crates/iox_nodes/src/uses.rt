//! Callers of a service, with no proof of their own.
ghost use Rattle.std.specs.Prelude.{◌≡◌, IfOk, None, OnErr};
ghost use Rattle.iox_words.specs.Numbers.{no_word, one_word};
ghost use Rattle.iox_model.specs.declared.command.Command.TheVariants.{Cleanup, Leave, ListNodes};
ghost use Rattle.iox_model.specs.Runs.{IsServed};
ghost use Rattle.iox_nodes.specs.Memory.{IsAnsweredWithMemory};
ghost use Rattle.iox_nodes.specs.Served.{IsDoneOrRefused, IsJoin};
ghost use Rattle.iox_nodes.specs.Shown.{service_of};

use crate::service::Service;
use iox_model::command::Command;
use iox_model::reply::{Refusal, Reply};
use iox_port_commands::Elements;
use iox_store::{Many, One};
use iox_types::identifiers::UniqueSystemId;
use std::alloc::{AllocError, Global};
use std::convert::Infallible;

/// Requests of bytes, and responses that are a number each.
type Bytes = Service<Many<u8>, (), One<u64>, ()>;

/// A node joins, of which nothing is asked.
pub fn opens(service: &mut Bytes, id: UniqueSystemId) -> Result<u64, Refusal<Infallible>>
    ensures joined { IsJoin (service_of service.old) id None result (service_of service.new) }
    ensures served { IsServed (service_of service.new) }
{
    let number = service.join(id, None);
    service.is_served();
    number
}

/// A dead node is cleaned up.
pub fn cleans_up(service: &mut Bytes, node: u64) -> Result<(), Refusal<Infallible>>
    ensures { IsDoneOrRefused (service_of service.old) (Cleanup node) result
        (service_of service.new) }
{
    service.cleanup(node)
}

/// A node leaves.
pub fn leaves(service: &mut Bytes, node: u64) -> Result<(), Refusal<Infallible>>
    ensures { IsDoneOrRefused (service_of service.old) (Leave node) result
        (service_of service.new) }
{
    service.leave(node)
}

/// It is asked which nodes there are. Where there is no memory for the list, all stays.
pub fn lists(service: &mut Bytes, alloc: Global) -> Result<Reply<Vec<u64>, Infallible>, AllocError>
    ensures answered { IfOk result (λ reply. IsAnsweredWithMemory one_word one_word no_word
        (service_of service.old) ListNodes reply (service_of service.new)) }
    ensures unchanged { OnErr result (service.new ≡ service.old) }
{
    let command: Command<Elements<u8, u64>, (), Option<Refusal<Infallible>>> = Command::ListNodes;
    service.try_serve(alloc, command)
}
