//! Callers of a service, with no proof of their own.
ghost use Rattle.std.specs.Prelude.{◌≡◌, IfOk, OnErr, vec_len};
ghost use Rattle.iox_words.specs.Numbers.{no_word, one_word};
ghost use Rattle.iox_model.specs.declared.command.Command.TheVariants.{Cleanup, ListNodes};
ghost use Rattle.iox_model.specs.Runs.{IsServed};
ghost use Rattle.iox_service_laws.specs.Served.{IsDoneOrRefused};
ghost use Rattle.iceoryx2_wire.specs.Services.{IsOpened, service_of};
ghost use Rattle.iceoryx2_wire.specs.Serving.{IsAnsweredWithMemory};

use crate::opener::Opener;
use crate::service::Service;
use iox_attributes::AttributeVerificationError;
use iox_model::command::Command;
use iox_model::reply::{Refusal, Reply};
use iox_service_laws::Elements;
use iox_store::{Many, One};
use iox_types::identifiers::UniqueSystemId;
use std::alloc::{AllocError, Global};

/// Requests of bytes, and responses that are a number each.
type Bytes = Service<Many<u8>, (), One<u64>, ()>;

/// A node opens the service. Where an attribute is missing, the refusal lends it from the opener.
pub fn opens<'a>(
    service: &mut Bytes,
    opener: &'a Opener,
    id: UniqueSystemId,
) -> Result<u64, Refusal<AttributeVerificationError<'a>>>
    ensures opened { IsOpened service.old opener.now.types opener.now.required id result
        service.new }
    ensures unchanged { OnErr result (service.new ≡ service.old) }
    ensures served { IsServed (service_of service.new) }
{
    let number = service.open(&opener.types, &opener.verifier, id);
    service.is_served();
    number
}

/// A dead node is cleaned up, and the service says of itself what it said.
pub fn cleans_up(
    service: &mut Bytes,
    node: u64,
) -> Result<(), Refusal<AttributeVerificationError<'static>>>
    ensures done { IsDoneOrRefused (service_of service.old) (Cleanup node) result
        (service_of service.new) }
    ensures says { service.new.description ≡ service.old.description }
{
    service.cleanup(node)
}

/// Commands are run, and each has its reply. The machine can reach the state that is left.
pub fn runs<'a>(
    service: &mut Bytes,
    alloc: Global,
    commands: Vec<Command<Elements<u8, u64>, (), &'a Opener>>,
) -> Result<Vec<Reply<Vec<u64>, AttributeVerificationError<'a>>>, AllocError>
    ensures each { IfOk result (λ replies. vec_len replies ≡ vec_len commands.entry) }
    ensures served { IsServed (service_of service.new) }
{
    let mut replies = Vec::new(alloc);
    let ran = service.run(alloc, commands, &mut replies);
    service.is_served();
    ran?;
    Ok(replies)
}

/// It is asked which nodes there are. Where there is no memory for the list, all stays.
pub fn lists(
    service: &mut Bytes,
    alloc: Global,
) -> Result<Reply<Vec<u64>, AttributeVerificationError<'static>>, AllocError>
    ensures answered { IfOk result (λ reply. IsAnsweredWithMemory one_word one_word no_word
        service.old.description (service_of service.old) ListNodes reply (service_of service.new)) }
    ensures unchanged { OnErr result (service.new ≡ service.old) }
{
    let command: Command<Elements<u8, u64>, (), &Opener> = Command::ListNodes;
    service.try_serve(alloc, command)
}
