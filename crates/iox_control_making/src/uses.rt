//! Callers of the making, proved only from its clauses.
ghost use Rattle.std.specs.Prelude.{◌≡◌, ◌+◌, IfOk, true};
ghost use Rattle.iox_control.specs.Controls.{IsControl};

use crate::{Asked, NotMade, make_port};
use iox_control::Control;
use iox_model::kind::Role;
use iox_types::identifiers::UniqueSystemId;
use std::alloc::Global;

/// The tables stay in order, so one port after another may be made. Their numbers follow each
/// other.
pub fn makes_two(
    control: &mut Control,
    alloc: Global,
    node: u64,
    id: UniqueSystemId,
    asked: Asked,
) -> Result<(u64, u64), NotMade>
    requires order { IsControl control.old }
    ensures numbers { IfOk result (λ both. both.1 ≡ both.0 + 1) }
    ensures order { IsControl control.new }
{
    let client = match make_port(control, alloc, node, Role::Client, id, asked) {
        Ok(number) => number,
        Err(reason) => return Err(reason),
    };
    match make_port(control, alloc, node, Role::Server, id, asked) {
        Ok(number) => Ok((client, number)),
        Err(reason) => Err(reason),
    }
}

/// A port that is too large is not made, and the tables stay.
pub fn makes_none_too_large(
    control: &mut Control,
    alloc: Global,
    node: u64,
    id: UniqueSystemId,
    asked: Asked,
)
    requires order { IsControl control.old }
    requires large { asked.large ≡ true }
    ensures { control.new.tables ≡ control.old.tables }
{
    if make_port(control, alloc, node, Role::Client, id, asked).is_ok() {
        unreachable!();
    }
}
