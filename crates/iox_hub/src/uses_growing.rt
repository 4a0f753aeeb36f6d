//! A caller of loans that may grow, proved only from the clauses.
ghost use Rattle.std.specs.Prelude.{◌≡◌, true};
ghost use Rattle.iox_model.specs.declared.kind.Kind.TheVariants.{Client};
ghost use Rattle.iox_hub.specs.Hubs.{HasValue};

use crate::{Hub, Lent, LoanRefusal};
use iox_store::{Many, One};

/// A loan for which there is no memory leaves the hub as it is.
pub fn is_left_without_memory(
    hub: &mut Hub<Many<u64>, u32, One<u64>, ()>,
    node: u64,
    client: u64,
    elements: usize,
) -> bool
    requires { HasValue hub.old node client Client }
    ensures { result ≡ true → hub.new ≡ hub.old }
{
    match hub.lend_request(node, client, 0, elements, true) {
        Lent::Refused(LoanRefusal::WantOfMemory) => true,
        _ => false,
    }
}
