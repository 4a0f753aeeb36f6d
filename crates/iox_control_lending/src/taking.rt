//! The slot of a loan, with its message.
ghost use Rattle.std.specs.Prelude.{◌≡◌, IfSome, None, Some};
ghost use Rattle.iox_tables.specs.HubStates.Tables.{PortState, port_in};
ghost use Rattle.iox_hub_ports.specs.Ports.{info_of};
ghost use Rattle.iox_slots.specs.Pools.{free_count};
ghost use Rattle.iox_control.specs.Controls.{IsControl, with_pools};
ghost use Rattle.iox_control_lending.specs.Lends.{IsOnFree, IsPortOf, IsTaken, lender_of};

use crate::asked::Lending;
use crate::lanes::free_lane;
use iox_control::Control;
use iox_model::kind::Role;

/// One has a slot of the client's pool that nobody had, with a request on a lane that is free. It is
/// `None` where somebody has each slot, and then nothing changes. It looks at all lanes.
#[cold]
#[inline(never)]
fn take_beside(
    control: &mut Control,
    client: u64,
    pool: usize,
    size: usize,
    serial: u64,
    request: u64,
    elements: u64,
) -> Option<u64>
    requires order { IsControl control.old }
    requires port { (p : PortState) × (port_in control.old.tables.ports client ≡ Some p)
        × (p.pool ≡ pool) × (p.size ≡ size) }
    ensures taken { IfSome result (λ k. IsOnFree control.old.tables client size pool k serial
        request elements control.new.tables.pools) }
    ensures left { control.new ≡ with_pools control.old control.new.tables.pools }
    ensures full { result ≡ None → free_count control.old.tables.pools pool ≡ 0 }
    ensures unchanged { result ≡ None → control.new ≡ control.old }
{
    if control.pools().free_len(pool) == 0 {
        return None;
    }
    let Some(lane) = free_lane(control, client, size) else {
        return None;
    };
    control.take(pool, serial, lane, request, elements)
}

/// The same. Where each message of the client is on its slot's own lane, so is this one, and no lane
/// is looked for.
#[inline(always)]
fn take_on_free(
    control: &mut Control,
    client: u64,
    pool: usize,
    size: usize,
    serial: u64,
    request: u64,
    elements: u64,
) -> Option<u64>
    requires order { IsControl control.old }
    requires port { (p : PortState) × (port_in control.old.tables.ports client ≡ Some p)
        × (p.pool ≡ pool) × (p.size ≡ size) }
    ensures taken { IfSome result (λ k. IsOnFree control.old.tables client size pool k serial
        request elements control.new.tables.pools) }
    ensures left { control.new ≡ with_pools control.old control.new.tables.pools }
    ensures full { result ≡ None → free_count control.old.tables.pools pool ≡ 0 }
    ensures unchanged { result ≡ None → control.new ≡ control.old }
{
    if let Some(slot) = control.take_own(pool, serial, request, elements) {
        return Some(slot);
    }
    take_beside(control, client, pool, size, serial, request, elements)
}

/// One has a slot of the lender's pool that nobody had, with the message of the loan: of a client
/// on a lane that is free. It is `None` where somebody has each slot, and then nothing
/// changes.
#[inline(always)]
pub(crate) fn take(control: &mut Control, lender: &Lending, elements: u64) -> Option<u64>
    requires port { IsPortOf control.old.tables lender.now }
    requires order { IsControl control.old }
    ensures taken { IfSome result (λ k. (p : PortState) → lender.now.port ≡ info_of p
        → IsTaken control.old.tables (lender_of p lender.now) elements k
        control.new.tables.pools) }
    ensures left { control.new ≡ with_pools control.old control.new.tables.pools }
    ensures full { result ≡ None
        → free_count control.old.tables.pools lender.now.port.pool ≡ 0 }
    ensures unchanged { result ≡ None → control.new ≡ control.old }
{
    let port = &lender.port;
    let request = lender.request;
    match port.role {
        Role::Client => take_on_free(
            control,
            port.number,
            port.pool,
            port.size,
            port.loans,
            request,
            elements,
        ),
        Role::Server => control.take(port.pool, port.loans, lender.lane, request, elements),
    }
}
