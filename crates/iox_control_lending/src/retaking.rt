//! What was given back to a lender. Where nobody else has the message that is got back last, the
//! message of a loan takes its place.
ghost use Rattle.std.specs.Prelude.{◌≡◌, ◌<◌, IfSome, None, Some, slice_get, true};
ghost use Rattle.std.specs.Bool.{OnTrue};
ghost use Rattle.iox_tables.specs.HubStates.Tables.{PortState, port_in, slot_at};
ghost use Rattle.iox_hub_ports.specs.Ports.{info_in, info_of, place_in};
ghost use Rattle.iox_slots.specs.Pools.{has_slot, with_slot};
ghost use Rattle.iox_slots.specs.Slots.{written};
ghost use Rattle.iox_control.specs.Controls.{IsControl, with_pools};
ghost use Rattle.iox_control_retrieving.specs.Retrieving.{GetsBack, IsOther, ways_to};
ghost use Rattle.iox_control_lending.specs.Lends.{HasNextId, IsGotBack, IsPortOf};
ghost use Rattle.iox_control_lending.specs.Retakes.{IsTakenAnew, MayBeRetaken, lane_anew, with_last_let_go};

use crate::asked::Lending;
use iox_control::Control;
use iox_control_retrieving::retrieve_all_in;
use iox_hub_ports::info::PortInfo;
use iox_model::kind::Role;

/// Whether it is known that nobody else has the message in that slot, which somebody has, and that
/// each message of a client's pool is on its slot's own lane.
#[inline(always)]
fn may_be_retaken(control: &Control, role: Role, pool: usize, slot: u64) -> bool
    requires { 0 < (slot_at control.now.tables.pools pool slot).holders }
    ensures { OnTrue result (MayBeRetaken role control.now.tables.pools pool slot) }
{
    let pools = control.pools();
    if pools.is_shared(pool, slot) {
        return false;
    }
    match role {
        Role::Client => pools.has_own_lanes(pool),
        Role::Server => true,
    }
}

/// Gets back all that the port in that place, which is of the other role, gave back to the sender.
/// Where the slot of the last message may be taken anew, it is not let go, and this is its number.
/// The pipe from the port is looked for at the hint first.
#[inline(always)]
fn retrieve_but_last_from(
    control: &mut Control,
    sender: &PortInfo,
    at: usize,
    hint: usize,
) -> Option<u64>
    requires order { IsControl control.old }
    requires from { info_in control.old.tables.ports sender.now.number ≡ Some sender.now }
    requires to { IsOther sender.now.role control.old.tables.ports at }
    ensures back { (p : PortState) → slice_get control.old.tables.ports at ≡ Some p
        → GetsBack control.old
        (ways_to sender.now.role control.old.tables sender.now.number (info_of p))
        (with_last_let_go control.new sender.now.pool result) }
    ensures last { IfSome result (λ k.
        MayBeRetaken sender.now.role control.new.tables.pools sender.now.pool k) }
{
    while let Some(next) = control.get_next_in(at, sender.number, hint) {
        if !next.more && may_be_retaken(control, sender.role, sender.pool, next.place) {
            return Some(next.place);
        }
        control.let_go_of(sender.pool, next.place);
        if !next.more {
            return None;
        }
    }
    None
}

/// Gets back all that was given back to a port of which that is said, and which is in that place.
/// Where there is one port of the other role, and the slot of the last message may be taken anew,
/// it is not let go, and this is its number.
#[inline(always)]
fn retrieve_but_last(control: &mut Control, sender: &PortInfo, at: usize) -> Option<u64>
    requires order { IsControl control.old }
    requires said { info_in control.old.tables.ports sender.now.number ≡ Some sender.now }
    requires there { place_in control.old.tables.ports sender.now.number ≡ Some at }
    ensures back { (p : PortState)
        → port_in control.old.tables.ports sender.now.number ≡ Some p
        → IsGotBack control.old p (with_last_let_go control.new sender.now.pool result) }
    ensures order { IsControl (with_last_let_go control.new sender.now.pool result) }
    ensures last { IfSome result (λ k.
        MayBeRetaken sender.now.role control.new.tables.pools sender.now.pool k) }
{
    if control.ports().others_len(sender.role) == 1 {
        let hint = control.ports().rank(at);
        let only = control.ports().other(sender.role, 0);
        return retrieve_but_last_from(control, sender, only, hint);
    }
    retrieve_all_in(control, sender, at);
    None
}

/// The message of the loan is in that slot, for the one who has it. A client's is on the lane of the
/// message before, a server's on that of its request. The lender's port is in that place, and is read anew, so that
/// it need not be kept while messages are got back.
#[inline(always)]
fn write_anew(control: &mut Control, lender: &Lending, at: usize, slot: u64, elements: u64)
    requires port { IsPortOf control.old.tables lender.now }
    requires there { place_in control.old.tables.ports lender.now.port.number ≡ Some at }
    requires request { HasNextId lender.now }
    requires slot { has_slot control.old.tables.pools lender.now.port.pool slot ≡ true }
    ensures { control.new ≡ with_pools control.old (with_slot
        (written lender.now.port.loans (lane_anew lender.now control.old.tables.pools slot)
        lender.now.request elements) control.old.tables.pools lender.now.port.pool slot) }
{
    let pool = lender.port.pool;
    let loans = control.ports().known_at(at).loans;
    match lender.port.role {
        Role::Client => {
            control.rewrite_slot(pool, slot, loans, loans % (1 << 62), elements);
        }
        Role::Server => {
            control.write_slot(pool, slot, loans, lender.lane, lender.request, elements);
        }
    }
}

/// Gets back all that was given back to the lender, whose port is in that place. Where the slot of
/// the last message may be taken anew, the message of the loan is in it, and this is its number:
/// the slot need not go to those that are free, and come from there again.
#[inline(always)]
pub(crate) fn retake(
    control: &mut Control,
    lender: &Lending,
    at: usize,
    elements: u64,
) -> Option<u64>
    requires port { IsPortOf control.old.tables lender.now }
    requires there { place_in control.old.tables.ports lender.now.port.number ≡ Some at }
    requires request { HasNextId lender.now }
    requires order { IsControl control.old }
    ensures back { result ≡ None → (p : PortState)
        → port_in control.old.tables.ports lender.now.port.number ≡ Some p
        → IsGotBack control.old p control.new }
    ensures order { result ≡ None → IsControl control.new }
    ensures taken { IfSome result (λ k.
        IsTakenAnew control.old lender.now elements k control.new) }
{
    let Some(slot) = retrieve_but_last(control, &lender.port, at) else {
        return None;
    };
    write_anew(control, lender, at, slot, elements);
    Some(slot)
}
