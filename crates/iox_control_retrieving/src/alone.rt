//! What was given back to a sender of which somebody has only one message: where that is a loan,
//! nothing was.
ghost use Rattle.std.specs.Prelude.{◌≡◌, ◌∷◌, [], Some, is_some, true};
ghost use Rattle.iox_lanes.specs.Lanes.{LaneState};
ghost use Rattle.iox_tables.specs.HubStates.Changes.{emptied_lane, with_lanes};
ghost use Rattle.iox_tables.specs.HubStates.Tables.{PortState, pool_at, port_in};
ghost use Rattle.iox_tables.specs.HubStates.Ways.{lane_on};
ghost use Rattle.iox_tables.specs.HubLending.Emptying.{AreGotBack, HasFewerHolders, returned_on, with_back};
ghost use Rattle.iox_control.specs.Controls.{IsControl, with_tables};
ghost use Rattle.iox_control_retrieving.specs.Alone.{HasOneLoan, has_one_out};

use crate::one_way::retrieve;
use crate::port::retrieve_all;
use iox_control::Control;
use iox_model::way::Way;

/// Whether somebody has just one message of the pool, which is there.
#[inline(always)]
pub fn has_one_out(control: &Control, pool: usize) -> bool
    requires { is_some (pool_at control.now.tables.pools pool) ≡ true }
    ensures { result ≡ has_one_out control.now.tables.pools pool }
{
    control.pools().has_one_out(pool)
}

/// Gets back all that was given back on the way. A call of its own, so that the others are short.
#[inline(never)]
#[cold]
fn retrieve_others(control: &mut Control, way: Way, pool: usize)
    requires order { IsControl control.old }
    requires pool { (l : LaneState) → lane_on control.old.tables.ports way ≡ Some l
        → l.pool ≡ pool }
    ensures left { control.new ≡ with_tables control.old (record (with_lanes emptied_lane
        control.old.tables (way ∷ [])) { pools = control.new.tables.pools }) }
    ensures fewer { HasFewerHolders control.old.tables.pools control.new.tables.pools
        (returned_on control.old.tables (way ∷ [])) }
    ensures order { IsControl control.new }
{
    retrieve(control, way, pool);
}

/// Gets back all that was given back on the way, whose messages are of that pool. Where a loan is
/// the only message of the pool that somebody has, nothing was, and it does not look.
#[inline(always)]
pub fn retrieve_unless(control: &mut Control, way: Way, pool: usize, alone: bool)
    requires order { IsControl control.old }
    requires pool { (l : LaneState) → lane_on control.old.tables.ports way ≡ Some l
        → l.pool ≡ pool }
    requires alone { alone ≡ true → HasOneLoan control.old.tables pool }
    ensures left { control.new ≡ with_tables control.old (record (with_lanes emptied_lane
        control.old.tables (way ∷ [])) { pools = control.new.tables.pools }) }
    ensures fewer { HasFewerHolders control.old.tables.pools control.new.tables.pools
        (returned_on control.old.tables (way ∷ [])) }
    ensures order { IsControl control.new }
{
    if alone {
        return;
    }
    retrieve_others(control, way, pool);
}

/// Gets back all that was given back to the port. A call of its own, so that the others are short.
#[inline(never)]
#[cold]
fn retrieve_all_others(control: &mut Control, port: u64)
    requires order { IsControl control.old }
    requires there { (p : PortState) × (port_in control.old.tables.ports port ≡ Some p) }
    ensures left { (p : PortState) → port_in control.old.tables.ports port ≡ Some p
        → control.new ≡ with_tables control.old
        (with_back control.old.tables p control.new.tables.pools) }
    ensures back { (p : PortState) → port_in control.old.tables.ports port ≡ Some p
        → AreGotBack control.old.tables p control.new.tables.pools }
    ensures order { IsControl control.new }
{
    retrieve_all(control, port);
}

/// Gets back all that was given back to the port. Where a loan of it is the only message of its
/// pool that somebody has, nothing was, and it does not look.
#[inline(always)]
pub fn retrieve_all_unless(control: &mut Control, port: u64, alone: bool)
    requires order { IsControl control.old }
    requires there { (p : PortState) × (port_in control.old.tables.ports port ≡ Some p) }
    requires alone { (p : PortState) → port_in control.old.tables.ports port ≡ Some p
        → alone ≡ true → HasOneLoan control.old.tables p.pool }
    ensures left { (p : PortState) → port_in control.old.tables.ports port ≡ Some p
        → control.new ≡ with_tables control.old
        (with_back control.old.tables p control.new.tables.pools) }
    ensures back { (p : PortState) → port_in control.old.tables.ports port ≡ Some p
        → AreGotBack control.old.tables p control.new.tables.pools }
    ensures order { IsControl control.new }
{
    if alone {
        return;
    }
    retrieve_all_others(control, port);
}
