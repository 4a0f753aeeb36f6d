//! What was given back on one way.
ghost use Rattle.std.specs.Prelude.{◌≡◌, ◌∷◌, [], Some};
ghost use Rattle.iox_lanes.specs.Lanes.{LaneState};
ghost use Rattle.iox_tables.specs.HubStates.Changes.{emptied_lane, with_lanes};
ghost use Rattle.iox_tables.specs.HubStates.Ways.{lane_on};
ghost use Rattle.iox_tables.specs.HubLending.Emptying.{HasFewerHolders, returned_on};
ghost use Rattle.iox_control.specs.Controls.{IsControl, with_tables};

use iox_control::Control;
use iox_model::way::Way;

/// Gets back all that was given back on the way, whose messages are of that pool.
pub fn retrieve(control: &mut Control, way: Way, pool: usize)
    requires order { IsControl control.old }
    requires pool { (l : LaneState) → lane_on control.old.tables.ports way ≡ Some l
        → l.pool ≡ pool }
    ensures left { control.new ≡ with_tables control.old (record (with_lanes emptied_lane
        control.old.tables (way ∷ [])) { pools = control.new.tables.pools }) }
    ensures fewer { HasFewerHolders control.old.tables.pools control.new.tables.pools
        (returned_on control.old.tables (way ∷ [])) }
    ensures order { IsControl control.new }
{
    while let Some(slot) = control.get_back(way) {
        control.let_go_of(pool, slot);
    }
}
