//! Which lanes of a client are taken.
ghost use Rattle.std.specs.Prelude.{◌≡◌, find, not};
ghost use Rattle.std.specs.List.{range_with_len};
ghost use Rattle.iox_tables.specs.HubStates.Tables.{labels_of};
ghost use Rattle.iox_tables.specs.HubLoans.Counts.{is_lane_taken};
ghost use Rattle.iox_control_lending.specs.Tests.{is_on_lane_of};

use crate::counts::{is_pending, is_request_loan};
use iox_control::Control;
use iox_handles::{Entry, EntryTest};
use iox_lanes::wanted::Labels;
use iox_slots::Pools;

/// A handle is a loaned request or a pending response of the port, on that lane.
#[derive(Clone, Copy)]
struct OnLane<'a> {
    port: u64,
    lane: u64,
    pools: &'a Pools,
}

impl<'a> EntryTest for OnLane<'a> {
    ghost passes = { λ t e. is_on_lane_of (labels_of t.pools.now) t.port t.lane e };

    fn passes(&self, entry: Entry) -> bool {
        entry.port == self.port
            && ((is_request_loan(entry.kind) || is_pending(entry.kind))
                && self.pools.label(entry.pool, entry.slot).lane == self.lane)
    }
}

/// Whether a loaned request or a pending response of the client has the lane.
pub fn is_lane_taken(control: &Control, client: u64, lane: u64) -> bool
    ensures { result ≡ is_lane_taken control.now.tables client lane }
{
    let pools = control.pools();
    control.handles().count_if(&OnLane {
        port: client,
        lane,
        pools,
    }) > 0
}

/// The lowest lane of the client that no loaned request or pending response has, if there is one.
pub fn free_lane(control: &Control, client: u64, size: usize) -> Option<u64>
    ensures { result ≡ find (λ lane. not (is_lane_taken control.now.tables client lane))
        (range_with_len 0 size) }
{
    for lane in 0..size {
        if !is_lane_taken(control, client, lane as u64) {
            return Some(lane as u64);
        }
    }
    None
}
