//! The send of a loaned request of a client that may have one more pending response, up to the
//! disconnection that may follow where it fails.
ghost use Rattle.std.specs.Prelude.{◌≡◌, ◌<◌, ◌≤◌, ◌^◌, None, Some, length, true, is_none, ℕ};
ghost use Rattle.iox_tables.specs.HubBooks.Keeps.{bare_pools};
ghost use Rattle.iox_tables.specs.HubStates.Changes.{OnEach};
ghost use Rattle.iox_tables.specs.HubStates.Ways.{lane_on};
ghost use Rattle.iox_control_requests.specs.Servers.{request_ways};
ghost use Rattle.iox_tables.specs.HubStates.Ends.{with_dropped};
ghost use Rattle.iox_tables.specs.HubStates.Wirings.{IsHandle};
ghost use Rattle.iox_model.specs.Handles.{is_request_loan};
ghost use Rattle.iox_control.specs.Controls.{IsControl};
ghost use Rattle.iox_control.specs.Entries.{handle_state};
ghost use Rattle.iox_control_requests.specs.Requests.{is_failing, ways_of};
ghost use Rattle.iox_control_requests.specs.Requests.{with_request_sent, with_requests_back};

use crate::backpressure::WhenFull;
use crate::sends::send_to_all;
use crate::servers::is_refused;
use iox_control::Control;
use iox_control_ending::end_loan;
use iox_control_retrieving::{has_one_out, retrieve_all_unless};
use iox_handles::Entry;

/// Whether the send of a request of the client fails as the servers are now.
fn is_to_fail<B: WhenFull>(control: &Control, client: u64, overflow: bool, backpressure: &B) -> bool
    ensures { result
        ≡ is_failing (B.fails backpressure.now) overflow control.now.tables.ports client }
{
    if overflow {
        return false;
    }
    is_refused(control, client, backpressure)
}

/// Sends a client's loaned request, and says to how many servers: first the client gets all back.
/// Without overflow, a full server may make the send fail. Then the loan ends, and the answer is
/// `None`.
pub fn attempt<B: WhenFull>(
    control: &mut Control,
    entry: Entry,
    overflow: bool,
    hint: usize,
    backpressure: &B,
) -> Option<u64>
    requires order { IsControl control.old }
    requires calls { control.old.tables.calls < 2 ^ 56 }
    requires named { IsHandle control.old.tables entry.node entry.number (handle_state entry) }
    requires kind { is_request_loan entry.kind ≡ true }
    ensures fails { is_none result ≡ is_failing (B.fails backpressure.now) overflow
        (with_requests_back control.old.tables (handle_state entry)).ports entry.port }
    ensures failed { result ≡ None → control.new.tables
        ≡ record (with_dropped (with_requests_back control.old.tables (handle_state entry))
        entry.node entry.number) { pools = control.new.tables.pools } }
    ensures count { (count : ℕ) → result ≡ Some count → count
        ≡ length (ways_of (with_requests_back control.old.tables (handle_state entry))
        (handle_state entry) overflow) }
    ensures sent { (count : ℕ) → result ≡ Some count → control.new.tables
        ≡ record (with_request_sent (with_requests_back control.old.tables (handle_state entry))
        (handle_state entry) overflow) { pools = control.new.tables.pools } }
    ensures waits { (count : ℕ) → result ≡ Some count
        → OnEach (λ w l. length l.waiting ≤ l.buffer) (lane_on control.old.tables.ports)
        (request_ways entry.port control.old.tables.ports) }
    ensures messages { bare_pools control.old.tables.pools ≡ bare_pools control.new.tables.pools }
    ensures order { IsControl control.new }
{
    let label = control.label_of(entry.pool, entry.slot);
    let alone = has_one_out(control, entry.pool);
    retrieve_all_unless(control, entry.port, alone);
    if is_to_fail(control, entry.port, overflow, backpressure) {
        end_loan(control, entry.node, entry.number, hint);
        return None;
    }
    Some(send_to_all(control, entry, label, overflow, hint))
}
