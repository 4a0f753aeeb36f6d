//! Whether a client may send one request more.
ghost use Rattle.std.specs.Prelude.{◌≡◌};
ghost use Rattle.iox_tables.specs.HubLoans.Counts.{has_all_active};

use iox_control::Control;
use iox_model::kind::Kind;

/// Whether the client has as many pending responses as it may.
pub fn is_spent(control: &Control, client: u64) -> bool
    ensures { result ≡ has_all_active control.now.tables client }
{
    control.settings().active_requests <= control.handles().count(client, Kind::PendingResponse)
}
