//! Whether a client may send one request more, by a copy.
ghost use Rattle.std.specs.Prelude.{◌≡◌};
ghost use Rattle.iox_tables.specs.HubLoans.Counts.{has_all_active};

use iox_control::Control;
use iox_control_requests::is_spent;
use iox_model::kind::Kind;

/// Whether the client has as many pending responses as it may, by a count. A call of its own, so
/// that the other is short.
#[cold]
#[inline(never)]
fn counts_all_active(control: &Control, client: u64) -> bool
    ensures { result ≡ has_all_active control.now.tables client }
{
    is_spent(control, client)
}

/// Whether the client has as many pending responses as it may. Where ports whose numbers have the
/// remainder of its number have fewer in all, none are counted.
#[inline(always)]
pub(crate) fn has_all_active(control: &Control, client: u64) -> bool
    ensures { result ≡ has_all_active control.now.tables client }
{
    let most = control.settings().active_requests;
    if control.handles().at_most(client, Kind::PendingResponse) < most {
        return false;
    }
    counts_all_active(control, client)
}
