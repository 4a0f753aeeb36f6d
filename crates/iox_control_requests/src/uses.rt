//! Callers of the sends of requests, proved only from the clauses.
ghost use Rattle.std.specs.Prelude.{◌≡◌, ◌<◌, ◌^◌, true};
ghost use Rattle.iox_tables.specs.HubStates.Wirings.{IsHandle};
ghost use Rattle.iox_model.specs.Handles.{is_request_loan};
ghost use Rattle.iox_control.specs.Controls.{IsControl};
ghost use Rattle.iox_control.specs.Entries.{handle_state};

use crate::{ByStrategy, attempt};
use iox_control::Control;
use iox_handles::Entry;
use iox_types::backpressure::BackpressureStrategy;

/// The tables are in order after a send under a strategy.
pub fn sends_or_discards(control: &mut Control, entry: Entry, overflow: bool) -> Option<u64>
    requires order { IsControl control.old }
    requires calls { control.old.tables.calls < 2 ^ 56 }
    requires named { IsHandle control.old.tables entry.node entry.number (handle_state entry) }
    requires kind { is_request_loan entry.kind ≡ true }
    ensures { IsControl control.new }
{
    let discards = ByStrategy {
        strategy: BackpressureStrategy::DiscardData,
    };
    attempt(control, entry, overflow, 0, &discards)
}
