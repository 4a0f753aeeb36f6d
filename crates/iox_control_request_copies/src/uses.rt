//! Callers of the copy of a request, proved only from the clauses.
ghost use Rattle.iox_tables.specs.HubLoans.Lenders.{IsClient};
ghost use Rattle.iox_control.specs.Controls.{IsControl};

use crate::{Copied, copy_request};
use iox_control::Control;
use iox_control_copies::Asked;
use iox_control_requests::ByStrategy;
use iox_types::backpressure::BackpressureStrategy;

/// A client that has no handler copies: the tables are in order then.
pub fn copies_or_discards(control: &mut Control, node: u64, client: u64, asked: Asked) -> Copied
    requires client { IsClient control.old.tables node client }
    requires order { IsControl control.old }
    ensures { IsControl control.new }
{
    let discards = ByStrategy {
        strategy: BackpressureStrategy::DiscardData,
    };
    copy_request(control, node, client, asked, &discards)
}
