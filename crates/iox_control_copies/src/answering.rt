//! The copy of a lender's response.
ghost use Rattle.std.specs.Prelude.{◌≡◌, ◌<◌, ◌^◌, IfSome, Some, is_some};
ghost use Rattle.iox_model.specs.declared.kind.Role.TheVariants.{Server};
ghost use Rattle.iox_tables.specs.HubStates.Tables.{PortState, port_in};
ghost use Rattle.iox_tables.specs.HubStates.Ways.{lane_on};
ghost use Rattle.iox_tables.specs.HubLoans.CopySends.{is_lender_awaited};
ghost use Rattle.iox_hub_ports.specs.Ports.{info_of, place_in};
ghost use Rattle.iox_lanes.specs.Lanes.{IsSound, LaneState};
ghost use Rattle.iox_slots.specs.Pools.{free_count};
ghost use Rattle.iox_control.specs.Controls.{IsControl};
ghost use Rattle.iox_control_lending.specs.Lends.{IsPortOf, lender_of};
ghost use Rattle.iox_control_copies.specs.Answers.{CopyComesTo, AnswersThen, way_of};

use crate::answered::Answered;
use crate::lining::put_in_line;
use crate::losing::lose;
use iox_control::Control;
use iox_control_lending::{Asked, Lending, loan_refusal};
use iox_control_responses::{Target, is_shut, retrieve_all_in};
use iox_model::way::Way;

/// Copies for that lender, whose port is in that place, where some slot of its pool is free: it is
/// told where its client waits for the response, if it does, whether that may not wait there, and
/// whether its send fails then.
#[inline(always)]
fn copy_free(
    control: &mut Control,
    lender: &Lending,
    at: usize,
    asked: Asked,
    to: Option<Target>,
    shut: bool,
    fails: bool,
) -> Answered
    requires port { IsPortOf control.old.tables lender.now }
    requires order { IsControl control.old }
    requires calls { control.old.tables.calls < 2 ^ 56 }
    requires free { 0 < free_count control.old.tables.pools lender.now.port.pool }
    requires place { place_in control.old.tables.ports lender.now.port.number ≡ Some at }
    requires there { IfSome to (λ target.
        place_in control.old.tables.ports lender.now.client ≡ Some target.place) }
    ensures { (p : PortState) → lender.now.port ≡ info_of p
        → AnswersThen control.old (lender_of p lender.now) asked (is_some to) shut fails result
        control.new }
{
    let Some(target) = to else {
        lose(control, lender.port.number, at, false);
        return Answered::Done(None);
    };
    if !shut {
        return Answered::Done(Some(put_in_line(control, lender, at, target, asked)));
    }
    lose(control, lender.port.number, at, fails);
    if fails {
        return Answered::Undelivered;
    }
    Answered::Done(None)
}

/// Copies for that lender, whose port is in that place, and says what that comes to: where its
/// client waits for the response, if it does, and whether the send fails where it may not wait
/// there, the caller says.
#[inline(always)]
pub(crate) fn answer(
    control: &mut Control,
    lender: &Lending,
    at: usize,
    asked: Asked,
    to: Option<Target>,
    fails: bool,
) -> Answered
    requires port { IsPortOf control.old.tables lender.now }
    requires server { lender.now.port.role ≡ Server }
    requires order { IsControl control.old }
    requires place { place_in control.old.tables.ports lender.now.port.number ≡ Some at }
    requires awaited { (p : PortState) → lender.now.port ≡ info_of p
        → is_some to ≡ is_lender_awaited control.old.tables (lender_of p lender.now) }
    requires there { IfSome to (λ target.
        place_in control.old.tables.ports lender.now.client ≡ Some target.place) }
    ensures left { (p : PortState)
        → port_in control.old.tables.ports lender.now.port.number ≡ Some p
        → CopyComesTo control.old (lender_of p lender.now) asked fails result control.new }
    ensures sound { (p : PortState)
        → port_in control.old.tables.ports lender.now.port.number ≡ Some p → (l : LaneState)
        → lane_on control.old.tables.ports (way_of (lender_of p lender.now)) ≡ Some l → IsSound l }
    ensures order { IsControl control.new }
{
    let way = Way {
        sender: lender.port.number,
        receiver: lender.client,
        lane: lender.lane,
    };
    let shut = is_shut(control, way);
    if let Some(refusal) = loan_refusal(control, *lender, asked) {
        return Answered::Refused(refusal);
    }
    retrieve_all_in(control, &lender.port, at);
    if control.pools().free_len(lender.port.pool) == 0 {
        return Answered::OutOfMemory;
    }
    copy_free(control, lender, at, asked, to, shut, fails)
}
