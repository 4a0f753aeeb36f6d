//! A visit to one lane, and the search for a message that its receiver wants.
ghost use Rattle.std.specs.Prelude.{◌≡◌, OnSome};
ghost use Rattle.iox_lanes.specs.Lanes.{HasOneInHand};
ghost use Rattle.iox_lanes.specs.Searches.{first_on, is_wanted, searched_on, visit_on, visited_on};

use crate::lane::Lane;
use crate::states::{is_named, state_of};
use crate::wanted::{Labels, Wanted};
use iox_model::way::RequestState;

/// What a visit to one lane came to.
#[derive(Clone, Copy, Debug, PartialEq, Eq, Drop)]
pub enum LaneVisit {
    /// The message in this place was taken.
    Got(u64),
    /// Something waits, and the receiver has as many messages as it may.
    AtLimit,
    /// Nothing that is wanted waits.
    Nothing,
}

/// Whether the receiver wants the message in that place of the pool.
pub(crate) fn wants<L: Labels>(
    wanted: Wanted,
    states: &[RequestState],
    labels: &L,
    pool: usize,
    place: u64,
) -> bool
    ensures { result ≡ is_wanted wanted states.now (L.label_of labels.now pool) place }
{
    match wanted {
        Wanted::Any => true,
        Wanted::Named => {
            let label = labels.label(pool, place);
            is_named(state_of(states, label.lane), label.request)
        }
        Wanted::Of(request) => labels.label(pool, place).request == request,
    }
}

/// Puts the oldest that is wanted into its receiver's hand. Those before it are given back.
#[inline(always)]
fn search<L: Labels>(
    lane: &mut Lane,
    wanted: Wanted,
    labels: &L,
    states: &[RequestState],
) -> Option<u64>
    ensures found { result ≡ first_on wanted states.now (L.label_of labels.now) lane.old }
    ensures left { lane.new ≡ searched_on wanted states.now (L.label_of labels.now) lane.old }
    ensures hand { OnSome result (HasOneInHand lane.new) }
{
    loop {
        let place = lane.pull()?;
        if wants(wanted, states, labels, lane.pool(), place) {
            return Some(place);
        }
        lane.give_back(place);
    }
}

/// Takes the oldest message that is wanted, unless the receiver has as many as it may. Those before
/// it are given back unread.
#[inline(always)]
pub fn visit_lane<L: Labels>(
    lane: &mut Lane,
    wanted: Wanted,
    labels: &L,
    states: &[RequestState],
) -> LaneVisit
    ensures visit { result ≡ visit_on wanted states.now (L.label_of labels.now) lane.old }
    ensures visited { lane.new ≡ visited_on wanted states.now (L.label_of labels.now) lane.old }
{
    if lane.is_at_limit() {
        if lane.is_empty() {
            return LaneVisit::Nothing;
        }
        return LaneVisit::AtLimit;
    }
    match search(lane, wanted, labels, states) {
        None => LaneVisit::Nothing,
        Some(place) => {
            lane.hold(place);
            LaneVisit::Got(place)
        }
    }
}
