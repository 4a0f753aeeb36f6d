//! Callers, proved only from the clauses.
ghost use Rattle.std.specs.Option.{option_map};
ghost use Rattle.std.specs.Prelude.{◌≡◌, IfOk, None, Some, false, true};
ghost use Rattle.iox_lanes.specs.declared.search.LaneVisit.TheVariants.{Got, Nothing};
ghost use Rattle.iox_lanes.specs.Lanes.{is_full};
ghost use Rattle.iox_lanes.specs.Pipes.{new_pipe};

use crate::expired::Expired;
use crate::lane::Lane;
use crate::pipe::Pipe;
use crate::search::LaneVisit;
use crate::wanted::{Label, Labels, Wanted};
use std::alloc::{AllocError, Global};

/// Every message has the same label.
#[derive(Drop)]
pub struct OneLabel {
    /// The label of every message.
    pub label: Label,
}

impl Labels for OneLabel {
    ghost label_of = { λ l pool place. l.label };

    fn label(&self, _pool: usize, _place: u64) -> Label {
        self.label
    }
}

/// What was delivered is taken, given back, and got back.
pub fn goes_around(
    alloc: Global,
    place: u64,
) -> Result<(Option<u64>, bool, Option<u64>), AllocError>
    ensures { IfOk result (λ r. r ≡ (Some place, true, Some place)) }
{
    let mut lane = Lane::new(alloc, 0, 2, 1)?;
    lane.deliver(place);
    let taken = lane.take();
    let released = lane.release(place);
    Ok((taken, released, lane.get_back()))
}

/// A lane on which as many messages wait as may refuses one more, and stays as it is.
pub fn full_lane_refuses(lane: &mut Lane, place: u64) -> bool
    requires { is_full lane.old ≡ true }
    ensures refused { result ≡ false }
    ensures unchanged { lane.new ≡ lane.old }
{
    lane.deliver(place)
}

/// The oldest is pushed out, and the newer one is taken.
pub fn newer_is_taken(
    alloc: Global,
    older: u64,
    newer: u64,
) -> Result<(Option<u64>, Option<u64>), AllocError>
    ensures { IfOk result (λ r. r ≡ (Some older, Some newer)) }
{
    let mut lane = Lane::new(alloc, 0, 1, 1)?;
    lane.deliver(older);
    let evicted = lane.evict();
    lane.deliver(newer);
    Ok((evicted, lane.take()))
}

/// A request that is not open is given back unread.
pub fn stale_is_given_back(
    alloc: Global,
    label: Label,
    place: u64,
) -> Result<(LaneVisit, Option<u64>), AllocError>
    ensures { IfOk result (λ r. r ≡ (Nothing, Some place)) }
{
    let mut pipe = Pipe::new(alloc, 3, 0, 1, 1, 1, 1)?;
    pipe.deliver(0, place);
    let visit = pipe.visit(0, Wanted::Named, &OneLabel { label });
    Ok((visit, pipe.get_back(0)))
}

/// A request that is open is taken.
pub fn open_is_taken(alloc: Global, request: u64, place: u64) -> Result<LaneVisit, AllocError>
    ensures { IfOk result (λ visit. visit ≡ Got place) }
{
    let mut pipe = Pipe::new(alloc, 3, 0, 1, 1, 1, 1)?;
    pipe.open_request(0, request);
    pipe.deliver(0, place);
    let labels = OneLabel {
        label: Label { lane: 0, request },
    };
    Ok(pipe.visit(0, Wanted::Named, &labels))
}

/// A pipe of one lane from that sender.
fn pipe_from(alloc: Global, sender: u64) -> Result<Pipe, AllocError>
    ensures { IfOk result (λ p. p ≡ new_pipe sender 0 1 1 1 0) }
{
    Pipe::new(alloc, sender, 0, 1, 1, 1, 0)
}

/// From whom the pipe comes, if there is one.
fn sender_of(pipe: Option<Pipe>) -> Option<u64>
    ensures { result ≡ option_map (λ p. p.sender) pipe }
{
    Some(pipe?.sender())
}

/// Where there is room for one, the older of two is given up.
pub fn older_is_given_up(
    alloc: Global,
) -> Result<(Option<u64>, Option<u64>, Option<usize>), AllocError>
    ensures { IfOk result (λ r. r ≡ (None, Some 1, Some 0)) }
{
    let mut expired = Expired::new(alloc, 1)?;
    let none = sender_of(expired.keep(pipe_from(alloc, 1)?));
    let older = sender_of(expired.keep(pipe_from(alloc, 2)?));
    Ok((none, older, expired.rank(2)))
}

/// Where there is room for none, what comes is given up.
pub fn none_is_kept(alloc: Global) -> Result<(Option<u64>, usize), AllocError>
    ensures { IfOk result (λ r. r ≡ (Some 1, 0)) }
{
    let mut expired = Expired::new(alloc, 0)?;
    let given_up = sender_of(expired.keep(pipe_from(alloc, 1)?));
    Ok((given_up, expired.len()))
}
