//! What senders and receivers do to one lane, or to one request state.
ghost use Rattle.std.specs.Prelude.{None, false, slice_get};
ghost use Rattle.iox_model.specs.declared.way.RequestState.TheVariants.{Named};
ghost use Rattle.iox_model.specs.Messages.{closed_for, hinted_for};
ghost use Rattle.iox_tables.specs.Lanes.{has_room, is_taken, offered, oldest, released, without_oldest, without_returned};
ghost use Rattle.iox_hub_ports.specs.Ports.{pushed, pushed_out};

use iox_tables::pipe::Pipe;
use iox_tables::steps::{LaneStep, StateStep};

/// The message in this place is put last in line, where there is room.
#[derive(Clone, Copy, Drop)]
pub struct Deliver {
    /// The place of the message in its sender's pool.
    pub place: u64,
}

impl LaneStep for Deliver {
    type Answer = bool;

    ghost changed = { λ s l. offered l s.place };

    ghost told = { λ s l. has_room l };

    ghost none = { λ s. false };

    #[inline]
    fn nothing(&self) -> bool {
        false
    }

    #[inline]
    fn step(&self, pipe: &mut Pipe, lane: usize) -> bool {
        pipe.deliver(lane, self.place)
    }
}

/// The receiver gives the message in this place back, if it has it.
#[derive(Clone, Copy, Drop)]
pub struct Release {
    /// The place of the message in its sender's pool.
    pub place: u64,
}

impl LaneStep for Release {
    type Answer = bool;

    ghost changed = { λ s l. released l s.place };

    ghost told = { λ s l. is_taken l s.place };

    ghost none = { λ s. false };

    #[inline]
    fn nothing(&self) -> bool {
        false
    }

    #[inline]
    fn step(&self, pipe: &mut Pipe, lane: usize) -> bool {
        pipe.release(lane, self.place)
    }
}

/// The oldest message that waits is pushed out.
#[derive(Clone, Copy, Drop)]
pub struct Evict;

impl LaneStep for Evict {
    type Answer = Option<u64>;

    ghost changed = { λ s l. without_oldest l };

    ghost told = { λ s l. oldest l };

    ghost none = { λ s. None };

    #[inline]
    fn nothing(&self) -> Option<u64> {
        None
    }

    #[inline]
    fn step(&self, pipe: &mut Pipe, lane: usize) -> Option<u64> {
        pipe.evict(lane)
    }
}

/// The message in this place is put last in line. Where as many wait as may, the oldest is pushed
/// out first.
#[derive(Clone, Copy, Drop)]
pub struct Push {
    /// The place of the message in its sender's pool.
    pub place: u64,
}

impl LaneStep for Push {
    type Answer = Option<u64>;

    ghost changed = { λ s l. pushed l s.place };

    ghost told = { λ s l. pushed_out l };

    ghost none = { λ s. None };

    #[inline]
    fn nothing(&self) -> Option<u64> {
        None
    }

    #[inline]
    fn step(&self, pipe: &mut Pipe, lane: usize) -> Option<u64> {
        let place = self.place;
        if pipe.is_full(lane) {
            let oldest = pipe.evict(lane);
            pipe.deliver(lane, place);
            return oldest;
        }
        pipe.deliver(lane, place);
        None
    }
}

/// The sender gets the oldest of those back that were given back.
#[derive(Clone, Copy, Drop)]
pub struct GetBack;

impl LaneStep for GetBack {
    type Answer = Option<u64>;

    ghost changed = { λ s l. without_returned l };

    ghost told = { λ s l. slice_get l.returned 0 };

    ghost none = { λ s. None };

    #[inline]
    fn nothing(&self) -> Option<u64> {
        None
    }

    #[inline]
    fn step(&self, pipe: &mut Pipe, lane: usize) -> Option<u64> {
        pipe.get_back(lane)
    }
}

/// The request is open.
#[derive(Clone, Copy, Drop)]
pub struct Open {
    /// The number of the request.
    pub id: u64,
}

impl StateStep for Open {
    ghost changed = { λ s r. Named s.id false };

    #[inline]
    fn step(&self, pipe: &mut Pipe, lane: usize) {
        pipe.open_request(lane, self.id);
    }
}

/// The request is closed, if it is the open one.
#[derive(Clone, Copy, Drop)]
pub struct Close {
    /// The number of the request.
    pub id: u64,
}

impl StateStep for Close {
    ghost changed = { λ s r. closed_for r s.id };

    #[inline]
    fn step(&self, pipe: &mut Pipe, lane: usize) {
        pipe.close_request(lane, self.id);
    }
}

/// Its client lost interest in the request, if it is the open one.
#[derive(Clone, Copy, Drop)]
pub struct Hint {
    /// The number of the request.
    pub id: u64,
}

impl StateStep for Hint {
    ghost changed = { λ s r. hinted_for r s.id };

    #[inline]
    fn step(&self, pipe: &mut Pipe, lane: usize) {
        pipe.hint_request(lane, self.id);
    }
}
