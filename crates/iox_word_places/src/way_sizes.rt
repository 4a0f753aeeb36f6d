//! How many words the queues and the lanes of a wire have.
ghost use Rattle.std.specs.Prelude.{◌≡◌, ◌+◌};
ghost use Rattle.iox_model.specs.declared.kind.Role.TheVariants.{Client};
ghost use Rattle.iox_word_places.specs.MapFields.{AreQueueSizes, AreWaySizes, FitsUsize, sizes_in};
ghost use Rattle.iox_word_places.specs.Plans.{message_words, returning_room, returning_words};
ghost use Rattle.iox_word_places.specs.PortSums.{planned_lane_words};

use crate::counting::told;
use crate::plan::PlanLimits;
use iox_model::kind::Role;

/// How many words the queues of a sender's messages have. What no `usize` counts is told as 0: then
/// no way has such a queue.
#[derive(Clone, Copy, Debug)]
pub(crate) struct QueueSizes {
    // of the queue in which they wait, and of that in which they return
    pub(crate) waiting: usize,
    pub(crate) returning: usize,
    // how many may return
    pub(crate) room: usize,
}

impl QueueSizes {
    /// Those of a sender of that role.
    fn new(limits: &PlanLimits, sender: Role) -> QueueSizes
        ensures { AreQueueSizes limits.now sender result }
    {
        QueueSizes {
            waiting: told(limits.message_words(sender)),
            returning: told(limits.returning_words(sender)),
            room: told(limits.returning_room(sender)),
        }
    }
}

/// How many words there are for a way, as the limits of a wire tell.
#[derive(Clone, Copy, Debug)]
pub(crate) struct WaySizes {
    requests: QueueSizes,
    responses: QueueSizes,
    // of the queues of a client's requests to one server, and of a lane
    pub(crate) way: usize,
    pub(crate) lane: usize,
}

impl WaySizes {
    /// Those of a wire with such limits.
    pub(crate) fn new(limits: &PlanLimits) -> WaySizes
        ensures { AreWaySizes limits.now result }
    {
        WaySizes {
            requests: QueueSizes::new(limits, Role::Client),
            responses: QueueSizes::new(limits, Role::Server),
            way: told(limits.request_words()),
            lane: told(limits.lane_words()),
        }
    }

    /// Those of the queues of a sender of that role.
    #[inline]
    pub(crate) fn queues(&self, sender: Role) -> QueueSizes
        ensures { result ≡ sizes_in self.now sender }
    {
        match sender {
            Role::Client => self.requests,
            Role::Server => self.responses,
        }
    }
}
