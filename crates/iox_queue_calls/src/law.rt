//! The law of queues that stand apart, for those who call its empty function.
ghost use Rattle.iox_queue_calls.specs.Apart.{StretchLeavesQueues};

/// Where a call changes words only in one stretch, as `push` and `pop` do, the words still hold
/// each queue outside that stretch, unchanged. The stretch may be that of a queue of values of
/// several words.
pub fn queues_apart_stay()
    ensures { StretchLeavesQueues }
{}
