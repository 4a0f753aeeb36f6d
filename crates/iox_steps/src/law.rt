//! The laws of a queue's turns, each for those who call its empty function.
ghost use Rattle.iox_steps.specs.Laws.{EveryTurnKeeps, EveryTurnLeavesOthers, pushing_turn, popping_turn};

/// Each access of either party keeps its queue, of any kind, base and capacity, wherever in their
/// calls both are. It names only words of the queue, and changes one at most. Its event is true,
/// the words fit after it, and a reply says what the event was.
pub fn every_access_keeps_the_queue()
    ensures push { EveryTurnKeeps pushing_turn }
    ensures pop { EveryTurnKeeps popping_turn }
{}

/// Where two queues stand apart in one list of words, an access at the one keeps that queue, and
/// leaves the other queue and all other words unchanged. Among many queues this holds of each other
/// one.
pub fn queues_apart_stay_apart()
    ensures push { EveryTurnLeavesOthers pushing_turn }
    ensures pop { EveryTurnLeavesOthers popping_turn }
{}
