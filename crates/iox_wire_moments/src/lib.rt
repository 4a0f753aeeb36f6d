//! The accesses of a wire's queues as moments of the machine.
//! The functions have nothing to do: each is there for its contract.
#![tactic(auto)]

ghost use Rattle.iox_wire_moments.specs.Laws.{EachAccessIsAMoment};

/// Each access of a queue is one moment that is true of the state that the words are tied to, or
/// none.
pub fn each_access_is_a_moment()
    ensures { EachAccessIsAMoment }
{}
