//! Replies are determined: in each reachable state of a service and its hub, and on a wire without
//! other nodes' beats, a call has one reply.
//! The functions have nothing to do: each is there for its contract.
ghost use Rattle.iox_laws.specs.ReplyLaws.Determined.{CallsHaveOneReply, WireCallsHaveOneReply};
ghost use Rattle.iox_laws.specs.ReplyLaws.Determined.{CommandsHaveOneReply, HubCommandsHaveOneReply};
ghost use Rattle.iox_laws.specs.ReplyLaws.Determined.{MakingsHaveOneReply, JoinsHaveOneReply};
ghost use Rattle.iox_laws.specs.ReplyLaws.Determined.{OnlyWantIsToldInstead};
ghost use Rattle.iox_laws.specs.ReplyLaws.PlainReplies.{ReceivesAnswerPlainly, SendsAnswerPlainly};
ghost use Rattle.iox_laws.specs.ReplyLaws.PlainReplies.{OverflowingSendsAnswerPlainly};
ghost use Rattle.iox_laws.specs.ReplyLaws.PlainReplies.{ReachableStatesAreReady, CallsAnswerPlainly};
ghost use Rattle.iox_laws.specs.ReplyLaws.PlainReplies.{TakingCallsAnswerPlainly};

/// Where memory is there, a reply does not depend on the lane of a loan, on the order of visits or
/// on the moments. The same holds on a wire while no other node makes a beat.
pub fn replies_are_determined()
    ensures calls { CallsHaveOneReply }
    ensures makings { MakingsHaveOneReply }
    ensures joins { JoinsHaveOneReply }
    ensures wires { WireCallsHaveOneReply }
{}

/// Where memory may be missing, the reply is that one, or says that there was no memory.
pub fn only_want_of_memory_is_told_instead()
    ensures calls { OnlyWantIsToldInstead }
    ensures of_ports { HubCommandsHaveOneReply }
    ensures of_services { CommandsHaveOneReply }
{}

/// The functions of lists compute the reply of each call, and what they ask of a state holds
/// between calls.
pub fn plain_functions_tell_the_reply()
    ensures receives { ReceivesAnswerPlainly }
    ensures sends { SendsAnswerPlainly }
    ensures sends_over { OverflowingSendsAnswerPlainly }
    ensures ready { ReachableStatesAreReady }
    ensures calls { CallsAnswerPlainly }
    ensures taking_calls { TakingCallsAnswerPlainly }
{}
