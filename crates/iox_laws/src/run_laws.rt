//! What holds of every service and its hub, whatever was asked before.
//! The functions have nothing to do: each is there for its contract.
ghost use Rattle.iox_laws.specs.RunLaws.Answering.{EachCallEnds, EachCommandIsAnswered, EachHistoryGoesOn};
ghost use Rattle.iox_laws.specs.RunLaws.Answering.{EachPortCommandIsAnswered, EachRunGoesOn};
ghost use Rattle.iox_laws.specs.RunLaws.Answering.{EachValueIsReleased, SomethingMayBeChosen};
ghost use Rattle.iox_laws.specs.RunLaws.Dying.{TheDeadStayDead};
ghost use Rattle.iox_laws.specs.RunLaws.Moving.{BorrowsStayWithin, QueuesStayWithin};
ghost use Rattle.iox_laws.specs.RunLaws.Receiving.{RequestsAreNamed, ResponsesNameTheirRequest};
ghost use Rattle.iox_laws.specs.RunLaws.Resting.{BorrowsRestWithin, QueuesOfTheGoneRestWithin, QueuesRestWithin, ValuesHaveOwnNumbers};
ghost use Rattle.iox_laws.specs.RunLaws.TraceLaws.{InOrderInACall, InOrderOverRuns, OnlyOverflowEvicts};
ghost use Rattle.iox_laws.specs.RunLaws.TraceLaws.{RefusedCommandDeliversNothing, RefusedPortCommandDeliversNothing};
ghost use Rattle.iox_laws.specs.RunLaws.WorkedTraces.{TracesTheRequests};

/// A call finds an open lane, with memory or without. Whatever it chose, and whatever moments it
/// made, some further moments lead it to an end.
pub fn calls_come_to_their_end()
    ensures chosen { SomethingMayBeChosen }
    ensures ends { EachCallEnds }
{}

/// Whatever a service or its hub is asked, it answers, and values may be released at any time. No
/// run is ever stuck.
pub fn commands_are_answered()
    ensures of_ports { EachPortCommandIsAnswered }
    ensures of_services { EachCommandIsAnswered }
    ensures runs { EachRunGoesOn }
    ensures histories { EachHistoryGoesOn }
    ensures values { EachValueIsReleased }
{}

/// Between calls at most the buffer waits on a way, whether the sender is connected or gone.
pub fn queues_rest_within()
    ensures there { QueuesRestWithin }
    ensures gone { QueuesOfTheGoneRestWithin }
{}

/// During a call one more may wait, where the call may still evict.
pub fn queues_stay_within()
    ensures { QueuesStayWithin }
{}

/// Between calls a receiver has at most as many messages of a way as it may borrow.
pub fn borrows_rest_within()
    ensures { BorrowsRestWithin }
{}

/// During a call, too, a receiver has at most as many messages of a way as it may borrow.
pub fn borrows_stay_within()
    ensures { BorrowsStayWithin }
{}

/// The ports and handles of a node have different numbers.
pub fn values_have_own_numbers()
    ensures { ValuesHaveOwnNumbers }
{}

/// What a run received on a way was delivered there, in that order.
pub fn messages_come_in_order()
    ensures runs { InOrderOverRuns }
    ensures in_a_call { InOrderInACall }
{}

/// A refused command delivered nothing to any receiver.
pub fn refused_delivers_nothing()
    ensures of_ports { RefusedPortCommandDeliversNothing }
    ensures of_services { RefusedCommandDeliversNothing }
{}

/// A call pushes out a waiting message only where messages overflow.
pub fn only_overflow_evicts()
    ensures { OnlyOverflowEvicts }
{}

/// A response is received only at its own request. Without fire-and-forget, a server receives only
/// requests that their clients did not give up.
pub fn messages_come_at_their_request()
    ensures responses { ResponsesNameTheirRequest }
    ensures requests { RequestsAreNamed }
{}

/// Whatever history follows, each later command of a port or handle by a node that died or left is
/// refused by the service, and changes nothing.
pub fn the_dead_do_nothing()
    ensures { TheDeadStayDead }
{}

/// A worked history, whose trace shows what was delivered and what was received.
pub fn worked_traces()
    ensures { TracesTheRequests }
{}
