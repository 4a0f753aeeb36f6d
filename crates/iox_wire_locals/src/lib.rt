//! A node's own part of a wire: what it keeps, where it is in its call, and how each access leads
//! on. The functions have nothing to do: each is there for its contract.
#![tactic(auto)]

ghost use Rattle.iox_wire_locals.specs.BeginLaws.{HandlesBegin, PortsBegin, RepliesAreTheMachines};
ghost use Rattle.iox_wire_locals.specs.EndLaws.{TablesSettle};
ghost use Rattle.iox_wire_locals.specs.Knowing.{LoansGoOn, LooksGoOn, ReceivesGoOn};
ghost use Rattle.iox_wire_locals.specs.Knowing.{ReleasesGoOn, SendsBegin, SendsGoOn};
ghost use Rattle.iox_wire_locals.specs.Laws.{BusyNodesHaveSomethingToDo, VisitsEnd, VisitsGoOn};
ghost use Rattle.iox_wire_locals.specs.Laws.{WordsTellStates};
ghost use Rattle.iox_wire_locals.specs.StepLaws.{StepsGoOn};
ghost use Rattle.iox_wire_locals.specs.WorkedCalls.{GetBacksTakeFour, LooksTakeFew};
ghost use Rattle.iox_wire_locals.specs.WorkedCalls.{RequestsTakeNineteen, ResponsesAreRead};
ghost use Rattle.iox_wire_locals.specs.WorkedCalls.{ResponsesTakeTwentyFour};

mod local;
mod seat;
mod table;

pub use local::{CallRefusal, Delivery, Ending, Local, Visit};
pub use seat::Seat;
pub use table::{Borrowed, Desk, Entry, NewLoan, Recorded};

/// A node with a call under way has something to do.
pub fn busy_nodes_have_something_to_do()
    ensures { BusyNodesHaveSomethingToDo }
{}

/// Ways may be visited in any order: what is left is what was not visited.
pub fn visits_go_on()
    ensures goes_on { VisitsGoOn }
    ensures ends { VisitsEnd }
{}

/// The word of a request state tells that state.
pub fn words_tell_states()
    ensures { WordsTellStates }
{}

/// On a worked wire a request in one takes 19 accesses, its receipt 12, or 11 under
/// fire-and-forget, and a response is read as it was written.
pub fn worked_calls_take_so_many_accesses()
    ensures requests { RequestsTakeNineteen }
    ensures again { GetBacksTakeFour }
    ensures looks { LooksTakeFew }
    ensures responses { ResponsesTakeTwentyFour }
    ensures read { ResponsesAreRead }
{}

/// Once a part of a call is done, the node's next place stands for what the machine does next.
pub fn courses_are_the_machines()
    ensures sends { SendsGoOn }
    ensures sends_begin { SendsBegin }
    ensures loans { LoansGoOn }
    ensures receives { ReceivesGoOn }
    ensures releases { ReleasesGoOn }
    ensures looks { LooksGoOn }
{}

/// Whatever an access of a node finds, the node is then where the machine is after the moment of
/// that access, or where it was if there was none.
pub fn steps_are_the_machines()
    ensures { StepsGoOn }
{}

/// A call that a node begins from its own tables is the call that the machine begins, and it
/// answers what the machine answers.
pub fn begins_are_the_machines()
    ensures ports { PortsBegin }
    ensures handles { HandlesBegin }
    ensures replies { RepliesAreTheMachines }
{}

/// The end of a call changes a node's table as the machine changes its handles.
pub fn ends_are_the_machines()
    ensures { TablesSettle }
{}
