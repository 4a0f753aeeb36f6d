//! Sends keep what is so of a hub's tables between calls: who has which slot as messages are
//! delivered. The functions have nothing to do: each is there for its contract.
#![tactic(auto)]

ghost use Rattle.iox_hub_delivering.specs.Deliveries.{EachHandOverIsBoth, EachWayIsOneDelivery};
ghost use Rattle.iox_hub_delivering.specs.Deliveries.{OneLaneMayTakeOver, PushedOutIsTheOldest};
ghost use Rattle.iox_hub_delivering.specs.Keeps.{DeliveredRequestsKeepOrder};
ghost use Rattle.iox_hub_delivering.specs.Keeps.{DeliveredResponsesKeepOrder};
ghost use Rattle.iox_hub_delivering.specs.Keeps.{FailedSendsKeepOrder, RefusedSendsKeepOrder};
ghost use Rattle.iox_hub_delivering.specs.Keeps.{RequestPushesKeepOrder, RequestSendsKeepOrder};
ghost use Rattle.iox_hub_delivering.specs.Keeps.{ResponsePushesKeepOrder, ResponseSendsKeepOrder};
ghost use Rattle.iox_hub_delivering.specs.Counts.{EachSendIsCounted, EachSendNeedsAsMuch};
ghost use Rattle.iox_hub_delivering.specs.Counts.{EndsNeedOneLess};
ghost use Rattle.iox_hub_delivering.specs.Steps.{EachChangeIsOneMore, EachStepDelivers};
ghost use Rattle.iox_hub_delivering.specs.Steps.{FirstWaysAreTargets, LettingGoEndsHandles};
ghost use Rattle.iox_hub_delivering.specs.Steps.{NoStepDeliversNothing, OneWayHandsOver};
ghost use Rattle.iox_hub_delivering.specs.Steps.{SentStaysHeld};
ghost use Rattle.iox_hub_delivering.specs.Copies.{CountedLoansKeepOrder, FailedCopiesKeepOrder};
ghost use Rattle.iox_hub_delivering.specs.Copies.{RequestCopiesKeepOrder, ResponseCopiesKeepOrder};
ghost use Rattle.iox_hub_delivering.specs.CopySends.{FailedCopySendsInOrder};
ghost use Rattle.iox_hub_delivering.specs.CopySends.{RequestCopiesPushInOrder};
ghost use Rattle.iox_hub_delivering.specs.CopySends.{RequestCopiesSendInOrder};
ghost use Rattle.iox_hub_delivering.specs.CopySends.{ResponseCopiesPushInOrder};
ghost use Rattle.iox_hub_delivering.specs.CopySends.{ResponseCopiesSendInOrder};
ghost use Rattle.iox_hub_delivering.specs.Worked.{TheSecondPushesOutTheFirst};

/// Loans that are delivered keep the tables in order, where pools change as their messages do.
pub fn deliveries()
    ensures requests { DeliveredRequestsKeepOrder }
    ensures responses { DeliveredResponsesKeepOrder }
{}

/// So do sends, with what comes before their deliveries, and the same state is shown.
pub fn sends()
    ensures requests { RequestSendsKeepOrder }
    ensures pushed_requests { RequestPushesKeepOrder }
    ensures responses { ResponseSendsKeepOrder }
    ensures pushed_responses { ResponsePushesKeepOrder }
{}

/// So do sends that fail or are refused: their loan is gone.
pub fn failures()
    ensures failed { FailedSendsKeepOrder }
    ensures refused { RefusedSendsKeepOrder }
{}

/// Sends can still be counted, and need no more room than there was.
pub fn counts()
    ensures calls { EachSendIsCounted }
    ensures room { EachSendNeedsAsMuch }
    ensures ends { EndsNeedOneLess }
{}

/// What a step of code on one way after others comes to.
pub fn steps()
    ensures one_more { EachStepDelivers }
    ensures held { SentStaysHeld }
    ensures one_way { OneWayHandsOver }
    ensures none { NoStepDeliversNothing }
    ensures handles { LettingGoEndsHandles }
    ensures targets { FirstWaysAreTargets }
    ensures changes { EachChangeIsOneMore }
{}

/// What is pushed out, how often a message is delivered, and that its handle may go first or last.
pub fn holders()
    ensures oldest { PushedOutIsTheOldest }
    ensures each { EachWayIsOneDelivery }
    ensures both { EachHandOverIsBoth }
    ensures one { OneLaneMayTakeOver }
{}

/// Copies that are sent, or are not, keep the tables in order.
pub fn copies()
    ensures requests { RequestCopiesKeepOrder }
    ensures responses { ResponseCopiesKeepOrder }
    ensures failed { FailedCopiesKeepOrder }
    ensures counted { CountedLoansKeepOrder }
{}

/// So do sends of copies, with what comes before their deliveries, and the same state is shown.
pub fn copy_sends()
    ensures requests { RequestCopiesSendInOrder }
    ensures pushed_requests { RequestCopiesPushInOrder }
    ensures responses { ResponseCopiesSendInOrder }
    ensures pushed_responses { ResponseCopiesPushInOrder }
    ensures failed { FailedCopySendsInOrder }
{}

/// Worked pools: a message pushes another one out, and with other holders it would not be so.
pub fn worked()
    ensures { TheSecondPushesOutTheFirst }
{}
