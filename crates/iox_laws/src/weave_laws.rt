//! What holds of every call, whatever the other nodes do in between.
//! The functions have nothing to do: each is there for its contract.
ghost use Rattle.iox_laws.specs.WeaveLaws.WordLaws.{WordsAreKept};
ghost use Rattle.iox_laws.specs.WeaveLaws.CommandLaws.{AnswersAreApart, AskingsAreApart};
ghost use Rattle.iox_laws.specs.WeaveLaws.OrderLaws.{InOrder};
ghost use Rattle.iox_laws.specs.WeaveLaws.Laws.{WholeCallIsWeave, WeaveIsWholeCall, OnlyTheLivingAct, TheDeadStayDead};
ghost use Rattle.iox_laws.specs.WeaveLaws.Laws.{ReceivesOwn, ReceivesNamed, DeliveredIsNotRefused};

/// A whole call and a weave of that one call are the same.
pub fn whole_calls_are_weaves()
    ensures whole_call { WholeCallIsWeave }
    ensures weave { WeaveIsWholeCall }
{}

/// A dead node begins no call, makes no moment, ends no call, and stays dead.
pub fn the_dead_do_nothing()
    ensures beat { OnlyTheLivingAct }
    ensures weave { TheDeadStayDead }
{}

/// A response is received only at its own request. Without fire-and-forget, a server gets a request
/// only by a look that shows it named.
pub fn messages_come_at_their_request()
    ensures response { ReceivesOwn }
    ensures request { ReceivesNamed }
{}

/// A send that delivered to any receiver is not refused, so that a refused one delivered nothing.
pub fn delivered_is_not_refused()
    ensures { DeliveredIsNotRefused }
{}

/// What is received on a way was delivered there, in that order.
pub fn messages_come_in_order()
    ensures { InOrder }
{}

/// A call is finished with the words that it was begun with, however they are read where it begins.
pub fn words_are_kept()
    ensures { WordsAreKept }
{}

/// Different commands and replies of a hub stay different in the short forms of the definitions.
pub fn short_forms_lose_nothing()
    ensures asked { AskingsAreApart }
    ensures answered { AnswersAreApart }
{}
