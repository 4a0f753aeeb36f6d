//! Whole calls as functions of lists: a state and a call to a reply and a state, with no moments.
//! The functions have nothing to do: each is there for its contract, that its call is a whole call.
ghost use Rattle.iox_laws.specs.CallFunctions.Searches.{EachReceiveIsWhole};
ghost use Rattle.iox_laws.specs.CallFunctions.Sends.{EachSendIsWhole};
ghost use Rattle.iox_laws.specs.CallFunctions.Overflows.{EachOverflowingSendIsWhole};
ghost use Rattle.iox_laws.specs.CallFunctions.Loans.{EachLoanIsWhole, EachUninitLoanIsWhole};
ghost use Rattle.iox_laws.specs.CallFunctions.Contents.{EachWriteIsWhole, EachReadIsWhole};
ghost use Rattle.iox_laws.specs.CallFunctions.Responses.{EachResponseSendIsWhole};
ghost use Rattle.iox_laws.specs.CallFunctions.LoanSends.{EachLoanSendIsWhole};
ghost use Rattle.iox_laws.specs.CallFunctions.Copies.{EachCopyIsWhole};
ghost use Rattle.iox_laws.specs.CallFunctions.Releases.{EachReleaseIsWhole};
ghost use Rattle.iox_laws.specs.CallFunctions.Looks.{EachSeekIsWhole, EachQuestionIsWhole, EachHintIsWhole};
ghost use Rattle.iox_laws.specs.CallFunctions.Calls.{EachCallIsWhole};
ghost use Rattle.iox_laws.specs.CallFunctions.WorkedPlain.{SendsBesideAnOverfullPair, VisitsTheGoneFirst};
ghost use Rattle.iox_laws.specs.CallFunctions.WorkedLoans.{ClientLends, ServerLends, ClientCopies};
ghost use Rattle.iox_laws.specs.CallFunctions.WorkedResponses.{ResponsePushesOut, FullClientRefuses, NobodyAwaits};
ghost use Rattle.iox_laws.specs.CallFunctions.WorkedReleases.{HintIsTold, ReleaseCloses, LastReleaseDisconnects};

/// What `received` computes is a whole call, of a server or a pending response, if the node forgot
/// nobody.
pub fn receives()
    ensures { EachReceiveIsWhole }
{}

/// What `sent_by` computes is a whole call, of a request without overflow, if the servers' numbers
/// differ and nothing is in hand.
pub fn sends()
    ensures { EachSendIsWhole }
{}

/// What `sent_over_by` computes is a whole call, of a request with overflow, if also no way has one
/// message too many.
pub fn sends_over()
    ensures { EachOverflowingSendIsWhole }
{}

/// What `loaned_by` and `loaned_uninit_by` say is a whole call, of a client and of an active
/// request, where nothing is in hand.
pub fn loans()
    ensures filled { EachLoanIsWhole }
    ensures unfilled { EachUninitLoanIsWhole }
{}

/// What `written_by` and `read_by` say is a whole call.
pub fn contents()
    ensures writes { EachWriteIsWhole }
    ensures reads { EachReadIsWhole }
{}

/// What `responded_by` says is a whole call: the send of a response, with overflow and without,
/// where nothing is in hand and on its way not one too many waits.
pub fn responses()
    ensures { EachResponseSendIsWhole }
{}

/// What `loan_sent_by` says is a whole call: the send of any loan, of a request or of a response,
/// with overflow and without, where nothing is in hand and the loan may be sent.
pub fn loan_sends()
    ensures { EachLoanSendIsWhole }
{}

/// What `copied_by` says is a whole call: loan, write and send in one, of a request and of a
/// response, where nothing is in hand and the loan may be sent.
pub fn copies()
    ensures { EachCopyIsWhole }
{}

/// What `released_by` says is a whole call, of a port and of each kind of handle.
pub fn releases()
    ensures { EachReleaseIsWhole }
{}

/// What the functions of questions and hints say are whole calls.
pub fn looks()
    ensures seeks { EachSeekIsWhole }
    ensures questions { EachQuestionIsWhole }
    ensures hints { EachHintIsWhole }
{}

/// What `call_by` says is a whole call, of every call of a port or handle, where the state is as
/// whole calls leave it.
pub fn calls()
    ensures { EachCallIsWhole }
{}

/// Worked states: gone senders are visited first, and an overfull way of a gone sender hinders no
/// send.
pub fn worked()
    ensures order { VisitsTheGoneFirst }
    ensures overfull { SendsBesideAnOverfullPair }
{}

/// Worked states of loans, sends, hints and releases: what the laws ask is so there, and more than
/// a refusal is answered.
pub fn worked_calls()
    ensures client_lends { ClientLends }
    ensures server_lends { ServerLends }
    ensures client_copies { ClientCopies }
    ensures response_pushes_out { ResponsePushesOut }
    ensures full_client_refuses { FullClientRefuses }
    ensures nobody_awaits { NobodyAwaits }
    ensures hint_is_told { HintIsTold }
    ensures release_closes { ReleaseCloses }
    ensures last_release_disconnects { LastReleaseDisconnects }
{}
