//! Loans, what they hold, sends that make their loan, and what is asked and refused: over the
//! tables of a hub they are what the machine does.
//! The functions have nothing to do: each is there for its contract.
ghost use Rattle.iox_tables.specs.HubLoans.Copies.{CopiesAreRefused, CopiesFindDryPools};
ghost use Rattle.iox_tables.specs.HubLoans.Copies.{CopiesWantMemory};
ghost use Rattle.iox_tables.specs.HubLoans.CopyPremises.{CopiesMayBeSent};
ghost use Rattle.iox_tables.specs.HubLoans.CopySends.{CopiesAreSent, CopiesAreSentOver};
ghost use Rattle.iox_tables.specs.HubLoans.CopySends.{SpentCopiesAreRefused, UnawaitedCopiesGoToNobody};
ghost use Rattle.iox_tables.specs.HubLoans.Counts.{EachCountIsTheSame};
ghost use Rattle.iox_tables.specs.HubLoans.Fillings.{FillingsAreShown, WordsMayChange};
ghost use Rattle.iox_tables.specs.HubLoans.Fillings.{WritesAreMade, WritesAreRefused};
ghost use Rattle.iox_tables.specs.HubLoans.Loans.{LoansAreMade, LoansAreRefused};
ghost use Rattle.iox_tables.specs.HubLoans.Loans.{LoansFindDryPools, LoansWantMemory};
ghost use Rattle.iox_tables.specs.HubLoans.Loans.{EachChoiceMayBe, LoansMayHoldDefaults};
ghost use Rattle.iox_tables.specs.HubLoans.Loans.{SomePayloadMayBeHeld};
ghost use Rattle.iox_tables.specs.HubLoans.Pools.{DryPoolsAreForetold, DryPoolsAreKept};
ghost use Rattle.iox_tables.specs.HubLoans.Pools.{UnusedSlotsMayBeLent};
ghost use Rattle.iox_tables.specs.HubLoans.Questions.{AwaitedAreNamed, ConnectionsAreTold};
ghost use Rattle.iox_tables.specs.HubLoans.Questions.{EachIsRead, EachValueIsThere, HintsAreTold};
ghost use Rattle.iox_tables.specs.HubLoans.Refusals.{CallsAreRefused, NamesAreRefused};
ghost use Rattle.iox_tables.specs.HubLoans.Slots.{UnusedSlotsMayChange};
ghost use Rattle.iox_tables.specs.HubLoans.Worked.{ClientCopiesOnce, ClientLendsOnce};
ghost use Rattle.iox_tables.specs.HubLoans.Worked.{LoanIsWritten, NumbersAreRefused};
ghost use Rattle.iox_tables.specs.HubLoans.WorkedServers.{BothAreConnected, ClientFindsDryPool};
ghost use Rattle.iox_tables.specs.HubLoans.WorkedServers.{ServerCopiesOnce, ServerLendsOnce};

/// A slot that nobody has may become any message.
pub fn slots()
    ensures { UnusedSlotsMayChange }
{}

/// Counts of handles, and whether a lane is free, are the machine's.
pub fn counts()
    ensures { EachCountIsTheSame }
{}

/// A loan, unfilled or filled, of a client or of an active request, is the machine's whole call.
pub fn loans()
    ensures refused { LoansAreRefused }
    ensures memory { LoansWantMemory }
    ensures dry { LoansFindDryPools }
    ensures made { LoansAreMade }
{}

/// A pool is dry exactly where its port keeps each slot, and that is told before it gets all back.
pub fn pools()
    ensures kept { DryPoolsAreKept }
    ensures foretold { DryPoolsAreForetold }
    ensures unused { UnusedSlotsMayBeLent }
{}

/// The lane that a loan takes may be chosen, and a loan may hold defaults.
pub fn choices()
    ensures lanes { EachChoiceMayBe }
    ensures defaults { LoansMayHoldDefaults }
    ensures some { SomePayloadMayBeHeld }
{}

/// Writes, and what the holder of a loan fills in, change the words of one slot.
pub fn fillings()
    ensures words { WordsMayChange }
    ensures refused { WritesAreRefused }
    ensures made { WritesAreMade }
    ensures fills { FillingsAreShown }
{}

/// Questions are answered, and words are read, as the machine does; and so it is told what a node
/// has.
pub fn questions()
    ensures awaited { AwaitedAreNamed }
    ensures connected { ConnectionsAreTold }
    ensures hinted { HintsAreTold }
    ensures read { EachIsRead }
    ensures there { EachValueIsThere }
{}

/// A copy is refused, for its loan, as the machine refuses it.
pub fn refused_copies()
    ensures refused { CopiesAreRefused }
    ensures memory { CopiesWantMemory }
    ensures dry { CopiesFindDryPools }
{}

/// A copy is sent, with overflow and without, as the machine sends it; and it may be sent where its
/// loan may.
pub fn copies()
    ensures spent { SpentCopiesAreRefused }
    ensures unawaited { UnawaitedCopiesGoToNobody }
    ensures plain { CopiesAreSent }
    ensures over { CopiesAreSentOver }
    ensures premises { CopiesMayBeSent }
{}

/// What a call's number names, and whether it begins at all, is told as the machine tells it.
pub fn refusals()
    ensures names { NamesAreRefused }
    ensures calls { CallsAreRefused }
{}

/// Worked tables: what the laws ask is so there, and a client lends, writes and copies.
pub fn worked()
    ensures lends { ClientLendsOnce }
    ensures writes { LoanIsWritten }
    ensures copies { ClientCopiesOnce }
    ensures refuses { NumbersAreRefused }
{}

/// Worked tables of a server that received a request, and of its client.
pub fn worked_servers()
    ensures lends { ServerLendsOnce }
    ensures dry { ClientFindsDryPool }
    ensures copies { ServerCopiesOnce }
    ensures connected { BothAreConnected }
{}
