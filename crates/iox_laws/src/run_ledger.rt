//! What holds of all messages of a service and its hub together, over all their calls.
//! The functions have nothing to do: each is there for its contract.
ghost use Rattle.iox_laws.specs.RunLedger.LedgerRests.{LedgerRestsWithin, NothingRestsInHand};
ghost use Rattle.iox_laws.specs.RunLedger.LedgerRests.{OutRestsOnce, OutstandingRestsCounted};
ghost use Rattle.iox_laws.specs.RunLedger.LedgerRests.{RecordRestsAsOut};
ghost use Rattle.iox_laws.specs.RunLedger.LedgerStays.{LedgerStaysBelow, OutStaysOnce};
ghost use Rattle.iox_laws.specs.RunLedger.LedgerStays.{OutstandingStaysCounted, RecordStaysAsOut};
ghost use Rattle.iox_laws.specs.RunLedger.OnceOverRuns.{DeliveredOnceOverRuns, ReceivedOnceOverRuns};

/// Between calls, the outstanding messages of a live way are exactly those that wait, that the
/// receiver has and that it gave back, each once. Nothing is in hand.
pub fn record_is_what_is_out()
    ensures in_hand { NothingRestsInHand }
    ensures once { OutRestsOnce }
    ensures record { RecordRestsAsOut }
    ensures counted { OutstandingRestsCounted }
{}

/// Between calls no more are outstanding on a live way than the buffer and the borrow limit
/// together.
pub fn ledger_rests_within()
    ensures { LedgerRestsWithin }
{}

/// The same holds during a call, after any of its moments.
pub fn record_stays_what_is_out()
    ensures once { OutStaysOnce }
    ensures record { RecordStaysAsOut }
    ensures counted { OutstandingStaysCounted }
{}

/// During a call no more are outstanding on a live way than the buffer, the borrow limit and one
/// more that is to be evicted.
pub fn ledger_stays_below()
    ensures { LedgerStaysBelow }
{}

/// Over each history of a service and its hub no message is delivered twice on a way, and none is
/// received twice.
pub fn messages_come_at_most_once()
    ensures delivered { DeliveredOnceOverRuns }
    ensures received { ReceivedOnceOverRuns }
{}
