//! What holds of all calls of a wire together, whatever comes between their moments.
//! The functions have nothing to do: each is there for its contract.
ghost use Rattle.iox_laws.specs.WeaveLedger.OnceLaws.{DeliveredOnce, ReceivedOnce};
ghost use Rattle.iox_laws.specs.WeaveLedger.ForgetLaws.{NothingToTheDead};
ghost use Rattle.iox_laws.specs.WeaveLedger.BorrowLaws.{BorrowLimitHolds};
ghost use Rattle.iox_laws.specs.WeaveLedger.QueueLaws.{BufferHolds, OneInHand};
ghost use Rattle.iox_laws.specs.WeaveLedger.LedgerLaws.{LedgerStaysWithin, ReturnsFit};
ghost use Rattle.iox_laws.specs.WeaveLedger.LedgerLaws.{SendersEmpty, CallsEmptiedLast, EmptiedStaysWithin};
ghost use Rattle.iox_laws.specs.WeaveLedger.LedgerLaws.{OutOnce, OutstandingIsCounted, RecordIsWhatIsOut};

/// On each way no message is delivered twice, and none is received twice.
pub fn messages_come_at_most_once()
    ensures delivered { DeliveredOnce }
    ensures received { ReceivedOnce }
{}

/// Once a node forgot a dead one, none of its messages is outstanding to that one.
pub fn nothing_is_outstanding_to_the_dead()
    ensures { NothingToTheDead }
{}

/// On each way at most the buffer waits, and one more that the send may still evict. What it
/// evicted is one message, which is in hand until the send gets it back.
pub fn queues_hold_their_buffer()
    ensures waiting { BufferHolds }
    ensures in_hand { OneInHand }
{}

/// Of each way a receiver has at most as many messages as it may borrow.
pub fn receivers_keep_the_borrow_limit()
    ensures { BorrowLimitHolds }
{}

/// The outstanding messages of a live way are exactly those that wait, that the receiver has, that
/// it gave back and that the sender has in hand, each once.
pub fn record_is_what_is_out()
    ensures once { OutOnce }
    ensures record { RecordIsWhatIsOut }
    ensures counted { OutstandingIsCounted }
{}

/// On a live way no more are outstanding than the buffer and the borrow limit together, and one
/// more unless the sender's call under way emptied it. From an emptying, which only the sender
/// makes, to the next delivery that one more is not there. So a returning queue for so many is
/// never full.
pub fn ledger_stays_within()
    ensures out { LedgerStaysWithin }
    ensures by_sender { SendersEmpty }
    ensures by_call { CallsEmptiedLast }
    ensures emptied { EmptiedStaysWithin }
    ensures returns { ReturnsFit }
{}
