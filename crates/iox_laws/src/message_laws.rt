//! What is read at a receiver is what was sent to it: the whole message, not only its serial.
//! The functions have nothing to do: each is there for its contract.
ghost use Rattle.iox_laws.specs.MessageLaws.Holdings.{HadAsDelivered, HadAsDeliveredOnWires};
ghost use Rattle.iox_laws.specs.MessageLaws.OnWires.{CallDeliversWhatIsSent, EachWasSentOnWires};
ghost use Rattle.iox_laws.specs.MessageLaws.OnWires.{ReadOnWiresAsSent};
ghost use Rattle.iox_laws.specs.MessageLaws.Orders.{SerialsAreOfMessages, SerialsFollowMessages};
ghost use Rattle.iox_laws.specs.MessageLaws.Orders.{WholeInACall, WholeOnWires, WholeOverRuns};
ghost use Rattle.iox_laws.specs.MessageLaws.Origins.{EachWasSent, ReadAsSent};
ghost use Rattle.iox_laws.specs.MessageLaws.Readings.{ReadAsDelivered, ReadsItsMessage};
ghost use Rattle.iox_laws.specs.MessageLaws.Sendings.{DeliversWhatIsSent};
ghost use Rattle.iox_laws.specs.MessageLaws.WorkedReads.{ReadsTheFirst};

/// What was taken on a way was delivered there in that order, each message whole.
pub fn messages_come_whole()
    ensures runs { WholeOverRuns }
    ensures in_a_call { WholeInACall }
    ensures wires { WholeOnWires }
{}

/// The laws of serials in order follow.
pub fn serials_follow_messages()
    ensures images { SerialsAreOfMessages }
    ensures order { SerialsFollowMessages }
{}

/// What a receiver has was delivered on its way, and taken from there, the whole message.
pub fn received_is_delivered()
    ensures services { HadAsDelivered }
    ensures wires { HadAsDeliveredOnWires }
{}

/// Whatever a call delivers is the message of its send, as its loan has it when the call begins.
pub fn delivered_is_sent()
    ensures services { DeliversWhatIsSent }
    ensures wires { CallDeliversWhatIsSent }
{}

/// What is read at a receiver are the words of a message that was delivered to it.
pub fn messages_are_read_as_delivered()
    ensures words { ReadsItsMessage }
    ensures received { ReadAsDelivered }
{}

/// Each message that was delivered was sent, and what is read at a receiver are the words of a
/// message that was sent to it.
pub fn messages_are_read_as_sent()
    ensures origins { EachWasSent }
    ensures words { ReadAsSent }
    ensures origins_on_wires { EachWasSentOnWires }
    ensures words_on_wires { ReadOnWiresAsSent }
{}

/// A worked history, in which a server reads the request that was sent first.
pub fn worked_reads()
    ensures { ReadsTheFirst }
{}
