//! What a node of a wire finds in any reachable world, and what its next beat leads to.
//! The functions have nothing to do: each is there for its contract.
ghost use Rattle.iox_laws.specs.WeaveBeats.LiveWays.{OwnWaysAreLive, WaysToTheLivingAreCounted};
ghost use Rattle.iox_laws.specs.WeaveBeats.BeatLaws.{BeatsAreReachable, ReturnsFindRoom};
ghost use Rattle.iox_laws.specs.WeaveBeats.BeatLaws.{WhatIsGotBackIsRecorded, DeliveriesFindRoom};
ghost use Rattle.iox_laws.specs.WeaveBeats.BeatLaws.{RecordsHaveRoom, DeliveriesAreFresh};
ghost use Rattle.iox_laws.specs.WeaveBeats.BeatLaws.{UnsentIsNowhere, WhatIsOutIsKept};
ghost use Rattle.iox_laws.specs.WeaveBeats.GetBacks.{FewAreGotBack, GetBacksAreCounted};

/// Any beat leads to a reachable world, so that every law of such worlds holds of it.
pub fn beats_lead_to_reachable_worlds()
    ensures reachable { BeatsAreReachable }
{}

/// The ways between a living node and those that it did not forget are live.
pub fn own_ways_are_live()
    ensures live { OwnWaysAreLive }
{}

/// The sender counts what it delivers to a living node.
pub fn senders_count_the_living()
    ensures counted { WaysToTheLivingAreCounted }
{}

/// A queue for what is given back is not full where a message is given back.
pub fn returns_find_room()
    ensures room { ReturnsFindRoom }
{}

/// What is got back was delivered, and not got back since.
pub fn what_is_got_back_is_recorded()
    ensures recorded { WhatIsGotBackIsRecorded }
{}

/// A queue of messages is not full where a send delivers.
pub fn deliveries_find_room()
    ensures room { DeliveriesFindRoom }
{}

/// A sender's record of what is outstanding is not full where it delivers.
pub fn records_have_room()
    ensures room { RecordsHaveRoom }
{}

/// What is delivered on a way was not outstanding there.
pub fn deliveries_are_fresh()
    ensures fresh { DeliveriesAreFresh }
{}

/// A loan that was not delivered yet is outstanding nowhere.
pub fn unsent_loans_are_nowhere()
    ensures nowhere { UnsentIsNowhere }
{}

/// A port of a living node keeps each message that is out on a way to a node that it did not
/// forget.
pub fn what_is_out_is_kept()
    ensures kept { WhatIsOutIsKept }
{}

/// An emptying ends: on a live way a sender that delivers nothing there gets back at most what was
/// outstanding. The returning queue has room for that.
pub fn few_are_got_back()
    ensures counted { GetBacksAreCounted }
    ensures within { FewAreGotBack }
{}
