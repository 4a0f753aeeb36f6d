//! Where each piece of a wire stands among the words that its nodes share.
//! The functions have nothing to do: each is there for its contract.
#![tactic(auto)]

ghost use Rattle.iox_word_map.specs.Laws.{PiecesAreApart, PiecesAreSized, PiecesAreWithin};
ghost use Rattle.iox_word_map.specs.Laws.{LanesAreComputed, RegionsAreComputed};
ghost use Rattle.iox_word_map.specs.Laws.{AllOnesTake165, RequestQueuesAreComputed, TotalIsComputed};
ghost use Rattle.iox_word_map.specs.MessageLaws.{PartsAreApart, PartsAreInWords, PlacesTellTheWord};
ghost use Rattle.iox_word_map.specs.MessageLaws.{PartsAreComputed, SlotsMatter, WordsAreInTheirSlot};

mod message_part;

pub use message_part::MessagePart;

/// No two pieces of a wire have a word in common, and all stand within its words, each of its size.
pub fn pieces_are_apart()
    ensures apart { PiecesAreApart }
    ensures within { PiecesAreWithin }
    ensures sized { PiecesAreSized }
{}

/// Each place is a sum of products of sizes, which code can compute.
pub fn places_are_computed()
    ensures regions { RegionsAreComputed }
    ensures requests { RequestQueuesAreComputed }
    ensures lanes { LanesAreComputed }
    ensures total { TotalIsComputed }
    ensures all_ones { AllOnesTake165 }
{}

/// Each word of a message stands in its slot, and no other word of a message there.
pub fn messages_keep_to_their_slots()
    ensures in_words { PartsAreInWords }
    ensures within { WordsAreInTheirSlot }
    ensures apart { PartsAreApart }
    ensures told { PlacesTellTheWord }
    ensures slots_matter { SlotsMatter }
    ensures computed { PartsAreComputed }
{}
