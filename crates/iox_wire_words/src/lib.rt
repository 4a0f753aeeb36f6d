//! The words of a wire while each node runs a program on them: after each access they fit again.
//! The functions have nothing to do: each is there for its contract.
#![tactic(auto)]

ghost use Rattle.iox_wire_words.specs.BeginLaws.{BeginsKeepTheWords, EmptyQueuesFit};
ghost use Rattle.iox_wire_words.specs.Laws.{EachAccessKeepsTheList, EachAccessKeepsTheWords};

/// Each access of a node is within the wire's words, finds what they hold, and leaves words that
/// fit. This is said of words by their places, and of a list.
pub fn each_access_keeps_the_words()
    ensures places { EachAccessKeepsTheWords }
    ensures list { EachAccessKeepsTheList }
{}

/// A program that begins changes no word.
pub fn begins_keep_the_words()
    ensures { BeginsKeepTheWords }
{}

/// The words of a wire with empty queues fit.
pub fn empty_queues_fit()
    ensures { EmptyQueuesFit }
{}
