//! The call that a node of a wire has under way, from its begin to its end.
ghost use Rattle.std.specs.Prelude.{ℕ, ◌≡◌, ◌+◌, ◌<◌, ◌≤◌, ◌++◌, [], IfSome, None, Some, length};
ghost use Rattle.std.specs.Prelude.{option_map, take, vec_capacity};
ghost use Rattle.std.specs.Option.{option_to_list};
ghost use Rattle.iox_model.specs.Schedules.{finish};
ghost use Rattle.iox_wire_weaves.specs.Nodes.{reply_in};
ghost use Rattle.iox_wire_weaves.specs.Replies.{call_within};
ghost use Rattle.iox_wire_weaves.specs.Seats.{reply_with};
ghost use Rattle.iox_wire_weaves.specs.Steps.{finished_by, read_after};
ghost use Rattle.iox_wire_weaves.specs.NodeReply.TheVariants.{OfSeat};
ghost use Rattle.iox_wire.specs.Replies.{HasWordsIfRead, IsReadWithin, ended_of, under_way_of};
ghost use Rattle.iox_wire.specs.Replies.{words_brought, words_call};

use super::{BegunCall, Member};
use crate::finished::{CallUnderWay, EndedCall, Replies};
use crate::spans::{first_of, write_behind};
use crate::stored_call::{StoredCall, words_of};
use crate::told::call_told;
use iox_wire_weaves::{NodeCall, NodeReply, SeatReply};

/// The words that a reply of a handle has, where so many were loaded.
fn words_of_seat(reply: SeatReply, words: &[u64]) -> &[u64]
    ensures told { reply_with result.now reply ≡ reply_with words.now reply }
    ensures few { (most : ℕ) → IsReadWithin most (OfSeat reply) words.now
        → length result.now ≤ most }
    ensures read { HasWordsIfRead (OfSeat reply) result.now }
{
    match reply {
        SeatReply::Words => words,
        SeatReply::Done => &words[..0],
        SeatReply::Answer(_) => &words[..0],
        SeatReply::Refused(_) => &words[..0],
    }
}

/// The words that a reply has, where so many were loaded.
fn words_told(reply: NodeReply, words: &[u64]) -> &[u64]
    ensures told { reply_in result.now reply ≡ reply_in words.now reply }
    ensures few { (most : ℕ) → IsReadWithin most reply words.now → length result.now ≤ most }
    ensures read { HasWordsIfRead reply result.now }
{
    match reply {
        NodeReply::OfSeat(reply) => words_of_seat(reply, words),
        NodeReply::OfReceive(_) => &words[..0],
        NodeReply::OfLoan(_) => &words[..0],
        NodeReply::OfRequest(_) => &words[..0],
        NodeReply::OfResponse(_) => &words[..0],
        NodeReply::OfRequestCopy(_) => &words[..0],
        NodeReply::OfResponseCopy(_) => &words[..0],
    }
}

/// Puts words in place of the others, as far as there is room for them.
fn put(list: &mut Vec<u64>, words: &[u64], most: usize)
    requires { most ≤ vec_capacity list.old }
    ensures items { list.new.items ≡ take most words.now }
    ensures capacity { vec_capacity list.new ≡ vec_capacity list.old }
{
    list.clear();
    let _there = write_behind(list, first_of(words, most));
}

impl Member {
    /// The call is under way from now on, after so many events.
    pub(crate) fn keep(&mut self, call: NodeCall<'_>, begun: usize)
        ensures { self.new ≡ record (self.old) {
          call = Some (record {
            call = call_within self.old.longest (words_call call.entry);
            begun = begun;
          });
        } }
    {
        let call = call_told(call);
        put(&mut self.words, words_of(call), self.longest);
        self.call = Some(BegunCall {
            call: StoredCall::of(call),
            begun,
        });
    }

    /// The call that it has under way, or had as it died.
    pub(crate) fn under_way(&self) -> Option<CallUnderWay<'_>>
        ensures { option_map under_way_of result ≡ self.now.call }
    {
        let Some(begun) = self.call else {
            return None;
        };
        Some(CallUnderWay {
            call: begun.call.with_words(&self.words),
            begun: begun.begun,
        })
    }

    /// The call that it has under way, as it is over with that reply after so many events.
    fn finished(&self, reply: NodeReply, ended: usize) -> Option<EndedCall<'_>>
        requires within { IsReadWithin self.now.longest reply self.now.node.seat.words }
        ensures told { option_to_list (option_map ended_of result)
            ≡ finish self.now.call self.now.number (reply_in self.now.node.seat.words reply)
            ended [] }
        ensures brought { IfSome result (λ f. length (words_brought f.call) ≤ self.now.longest) }
        ensures words { IfSome result (λ f. length f.words.now ≤ self.now.longest) }
        ensures read { IfSome result (λ f. HasWordsIfRead f.reply f.words.now) }
    {
        let Some(begun) = self.call else {
            return None;
        };
        Some(EndedCall {
            node: self.number,
            call: begun.call.with_words(&self.words),
            reply,
            words: words_told(reply, self.node.words()),
            begun: begun.begun,
            ended,
        })
    }

    /// Its call is over with that reply, after so many events: that is told, with all words of a
    /// read, which stay. There is room for it.
    #[inline]
    pub(crate) fn tell(&mut self, reply: NodeReply, ended: usize, replies: &mut Replies)
        requires within { IsReadWithin self.old.longest reply self.old.node.seat.words }
        requires room { 0 < replies.old.room }
        requires words { self.old.longest ≤ replies.old.longest }
        ensures told { replies.new.finished ≡ replies.old.finished ++ finished_by self.old.number
            self.old self.old.node.seat.words ended (Some reply) }
        ensures over { self.new ≡ record (self.old) {
          call = None;
          read = read_after self.old.read self.old.node.seat.words (Some reply);
        } }
        ensures longest { replies.new.longest ≡ replies.old.longest }
        ensures room { replies.old.room ≤ replies.new.room + 1 }
    {
        if let Some(call) = self.finished(reply, ended) {
            replies.tell(call);
        }
        self.call = None;
        if matches!(reply, NodeReply::OfSeat(SeatReply::Words)) {
            put(&mut self.read, self.node.words(), self.longest);
        }
    }
}
