//! The finished calls of a wire.
use crate::spans::{Span, words_there, write_behind};
use crate::stored_call::{StoredCall, words_of};
use crate::told::{ToldCall, ToldReply, reply_told};
use iox_wire_weaves::NodeReply;
use std::alloc::{AllocError, Global};
use std::marker::Model;

/// A finished call of a node.
#[derive(Clone, Copy)]
pub struct FinishedCall<'a> {
    /// The number of the node.
    pub node: u64,
    /// With the first of its words, if they are more than the longest message of the wire has.
    pub call: ToldCall<'a>,
    /// What it was answered.
    pub reply: ToldReply<'a>,
    /// How many events came before its begin.
    pub begun: usize,
    /// How many events came before its end.
    pub ended: usize,
}

/// A call of a node as it ends, with what its node answers, and the words that a read loaded.
#[derive(Clone, Copy)]
pub(crate) struct EndedCall<'a> {
    /// The number of the node.
    pub node: u64,
    /// What it was asked.
    pub call: ToldCall<'a>,
    /// What it answers.
    pub reply: NodeReply,
    /// The words that a read loaded.
    pub words: &'a [u64],
    /// How many events came before its begin.
    pub begun: usize,
    /// How many events came before its end.
    pub ended: usize,
}

/// A call that a node has under way.
#[derive(Clone, Copy, Debug)]
pub struct CallUnderWay<'a> {
    /// With the first of its words, if they are more than the longest message of the wire has.
    pub call: ToldCall<'a>,
    /// How many events came before its begin.
    pub begun: usize,
}

/// A finished call, and where its words stand.
#[derive(Clone, Copy)]
pub(crate) struct Answer {
    node: u64,
    call: StoredCall,
    brought: Span,
    reply: NodeReply,
    read: Span,
    begun: usize,
    ended: usize,
}

/// Finished calls in the order of their ends.
#[derive(Drop)]
pub struct Replies {
    answers: Vec<Answer>,
    // the words of all of them
    words: Vec<u64>,
    // the most words that one brings, or reads
    longest: usize,
    // how many more find room
    room: usize,
}

impl Model for Replies {
    ghost use Rattle.std.specs.Prelude.{map, vec_capacity, vec_len};
    ghost use Rattle.std.specs.List.{All};
    ghost use Rattle.iox_wire.specs.Replies.{FinishedCalls, HasItsWords, HasRoomLeft, told_with};

    ghost Value = { FinishedCalls };

    ghost view = { λ r. record {
      finished = map (told_with r.words.items) r.answers.items;
      longest = r.longest;
      room = r.room;
    } };

    ghost invariant = { λ r. All (HasItsWords r.words.items) r.answers.items
        × HasRoomLeft r.room r.longest (vec_len r.answers) (vec_capacity r.answers)
        (vec_len r.words) (vec_capacity r.words) };
}

impl Replies {
    ghost use Rattle.std.specs.Prelude.{◌≡◌, ◌-◌, ◌<◌, ◌≤◌, ◌++◌, ◌∷◌, ◌==◌, [], OnErr};
    ghost use Rattle.std.specs.Prelude.{OnOk, length, max, option_map, slice_get};
    ghost use Rattle.iox_wire.specs.Replies.{HasWordsIfRead, ended_of, finished_of};
    ghost use Rattle.iox_wire.specs.Replies.{words_brought};

    /// No finished calls, and room for none. Of each no more words are told than so many that it
    /// brings, and so many that it reads.
    pub(crate) fn new(alloc: Global, longest: usize) -> Replies
        ensures { result ≡ record { finished = []; longest = longest; room = 0 } }
    {
        Replies {
            answers: Vec::new(alloc),
            words: Vec::new(alloc),
            longest,
            room: 0,
        }
    }

    /// Makes room for so many more.
    pub(crate) fn reserve(&mut self, calls: usize) -> Result<(), AllocError>
        ensures reserved { OnOk result (self.new
            ≡ record (self.old) { room = max self.old.room calls }) }
        ensures unchanged { OnErr result (self.new ≡ self.old) }
    {
        if calls <= self.room {
            return Ok(());
        }
        let Some(each) = self.longest.checked_add(self.longest) else {
            return Err(AllocError);
        };
        let Some(words) = calls.checked_mul(each) else {
            return Err(AllocError);
        };
        self.answers.reserve(calls)?;
        self.words.reserve(words)?;
        self.room = calls;
        Ok(())
    }

    /// Writes a finished call behind the others; there is room for it.
    pub(crate) fn tell(&mut self, call: EndedCall<'_>)
        requires room { 0 < self.old.room }
        requires brought { length (words_brought call.call) ≤ self.old.longest }
        requires words { length call.words.now ≤ self.old.longest }
        requires read { HasWordsIfRead call.reply call.words.now }
        ensures { self.new ≡ record (self.old) {
          finished = self.old.finished ++ ended_of call.entry ∷ [];
          room = self.old.room - 1;
        } }
    {
        self.room -= 1;
        let brought = write_behind(&mut self.words, words_of(call.call));
        let read = write_behind(&mut self.words, call.words);
        self.answers.push_reserved(Answer {
            node: call.node,
            call: StoredCall::of(call.call),
            brought,
            reply: call.reply,
            read,
            begun: call.begun,
            ended: call.ended,
        });
    }

    /// How many calls are finished.
    pub fn len(&self) -> usize
        ensures { result ≡ length self.now.finished }
    {
        self.answers.len()
    }

    /// Whether none is.
    pub fn is_empty(&self) -> bool
        ensures { result ≡ (length self.now.finished == 0) }
    {
        self.answers.is_empty()
    }

    /// The finished call at that place.
    pub fn get(&self, place: usize) -> Option<FinishedCall<'_>>
        ensures { option_map finished_of result ≡ slice_get self.now.finished place }
    {
        let answer = self.answers.get(place)?;
        let brought = words_there(&self.words, answer.brought);
        let read = words_there(&self.words, answer.read);
        Some(FinishedCall {
            node: answer.node,
            call: answer.call.with_words(brought),
            reply: reply_told(answer.reply, read),
            begun: answer.begun,
            ended: answer.ended,
        })
    }
}
