//! The messages that a wire's events delivered, each with its word: where they wait, whom they came
//! to, and which were not got back.
use crate::expected::{equal, holds};
use iox_wire::{Event, Way, Wire};
use std::alloc::{AllocError, Global};
use std::process::Abort;

/// A message that was delivered and not got back.
#[derive(Clone, Copy)]
struct Entry {
    way: Way,
    serial: u64,
    word: u64,
    waits: bool,
}

/// All of them, oldest first, and which word came to which port.
#[derive(Drop)]
pub(super) struct Delivered {
    entries: Vec<Entry>,
    came: Vec<(u64, u64)>,
}

impl Delivered {
    /// Nothing was delivered yet.
    pub(super) fn new(alloc: Global) -> Delivered {
        Delivered {
            entries: Vec::new(alloc),
            came: Vec::new(alloc),
        }
    }

    /// The message of that serial on the way.
    fn place(&self, way: Way, serial: u64) -> Option<usize> {
        for (place, entry) in self.entries.iter().enumerate() {
            if entry.way == way && entry.serial == serial {
                return Some(place);
            }
        }
        None
    }

    /// The oldest that waits on the way.
    fn waiting(&self, way: Way) -> Option<usize> {
        for (place, entry) in self.entries.iter().enumerate() {
            if entry.way == way && entry.waits {
                return Some(place);
            }
        }
        None
    }

    /// The oldest that waits on the way, which no longer does.
    fn leaves(&mut self, way: Way) -> Option<Entry> {
        let place = self.waiting(way)?;
        let entry = self.entries.get_mut(place)?;
        entry.waits = false;
        Some(*entry)
    }

    /// Whether that word came to that port.
    fn has_come(&self, receiver: u64, word: u64) -> bool {
        for came in &self.came {
            if came.0 == receiver && came.1 == word {
                return true;
            }
        }
        false
    }

    /// The oldest message on the way is taken; its word came to that port for the first time.
    fn takes(&mut self, rt: &impl Abort, way: Way, serial: u64) -> Result<Option<u64>, AllocError> {
        let Some(entry) = self.leaves(way) else {
            holds(rt, false);
            return Ok(None);
        };
        equal(rt, entry.serial, serial);
        holds(rt, !self.has_come(way.receiver, entry.word));
        self.came.push((way.receiver, entry.word))?;
        Ok(Some(entry.word))
    }

    /// A message is delivered for the first time.
    fn delivers(
        &mut self,
        rt: &impl Abort,
        way: Way,
        serial: u64,
        word: u64,
    ) -> Result<(), AllocError> {
        holds(rt, self.place(way, serial).is_none());
        let waits = true;
        self.entries.push(Entry {
            way,
            serial,
            word,
            waits,
        })?;
        Ok(())
    }

    /// A message that was taken or pushed out is got back.
    fn comes_back(&mut self, rt: &impl Abort, way: Way, serial: u64) {
        match self.place(way, serial) {
            Some(place) if place < self.entries.len() => {
                let entry = self.entries.remove(place);
                holds(rt, !entry.waits);
            }
            _ => holds(rt, false),
        }
    }

    /// Ends the test where that event may not come next. A message that is delivered has that word.
    /// Says which word was taken, if any.
    pub(super) fn goes_on(
        &mut self,
        rt: &impl Abort,
        event: Event,
        word: u64,
    ) -> Result<Option<u64>, AllocError> {
        match event {
            Event::Deliver { way, serial } => self.delivers(rt, way, serial, word)?,
            Event::Take { way, serial } => return self.takes(rt, way, serial),
            Event::Evict { way } => holds(rt, self.leaves(way).is_some()),
            Event::GetBack { way, serial } => self.comes_back(rt, way, serial),
            _ => {}
        }
        Ok(None)
    }

    /// How many are outstanding on the way.
    fn count(&self, way: Way) -> usize {
        let mut count: usize = 0;
        for entry in &self.entries {
            if entry.way == way {
                count = count.saturating_add(1);
            }
        }
        count
    }

    /// Ends the test where another number is outstanding between these ports.
    fn are_between(&self, rt: &impl Abort, wire: &Wire, sender: u64, receiver: u64, lanes: u64) {
        for lane in 0..lanes {
            let way = Way {
                sender,
                receiver,
                lane,
            };
            let count = wire.outstanding(sender, receiver, lane);
            equal(rt, (way, count), (way, self.count(way)));
        }
    }

    /// Ends the test where another number is outstanding at some port.
    pub(super) fn are_outstanding(&self, rt: &impl Abort, wire: &Wire, lanes: u64) {
        for sender in 0..4 {
            for receiver in 0..4 {
                self.are_between(rt, wire, sender, receiver, lanes);
            }
        }
    }

    /// Whether the word of that one stands in front of it, too: the message has several ways.
    fn is_again(&self, place: usize, word: u64) -> bool {
        for (other, entry) in self.entries.iter().enumerate() {
            if other < place && entry.word == word {
                return true;
            }
        }
        false
    }

    /// How many of the port's messages are outstanding, each counted once, but that with this word.
    pub(super) fn others(&self, port: u64, word: u64) -> usize {
        let mut count: usize = 0;
        for (place, entry) in self.entries.iter().enumerate() {
            let is_other = entry.way.sender == port && entry.word != word;
            if is_other && !self.is_again(place, entry.word) {
                count = count.saturating_add(1);
            }
        }
        count
    }
}
