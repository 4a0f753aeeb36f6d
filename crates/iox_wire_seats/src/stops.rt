//! The ways that a call still visits.
ghost use Rattle.std.specs.Prelude.{◌≡◌, ◌<◌, ◌≤◌, ◌∷◌, length};

use iox_model::way::Way;
use std::alloc::{AllocError, Global};
use std::marker::Model;

/// A way that a call visits, and the first of the words there that it accesses.
#[derive(Clone, Copy, Debug)]
pub struct Stop {
    /// The way that is visited.
    pub way: Way,
    /// The place of the first of its words.
    pub place: usize,
}

/// The ways that a call still visits, in their order. Only `new` takes memory.
#[derive(Drop)]
pub struct Stops {
    stops: Vec<Stop>,
    // how many were visited
    turn: usize,
    // for how many there is room
    room: usize,
}

impl Model for Stops {
    ghost use Rattle.std.specs.Prelude.{◌≤◌, drop, length, vec_capacity};
    ghost use Rattle.iox_wire_seats.specs.Seats.{Visits};

    ghost Value = { Visits };

    ghost view = { λ s. record { left = drop s.turn s.stops.items; room = s.room } };

    ghost invariant = { λ s. (s.turn ≤ length s.stops.items) × (s.room ≤ vec_capacity s.stops) };
}

impl Stops {
    ghost use Rattle.std.specs.Prelude.{◌≡◌, ◌≤◌, ◌∷◌, [], IfOk, IfSome, None, length};

    /// None are left, and there is room for so many.
    pub fn new(alloc: Global, room: usize) -> Result<Stops, AllocError>
        ensures { IfOk result (λ stops. stops ≡ record { left = []; room = room }) }
    {
        Ok(Stops {
            stops: Vec::with_capacity(alloc, room)?,
            turn: 0,
            room,
        })
    }

    /// Those are left now.
    pub fn fill(&mut self, stops: &[Stop])
        requires { length stops.now ≤ self.old.room }
        ensures { self.new ≡ record (self.old) { left = stops.now } }
    {
        self.stops.clear();
        self.turn = 0;
        if self.stops.extend_from_slice(stops).is_err() {
            unreachable!();
        }
    }

    /// Takes the next of them.
    #[inline(always)]
    pub fn next(&mut self) -> Option<Stop>
        ensures taken { IfSome result (λ stop. self.old.left ≡ stop ∷ self.new.left) }
        ensures none { result ≡ None → self.old.left ≡ [] }
        ensures stays { result ≡ None → self.new.left ≡ [] }
        ensures room { self.new.room ≡ self.old.room }
    {
        if self.turn == self.stops.len() {
            return None;
        }
        let stop = self.stops[self.turn];
        self.turn += 1;
        Some(stop)
    }
}
