//! The ways that a receive still visits.
ghost use Rattle.std.specs.Prelude.{◌≡◌, ◌<◌, ◌≤◌, ◌∷◌, length};

use crate::source::Source;
use std::alloc::{AllocError, Global};
use std::marker::Model;

/// The ways that a receive still visits, in their order. Only `new` takes memory.
#[derive(Drop)]
pub struct Sources {
    sources: Vec<Source>,
    // how many were visited
    turn: usize,
    // for how many there is room
    room: usize,
}

impl Model for Sources {
    ghost use Rattle.std.specs.Prelude.{◌≤◌, drop, length, vec_capacity};
    ghost use Rattle.iox_wire_receives.specs.Receipts.{Visits};

    ghost Value = { Visits };

    ghost view = { λ s. record { left = drop s.turn s.sources.items; room = s.room } };

    ghost invariant = { λ s. (s.turn ≤ length s.sources.items)
        × (s.room ≤ vec_capacity s.sources) };
}

impl Sources {
    ghost use Rattle.std.specs.Prelude.{◌≡◌, ◌≤◌, ◌∷◌, [], IfOk, IfSome, None, length};

    /// None are left, and there is room for so many.
    pub fn new(alloc: Global, room: usize) -> Result<Sources, AllocError>
        ensures { IfOk result (λ sources. sources ≡ record { left = []; room = room }) }
    {
        Ok(Sources {
            sources: Vec::with_capacity(alloc, room)?,
            turn: 0,
            room,
        })
    }

    /// Those are left now.
    pub fn fill(&mut self, sources: &[Source])
        requires { length sources.now ≤ self.old.room }
        ensures filled { self.new.left ≡ sources.now }
        ensures room { self.new.room ≡ self.old.room }
    {
        self.sources.clear();
        self.turn = 0;
        if self.sources.extend_from_slice(sources).is_err() {
            unreachable!();
        }
    }

    /// Takes the next of them.
    #[inline(always)]
    pub fn next(&mut self) -> Option<Source>
        ensures taken { IfSome result (λ source. self.old.left ≡ source ∷ self.new.left) }
        ensures none { result ≡ None → self.old.left ≡ [] }
        ensures stays { result ≡ None → self.new.left ≡ [] }
        ensures room { self.new.room ≡ self.old.room }
    {
        if self.turn == self.sources.len() {
            return None;
        }
        let source = self.sources[self.turn];
        self.turn += 1;
        Some(source)
    }
}
