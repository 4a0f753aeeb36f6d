//! The servers to which a request goes, which a send visits in several rounds.
ghost use Rattle.std.specs.Prelude.{◌≡◌, ◌≤◌, ◌∷◌, length};
ghost use Rattle.iox_model.specs.Maps.{has_number};

use crate::target::Target;
use std::alloc::{AllocError, Global};
use std::marker::Model;

/// The servers to which a request goes, in their order, and those left in a round. Only `new` takes
/// memory.
#[derive(Drop)]
pub struct Targets {
    targets: Vec<Target>,
    // how many were visited in this round
    turn: usize,
    // for how many there is room
    room: usize,
}

impl Model for Targets {
    ghost use Rattle.std.specs.Prelude.{◌≤◌, drop, length, vec_capacity};
    ghost use Rattle.iox_wire_request_sends.specs.Targets.{Round};

    ghost Value = { Round };

    ghost view = { λ t. record {
      all = t.targets.items;
      left = drop t.turn t.targets.items;
      room = t.room;
    } };

    ghost invariant = { λ t. (t.turn ≤ length t.targets.items)
        × (t.room ≤ vec_capacity t.targets) };
}

impl Targets {
    ghost use Rattle.std.specs.Prelude.{◌≡◌, ◌≤◌, ◌<◌, ◌∷◌, [], IfOk, IfSome, None, length};
    ghost use Rattle.iox_wire_locals.specs.Tables.{Setting};
    ghost use Rattle.iox_wire_locals.specs.declared.table.Entry.{Entry};
    ghost use Rattle.iox_wire_request_sends.specs.declared.target.RequestTerms.{RequestTerms};
    ghost use Rattle.iox_wire_request_sends.specs.Targets.{AreTargets, AreWithin, IsTarget};
    ghost use Rattle.iox_wire_request_sends.specs.Targets.{IsWithin, Round, with_room};

    /// There are none, and there is room for so many.
    pub fn new(alloc: Global, room: usize) -> Result<Targets, AllocError>
        ensures { IfOk result (λ t. t ≡ record { all = []; left = []; room = room }) }
    {
        Ok(Targets {
            targets: Vec::with_capacity(alloc, room)?,
            turn: 0,
            room,
        })
    }

    /// Those are the servers now, and all are left.
    pub fn fill(&mut self, targets: &[Target])
        requires { length targets.now ≤ self.old.room }
        ensures { self.new ≡ record (self.old) { all = targets.now; left = targets.now } }
    {
        self.targets.clear();
        self.turn = 0;
        if self.targets.extend_from_slice(targets).is_err() {
            unreachable!();
        }
    }

    /// All are left again.
    #[inline(always)]
    pub fn restart(&mut self)
        ensures { self.new ≡ record (self.old) { left = self.old.all } }
    {
        self.turn = 0;
    }

    /// Takes the next of those left.
    #[inline(always)]
    pub fn next(&mut self) -> Option<Target>
        ensures all { self.new.all ≡ self.old.all }
        ensures room { self.new.room ≡ self.old.room }
        ensures taken { IfSome result (λ target. self.old.left ≡ target ∷ self.new.left) }
        ensures none { result ≡ None → self.old.left ≡ [] }
        ensures stays { result ≡ None → self.new.left ≡ [] }
    {
        if self.turn == self.targets.len() {
            return None;
        }
        let target = self.targets[self.turn];
        self.turn += 1;
        Some(target)
    }

    /// Takes the next of those left that is not among the full ones.
    #[inline(always)]
    pub fn next_with_room(&mut self, full: &[u64]) -> Option<Target>
        ensures all { self.new.all ≡ self.old.all }
        ensures room { self.new.room ≡ self.old.room }
        ensures taken { IfSome result (λ target. with_room full.now self.old.left
            ≡ target ∷ with_room full.now self.new.left) }
        ensures none { result ≡ None → with_room full.now self.old.left ≡ [] }
        ensures fewer { IfSome result (λ target. length self.new.left < length self.old.left) }
        ensures shorter { length self.new.left ≤ length self.old.left }
        ensures rest_within { (t : RequestTerms) → AreWithin t self.old.left
            → AreWithin t self.new.left }
        ensures within { (t : RequestTerms) → AreWithin t self.old.left
            → IfSome result (IsWithin t) }
        ensures rest { (p : Setting) → (t : RequestTerms) → (loan : Entry)
            → AreTargets p t loan self.old.left → AreTargets p t loan self.new.left }
        ensures there { (p : Setting) → (t : RequestTerms) → (loan : Entry)
            → AreTargets p t loan self.old.left → IfSome result (IsTarget p t loan) }
    {
        while let Some(target) = self.next() {
            if !is_full(full, target.server) {
                return Some(target);
            }
        }
        None
    }
}

/// Whether a server was seen full.
#[inline(always)]
fn is_full(full: &[u64], server: u64) -> bool
    ensures { result ≡ has_number server full.now }
{
    full.contains(&server)
}
