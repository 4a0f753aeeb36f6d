//! Parties that a machine can play.
ghost use Rattle.std.specs.Prelude.{◌≡◌, ℕ, Bool, ◌<◌, ◌++◌, length, Option, Result, Ok, Err, IfErr, OnOk, OnErr, vec_len};
ghost use Rattle.std.specs.Option.{option_to_list};
ghost use Rattle.std.specs.Vec.{vec_capacity};
ghost use Rattle.iox_steps.specs.declared.access.Progress.{Progress};
ghost use Rattle.iox_steps.specs.declared.error.MachineError.{MachineError};
ghost use Rattle.iox_steps.specs.Accesses.{IsWithin, seen_at, words_after};
ghost use Rattle.iox_steps.specs.MachineStates.{MachineState};
ghost use Rattle.iox_steps.specs.MachineParties.{IsKept, IsKeptByBegins, StaysIn};

use crate::access::{Party, Progress};
use crate::error::MachineError;
use crate::machine::{perform, tell};

/// Parties that share words, by an invariant that holds wherever each party is in its call.
pub trait MachineParty: Party + Drop {
    /// what it can be asked to do
    type Call: Copy;

    /// what one of its accesses does or sees
    type Event: Copy;

    /// the invariant: what holds of words, parties and events, wherever the parties are in their
    /// calls
    ghost Invariant: { MachineState Self Self.Event → Type 0 };

    ghost at_rest: { Self → Bool };

    /// the event of the access, if there is one
    ghost happens: { Self → ℕ → Option Self.Event };

    /// the party once it began the call, or why it does not
    ghost begins: { Self → Self.Call → Result Self MachineError → Type 0 };

    /// Is no call under way?
    fn is_at_rest(&self) -> bool
        ensures { result ≡ at_rest self.now };

    /// What the access that found `seen` does or sees.
    fn event(&self, seen: u64) -> Option<Self::Event>
        ensures { result ≡ happens self.now seen };

    /// Begins the call, with no access.
    fn begin(&mut self, call: Self::Call) -> Result<(), MachineError>
        ensures begun { OnOk result (begins self.old call (Ok self.new)) }
        ensures refused { IfErr result (λ error. begins self.old call (Err error)) }
        ensures unchanged { OnErr result (self.new ≡ self.old) };

    /// Makes the next access, answers its event, and continues: `access`, `event` and `advance` in
    /// one.
    fn step(&mut self, words: &mut Vec<u64>, events: &mut Vec<Self::Event>) -> Progress<Self::Reply>
        requires within { IsWithin 0 (length words.old.items) (Self.asks self.old) }
        requires room { vec_len events.old < vec_capacity events.old }
        ensures words { words.new.items ≡ words_after (Self.asks self.old) words.old.items }
        ensures told { events.new.items ≡ events.old.items ++ option_to_list (happens self.old
            (seen_at (Self.asks self.old) words.old.items)) }
        ensures led { Self.leads self.old
            (seen_at (Self.asks self.old) words.old.items) result self.new }
    {
        let seen = perform(words, self.access());
        tell(events, self.event(seen));
        self.advance(seen)
    }

    ghost stays_in: { StaysIn Invariant Self.asks };

    ghost keeps: { IsKept Invariant Self.asks Self.leads happens at_rest };

    ghost starts: { IsKeptByBegins Invariant begins };
}
