//! Begins, steps and deaths of nodes, one after another.
ghost use Rattle.std.specs.Bool.{OnFalse, OnTrue};
ghost use Rattle.std.specs.Prelude.{◌≡◌, ◌+◌, ◌≤◌, ℕ, IfErr, IfOk, None, OnErr, OnOk, Some};
ghost use Rattle.std.specs.Prelude.{length, take};
ghost use Rattle.iox_wire_weaves.specs.Steps.{step_refusal};
ghost use Rattle.iox_wire_weaves.specs.Wires.{machine_refusal, refusal_in};
ghost use Rattle.iox_wire_weaves.specs.declared.refusal.WireRefusal.TheVariants.{WantOfMemory};
ghost use Rattle.iox_wire.specs.Schedules.{IsAsked, IsDeclaredDead, IsEntered, IsStepped};
ghost use Rattle.iox_wire.specs.Schedules.{EntriesArePlayed, IsStopped, IsWovenBy, WantsMemory};

use crate::entry::WireEntry;
use crate::wire::Wire;
use iox_wire_weaves::{NodeCall, WireRefusal};

/// Whether the machine has that refusal.
fn is_named(error: WireRefusal) -> bool
    ensures named { OnTrue result (machine_refusal error ≡ Some (refusal_in error)) }
    ensures left { OnFalse result (machine_refusal error ≡ None) }
    ensures memory { OnFalse result (error ≡ WantOfMemory) }
{
    match error {
        WireRefusal::WantOfMemory => false,
        WireRefusal::UnknownNode => true,
        WireRefusal::NodeIsDead => true,
        WireRefusal::Busy => true,
        WireRefusal::UnknownNumber => true,
        WireRefusal::ForeignNumber => true,
        WireRefusal::WrongKind => true,
        WireRefusal::AtRest => true,
        WireRefusal::AccessesSpent => true,
    }
}

/// Want of memory, where something else is told than what the machine refuses.
fn want_of<T: Copy>(told: Result<T, WireRefusal>) -> Result<(), WireRefusal>
    ensures named { OnOk result
        (IfErr told (λ error. machine_refusal error ≡ Some (refusal_in error))) }
    ensures done { OnErr result (IfOk told (λ done. ⊥)) }
    ensures want { OnErr result (IfErr told (λ error. machine_refusal error ≡ None)) }
    ensures memory { OnErr result (IfErr told (λ error. error ≡ WantOfMemory)) }
    ensures refused { IfErr result (λ error. error ≡ WantOfMemory) }
{
    match told {
        Err(error) => {
            if is_named(error) {
                return Ok(());
            }
            Err(WireRefusal::WantOfMemory)
        }
        Ok(_) => Ok(()),
    }
}

impl Wire {
    /// The node begins the call. If the machine refuses it nothing changes.
    fn ask(&mut self, node: u64, call: NodeCall<'_>)
        ensures asked { IsAsked self.old node call.entry self.new }
        ensures room { self.new.room ≡ self.old.room }
    {
        let _told = self.begin(node, call);
    }

    /// The node makes a step. If that is refused nothing changes; want of memory is told.
    fn go(&mut self, node: u64) -> Result<(), WireRefusal>
        ensures stepped { OnOk result (IsStepped self.old node self.new) }
        ensures allowed { OnErr result (step_refusal self.old node ≡ None) }
        ensures unchanged { OnErr result (self.new ≡ self.old) }
        ensures refused { IfErr result (λ error. error ≡ WantOfMemory) }
        ensures full { OnErr result (self.old.room ≡ 0) }
        ensures room { self.old.room ≤ self.new.room + 1 }
    {
        let told = self.step(node);
        want_of(told)
    }

    /// The node dies, or nothing changes.
    fn lose(&mut self, node: u64)
        ensures lost { IsDeclaredDead self.old node self.new }
        ensures room { self.new.room ≡ self.old.room }
    {
        let _told = self.declare_dead(node);
    }

    /// Plays an entry. If it is refused it changes nothing; want of memory is told.
    fn play(&mut self, entry: WireEntry<'_>) -> Result<(), WireRefusal>
        ensures played { OnOk result (IsEntered self.old entry.entry self.new) }
        ensures wants { OnErr result (WantsMemory self.old entry.entry self.new) }
        ensures refused { IfErr result (λ error. error ≡ WantOfMemory) }
        ensures room { self.old.room ≤ self.new.room + 1 }
    {
        match entry {
            WireEntry::Begin(node, call) => {
                self.ask(node, call);
                Ok(())
            }
            WireEntry::Step(node) => self.go(node),
            WireEntry::Die(node) => {
                self.lose(node);
                Ok(())
            }
        }
    }

    /// Plays a schedule to its end, or to the step that finds no memory. Entries that are refused
    /// change nothing. No step finds none for which there was room before.
    pub fn run(&mut self, schedule: &[WireEntry<'_>]) -> Result<(), WireRefusal>
        ensures weave { (count : ℕ) × IsWovenBy self.old (take count schedule.now) self.new }
        ensures whole { OnOk result (EntriesArePlayed self.old schedule.now self.new) }
        ensures stopped { OnErr result (IsStopped self.old schedule.now self.new) }
        ensures room { self.old.room ≤ self.new.room + length schedule.now }
        ensures refused { IfErr result (λ error. error ≡ WantOfMemory) }
    {
        for entry in schedule {
            self.play(*entry)?;
        }
        Ok(())
    }
}
