//! The machine of parties at a value of a type.
ghost use Rattle.std.specs.Prelude.{◌≡◌};

use super::typed_words::{answer_of, call_of, lay, value_of, value_words};
use super::value::{ValueCall, ValueEvent, ValueReply};
use super::{AtomicEvent, AtomicMachine};
use iox_steps::{Entry, MachineError, Progress};
use iox_words::Words;
use std::alloc::{AllocError, Global};
use std::marker::Model;

/// A value among shared words, and the parties that store and load it: only party 0 stores. `N` is
/// how many words a value has.
#[derive(Drop)]
pub struct ValueMachine<T: Words, const N: usize> {
    machine: AtomicMachine<N>,
    base: usize,
    // The value that is current at first.
    first: T,
}

impl<T: Words, const N: usize> Model for ValueMachine<T, N> {
    ghost use Rattle.iox_set_steps.specs.TypedValues.{ValueMachineState};
    ghost use Rattle.iox_set_steps.specs.TypedWords.{AreOfType, shown};

    ghost Value = { ValueMachineState T N };

    ghost view = { λ m. shown T.of_words m.first m.base m.machine };

    ghost invariant = { λ m. AreOfType T.WORDS T.is_words m.base m.machine };
}

impl<T: Words, const N: usize> ValueMachine<T, N> {
    ghost use Rattle.std.specs.Prelude.{◌≡◌, ℕ, ◌+◌, ◌^◌, ◌<◌, ◌≤◌, [], ◌∷◌, Err, IfErr, IfOk, OnErr, OnOk, length, slice_get, take};
    ghost use Rattle.iox_steps.specs.declared.error.MachineError.TheVariants.{UnknownParty, WantOfMemory};
    ghost use Rattle.iox_set_steps.specs.AtomicMachines.{IsAtomicStepRefused, new_atomics};
    ghost use Rattle.iox_set_steps.specs.TypedValues.{AllTypedEntered, BeginsValueCall, IsTypedBeginRefused, IsTypedEvent, LoadsCurrent, MayCallTyped, PlayValues};
    ghost use Rattle.iox_set_steps.specs.TypedValues.{IsTypedStepUnderWay, TypedBegun, TypedEntered, TypedRunsOn, TypedStepped, TypedStopsAtStep};
    ghost use Rattle.iox_set_steps.specs.AtomicEntries.{plays_after};
    ghost use Rattle.iox_set_steps.specs.TypedWords.{IsNewValue, laid_words};

    /// A machine of this many parties at a value, whose version stands at `base`, and behind it its
    /// two cells.
    pub fn new(
        alloc: Global,
        words: Vec<u64>,
        base: usize,
        value: T,
        parties: usize,
    ) -> Result<ValueMachine<T, N>, AllocError>
        requires sized { T.WORDS ≡ N }
        requires small { N < 2 ^ 56 }
        requires room { base + 1 + N + N ≤ length words.items }
        ensures made { IfOk result (IsNewValue T.words value base parties words.items) }
        ensures plays { IfOk result (λ machine. machine.plays
            ≡ new_atomics (laid_words base (T.words value) words.items) base parties) }
    {
        let mut words = words;
        lay(&mut words, base, value_words::<T, N>(value));
        let machine = AtomicMachine::new(alloc, words, base, parties)?;
        Ok(ValueMachine {
            machine,
            base,
            first: value,
        })
    }

    /// The shared words.
    pub fn words(&self) -> &[u64]
        ensures { result.now ≡ self.now.plays.words }
    {
        self.machine.words()
    }

    /// What happened so far, in order: the event of this number, if there were so many.
    pub fn event(&self, number: usize) -> Option<ValueEvent<T>>
        ensures { result ≡ slice_get self.now.events number }
    {
        match self.machine.events().get(number)? {
            AtomicEvent::Stored(list) => Some(ValueEvent::Stored(value_of(*list, self.first))),
            AtomicEvent::Loaded(list) => Some(ValueEvent::Loaded(value_of(*list, self.first))),
        }
    }

    /// The party begins the call, with no access. A store by another party than 0 is refused.
    pub fn begin(&mut self, party: usize, call: ValueCall<T>) -> Result<(), MachineError>
        ensures storer { OnOk result (MayCallTyped party call) }
        ensures others { (MayCallTyped party call → ⊥) → result ≡ Err UnknownParty }
        ensures begins { OnOk result
            (BeginsValueCall T.words T.is_value self.old party call self.new) }
        ensures begun { OnOk result (TypedBegun T.words self.old party call self.new) }
        ensures refused { IfErr result (IsTypedBeginRefused T.words self.old party call) }
        ensures unchanged { OnErr result (self.new ≡ self.old) }
        ensures value { self.new.value ≡ self.old.value }
        ensures events { self.new.events ≡ self.old.events }
    {
        self.machine.holds();
        self.machine.begin(party, call_of(call))
    }

    /// One access of the party's call.
    pub fn step(&mut self, party: usize) -> Result<Progress<ValueReply<T>>, MachineError>
        ensures event { IfOk result (λ answer.
            IsTypedEvent T.words T.is_value self.old party answer self.new) }
        ensures loaded { IfOk result (LoadsCurrent self.old) }
        ensures stepped { IfOk result (λ answer.
            TypedStepped T.words self.old party answer self.new) }
        ensures refused { IfErr result (IsAtomicStepRefused N self.old.plays party) }
        ensures unchanged { OnErr result (self.new ≡ self.old) }
    {
        self.machine.holds();
        let answer = self.machine.step(party)?;
        Ok(answer_of(answer, self.first))
    }

    /// Plays a schedule to its end, or to the step that finds no memory. Each load hands out the
    /// value that is current at its last access. A schedule played to its end has only one result.
    pub fn run(&mut self, schedule: &[Entry<ValueCall<T>>]) -> Result<(), MachineError>
        ensures value { TypedRunsOn self.old self.new }
        ensures happened { (count : ℕ)
            × PlayValues T.words T.is_value self.old (take count schedule.now) self.new }
        ensures all_events { OnOk result
            (PlayValues T.words T.is_value self.old schedule.now self.new) }
        ensures played { (count : ℕ)
            × AllTypedEntered T.words self.old (take count schedule.now) self.new }
        ensures whole { OnOk result (AllTypedEntered T.words self.old schedule.now self.new) }
        ensures stopped { OnErr result (TypedStopsAtStep T.words self.old schedule.now self.new) }
        ensures after { OnOk result (self.new.plays ≡ plays_after T.words self.old schedule.now) }
        ensures refused { IfErr result (λ error. error ≡ WantOfMemory) }
    {
        for entry in schedule {
            self.enter(*entry)?;
        }
        Ok(())
    }

    /// One entry of a schedule.
    fn enter(&mut self, entry: Entry<ValueCall<T>>) -> Result<(), MachineError>
        ensures value { TypedRunsOn self.old self.new }
        ensures happened { OnOk result
            (PlayValues T.words T.is_value self.old (entry ∷ []) self.new) }
        ensures entered { OnOk result (TypedEntered T.words self.old entry self.new) }
        ensures refused { IfErr result (λ error. error ≡ WantOfMemory) }
        ensures wants { OnErr result (IsTypedStepUnderWay T.words self.old entry) }
        ensures unchanged { OnErr result (self.new ≡ self.old) }
    {
        match entry {
            Entry::Begin(party, call) => {
                let _begun = self.begin(party, call);
                Ok(())
            }
            Entry::Step(party) => match self.step(party) {
                Ok(_) => Ok(()),
                Err(MachineError::WantOfMemory) => Err(MachineError::WantOfMemory),
                Err(MachineError::UnknownParty) => Ok(()),
                Err(MachineError::AtRest) => Ok(()),
                Err(MachineError::Busy) => Ok(()),
            },
        }
    }
}
