//! The machine of parties at a value.
ghost use Rattle.std.specs.Prelude.{◌≡◌};

use super::party::parties_at;
use super::{AtomicCall, AtomicEvent, AtomicParty, AtomicReply};
use iox_steps::{Entry, Machine, MachineError, Progress};
use std::alloc::{AllocError, Global};
use std::marker::Model;

/// A value of `N` words among shared words, and the parties that store and load it: only party 0
/// stores.
#[derive(Drop)]
pub struct AtomicMachine<const N: usize> {
    machine: Machine<AtomicParty<N>>,
}

impl<const N: usize> Model for AtomicMachine<N> {
    ghost use Rattle.std.specs.Prelude.{◌^◌, ◌<◌};
    ghost use Rattle.iox_set_steps.specs.AtomicPlays.{AtomicMachineState};

    ghost Value = { AtomicMachineState N };

    ghost view = { λ m. m.machine };

    ghost invariant = { λ m. N < 2 ^ 56 };
}

impl<const N: usize> AtomicMachine<N> {
    ghost use Rattle.std.specs.Prelude.{◌≡◌, ℕ, ◌+◌, ◌^◌, ◌<◌, ◌≤◌, length, take, IfOk, IfErr, OnOk, OnErr};
    ghost use Rattle.iox_set_steps.specs.AtomicPlays.{AtomicsHold};
    ghost use Rattle.iox_set_steps.specs.AtomicMachines.{AllAtomicsEntered, AtomicsBegun, AtomicsStepped, AtomicsStopAtStep, BeginsAtomicCall, IsAtomicBeginRefused};
    ghost use Rattle.iox_set_steps.specs.AtomicMachines.{IsAtomicEvent, IsAtomicStepRefused, IsNewAtomic, MayCall, PlayAtomics, RunsOn, base_of};
    ghost use Rattle.iox_set_steps.specs.AtomicMachines.{atomics_answer, atomics_begun, atomics_stepped, new_atomics};
    ghost use Rattle.iox_set_steps.specs.AtomicEntries.{atomics_after};
    ghost use Rattle.iox_set_steps.specs.Sites.{StayAtSites};

    /// A machine of this many parties at the value whose version stands at `base`, with its two
    /// cells behind it. The value is the one that the words hold.
    pub fn new(
        alloc: Global,
        words: Vec<u64>,
        base: usize,
        parties: usize,
    ) -> Result<AtomicMachine<N>, AllocError>
        requires small { N < 2 ^ 56 }
        requires room { base + 1 + N + N ≤ length words.items }
        ensures made { IfOk result (IsNewAtomic words.items base parties) }
        ensures is { IfOk result (λ machine. machine ≡ new_atomics words.items base parties) }
    {
        let _version = words[base];
        let parties = parties_at(alloc, base, parties)?;
        Ok(AtomicMachine {
            machine: Machine::new(alloc, words, parties),
        })
    }

    /// The shared words.
    pub fn words(&self) -> &[u64]
        ensures { result.now ≡ self.now.words }
    {
        self.machine.words()
    }

    /// What happened so far.
    pub fn events(&self) -> &[AtomicEvent<N>]
        ensures { result.now ≡ self.now.events }
    {
        self.machine.events()
    }

    /// The party begins the call, with no access. A store by another party than 0 is refused.
    pub fn begin(&mut self, party: usize, call: AtomicCall<N>) -> Result<(), MachineError>
        ensures storer { OnOk result (MayCall party call.entry) }
        ensures begins { OnOk result (BeginsAtomicCall N self.old party call.entry self.new) }
        ensures next { OnOk result (self.new ≡ atomics_begun self.old party call.entry) }
        ensures begun { OnOk result (AtomicsBegun N self.old party call.entry self.new) }
        ensures refused { IfErr result (IsAtomicBeginRefused N self.old party call.entry) }
        ensures unchanged { OnErr result (self.new ≡ self.old) }
    {
        self.machine.holds();
        self.machine.begin(party, call)
    }

    /// One access of the party's call.
    pub fn step(&mut self, party: usize) -> Result<Progress<AtomicReply<N>>, MachineError>
        ensures event { IfOk result (λ answer. IsAtomicEvent N self.old party answer self.new) }
        ensures next { OnOk result (self.new ≡ atomics_stepped self.old party) }
        ensures answer { IfOk result (λ answer. answer ≡ atomics_answer self.old party) }
        ensures stepped { IfOk result (λ answer. AtomicsStepped N self.old party answer self.new) }
        ensures refused { IfErr result (IsAtomicStepRefused N self.old party) }
        ensures unchanged { OnErr result (self.new ≡ self.old) }
    {
        self.machine.holds();
        self.machine.step(party)
    }

    /// Plays a schedule to its end, or to the step that finds no memory. Each load hands out the
    /// value that is current at its last access. A schedule played to its end has only one result.
    pub fn run(&mut self, schedule: &[Entry<AtomicCall<N>>]) -> Result<(), MachineError>
        ensures value { RunsOn N self.old self.new }
        ensures happened { (count : ℕ) × PlayAtomics N self.old (take count schedule.now) self.new }
        ensures all_events { OnOk result (PlayAtomics N self.old schedule.now self.new) }
        ensures holds { AtomicsHold N self.new }
        ensures sites { StayAtSites base_of self.old self.new }
        ensures played { (count : ℕ)
            × AllAtomicsEntered N self.old (take count schedule.now) self.new }
        ensures whole { OnOk result (AllAtomicsEntered N self.old schedule.now self.new) }
        ensures stopped { OnErr result (AtomicsStopAtStep N self.old schedule.now self.new) }
        ensures after { OnOk result (self.new ≡ atomics_after self.old schedule.now) }
        ensures refused { IfErr result (λ error. error ≡ MachineError.WantOfMemory) }
    {
        self.machine.holds();
        self.machine.run(schedule)
    }

    /// What holds wherever the parties are in their calls.
    pub(crate) fn holds(&self)
        ensures { AtomicsHold N self.now }
    {
        self.machine.holds();
    }
}
