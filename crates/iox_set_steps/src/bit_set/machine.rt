//! The machine of parties at bits.
ghost use Rattle.std.specs.Prelude.{◌≡◌};

use super::{BitCall, BitEvent, BitParty, BitProgram, BitReply, BitSite};
use iox_steps::{Entry, Machine, MachineError, Progress};
use std::alloc::{AllocError, Global};
use std::marker::Model;

/// Bits among shared words, and the parties that set and clear them.
#[derive(Drop)]
pub struct BitSetMachine {
    machine: Machine<BitParty>,
    site: BitSite,
}

impl Model for BitSetMachine {
    ghost use Rattle.iox_set_steps.specs.BitPlays.{BitsHoldAt};
    ghost use Rattle.iox_set_steps.specs.BitMachines.{SitedBits};

    ghost Value = { SitedBits };

    ghost view = { λ m. record { site = m.site; machine = m.machine } };

    ghost invariant = { λ m. BitsHoldAt m.site m.machine };
}

impl BitSetMachine {
    ghost use Rattle.std.specs.Prelude.{◌≡◌, ℕ, ◌+◌, ◌≤◌, length, take, IfOk, IfErr, OnOk, OnErr};
    ghost use Rattle.iox_set_steps.specs.Bits.{bit_words};
    ghost use Rattle.iox_set_steps.specs.Bits.{bit_now, times_cleared, times_set};
    ghost use Rattle.iox_set_steps.specs.BitPlays.{BitsHoldAt};
    ghost use Rattle.iox_set_steps.specs.BitMachines.{AllBitsEntered, AreClear, AreNewBits, BitsBegun, BitsStopAtStep};
    ghost use Rattle.iox_set_steps.specs.BitMachines.{BeginsBitCall, BitsStepped, IsBitBeginRefused};
    ghost use Rattle.iox_set_steps.specs.BitMachines.{IsBitEvent, IsBitStepRefused, PlayBits, bits_answer, bits_begun, bits_stepped, new_bits, site_of};
    ghost use Rattle.iox_set_steps.specs.BitEntries.{bits_after};
    ghost use Rattle.iox_set_steps.specs.Sites.{StayAtSites};

    /// A machine of this many parties at the bits of a site, none of which is set.
    pub fn new(
        alloc: Global,
        words: Vec<u64>,
        site: BitSite,
        parties: usize,
    ) -> Result<BitSetMachine, AllocError>
        requires room { site.base + bit_words site.capacity ≤ length words.items }
        requires clear { AreClear site words.items }
        ensures made { IfOk result (AreNewBits words.items site parties) }
        ensures is { IfOk result (λ bits. bits ≡ new_bits words.items site parties) }
    {
        let party = BitParty {
            site,
            program: BitProgram::AtRest,
        };
        let parties = vec![in alloc; party; parties]?;
        Ok(BitSetMachine {
            machine: Machine::new(alloc, words, parties),
            site,
        })
    }

    /// The shared words.
    pub fn words(&self) -> &[u64]
        ensures { result.now ≡ self.now.machine.words }
    {
        self.machine.words()
    }

    /// Where the bits stand.
    pub fn site(&self) -> BitSite
        ensures { result ≡ self.now.site }
    {
        self.site
    }

    /// What happened so far.
    pub fn events(&self) -> &[BitEvent]
        ensures { result.now ≡ self.now.machine.events }
    {
        self.machine.events()
    }

    /// What holds wherever the parties are in their calls.
    pub fn holds(&self)
        ensures { BitsHoldAt self.now.site self.now.machine }
    {
        let _words = self.machine.words();
    }

    /// The party begins the call, with no access.
    pub fn begin(&mut self, party: usize, call: BitCall) -> Result<(), MachineError>
        ensures begins { OnOk result (BeginsBitCall self.old party call self.new) }
        ensures next { OnOk result (self.new ≡ bits_begun self.old party call) }
        ensures begun { OnOk result (BitsBegun self.old.machine party call self.new.machine) }
        ensures refused { IfErr result (IsBitBeginRefused self.old.machine party call) }
        ensures unchanged { OnErr result (self.new ≡ self.old) }
    {
        self.machine.begin(party, call)
    }

    /// One access of the party's call.
    pub fn step(&mut self, party: usize) -> Result<Progress<BitReply>, MachineError>
        ensures event { IfOk result (λ answer. IsBitEvent self.old party answer self.new) }
        ensures next { OnOk result (self.new ≡ bits_stepped self.old party) }
        ensures answer { IfOk result (λ answer. answer ≡ bits_answer self.old party) }
        ensures stepped { IfOk result (λ answer.
            BitsStepped self.old.machine party answer self.new.machine) }
        ensures refused { IfErr result (IsBitStepRefused self.old.machine party) }
        ensures unchanged { OnErr result (self.new ≡ self.old) }
    {
        self.machine.step(party)
    }

    /// Plays a schedule to its end, or to the step that finds no memory. As many `set` calls
    /// changed a bit as times it was cleared, and one more where it is set. A schedule played to
    /// its end has only one result.
    pub fn run(&mut self, schedule: &[Entry<BitCall>]) -> Result<(), MachineError>
        ensures bits { (id : ℕ) → times_set id self.new.machine.events
            ≡ times_cleared id self.new.machine.events
            + bit_now self.new.site self.new.machine.words id }
        ensures inside { (id : ℕ) → self.new.site.capacity ≤ id
            → times_set id self.new.machine.events ≡ 0 }
        ensures holds { BitsHoldAt self.new.site self.new.machine }
        ensures happened { (count : ℕ) × PlayBits self.old (take count schedule.now) self.new }
        ensures all_events { OnOk result (PlayBits self.old schedule.now self.new) }
        ensures here { self.new.site ≡ self.old.site }
        ensures sites { StayAtSites site_of self.old.machine self.new.machine }
        ensures played { (count : ℕ)
            × AllBitsEntered self.old.machine (take count schedule.now) self.new.machine }
        ensures whole { OnOk result
            (AllBitsEntered self.old.machine schedule.now self.new.machine) }
        ensures stopped { OnErr result
            (BitsStopAtStep self.old.machine schedule.now self.new.machine) }
        ensures after { OnOk result (self.new ≡ bits_after self.old schedule.now) }
        ensures refused { IfErr result (λ error. error ≡ MachineError.WantOfMemory) }
    {
        self.machine.run(schedule)
    }
}
