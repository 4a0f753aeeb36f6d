//! The machine of parties at counts.
ghost use Rattle.std.specs.Prelude.{◌≡◌};

use super::{CountCall, CountEvent, CountParty, CountProgram, CountReply, CountSite};
use iox_steps::{Entry, Machine, MachineError, Progress};
use std::alloc::{AllocError, Global};
use std::marker::Model;

/// Counts among shared words, and the parties that raise and take them out.
#[derive(Drop)]
pub struct CountingBitSetMachine {
    machine: Machine<CountParty>,
    site: CountSite,
}

impl Model for CountingBitSetMachine {
    ghost use Rattle.iox_set_steps.specs.CountPlays.{CountsHoldAt};
    ghost use Rattle.iox_set_steps.specs.CountMachines.{SitedCounts};

    ghost Value = { SitedCounts };

    ghost view = { λ m. record { site = m.site; machine = m.machine } };

    ghost invariant = { λ m. CountsHoldAt m.site m.machine };
}

impl CountingBitSetMachine {
    ghost use Rattle.std.specs.Prelude.{◌≡◌, ℕ, ◌+◌, ◌≤◌, length, take, IfOk, IfErr, OnOk, OnErr};
    ghost use Rattle.iox_set_steps.specs.Counts.{count_now, taken_out, times_added};
    ghost use Rattle.iox_set_steps.specs.CountPlays.{CountsHoldAt};
    ghost use Rattle.iox_set_steps.specs.CountMachines.{AllCountsEntered, AreZero, AreNewCounts, BeginsCountCall, CountsBegun, CountsStepped, CountsStopAtStep};
    ghost use Rattle.iox_set_steps.specs.CountMachines.{IsCountBeginRefused, IsCountEvent, IsCountStepRefused, PlayCounts, counts_answer, counts_begun, counts_stepped, count_site_of, new_counts};
    ghost use Rattle.iox_set_steps.specs.CountEntries.{counts_after};
    ghost use Rattle.iox_set_steps.specs.Sites.{StayAtSites};

    /// A machine of this many parties at the counts of a site, all of which are 0.
    pub fn new(
        alloc: Global,
        words: Vec<u64>,
        site: CountSite,
        parties: usize,
    ) -> Result<CountingBitSetMachine, AllocError>
        requires room { site.base + site.capacity ≤ length words.items }
        requires zero { AreZero site words.items }
        ensures made { IfOk result (AreNewCounts words.items site parties) }
        ensures is { IfOk result (λ counts. counts ≡ new_counts words.items site parties) }
    {
        let party = CountParty {
            site,
            program: CountProgram::AtRest,
        };
        let parties = vec![in alloc; party; parties]?;
        Ok(CountingBitSetMachine {
            machine: Machine::new(alloc, words, parties),
            site,
        })
    }

    /// The shared words.
    pub fn words(&self) -> &[u64]
        ensures { result.now ≡ self.now.machine.words }
    {
        self.machine.words()
    }

    /// Where the counts stand.
    pub fn site(&self) -> CountSite
        ensures { result ≡ self.now.site }
    {
        self.site
    }

    /// What happened so far.
    pub fn events(&self) -> &[CountEvent]
        ensures { result.now ≡ self.now.machine.events }
    {
        self.machine.events()
    }

    /// What holds wherever the parties are in their calls.
    pub fn holds(&self)
        ensures { CountsHoldAt self.now.site self.now.machine }
    {
        let _words = self.machine.words();
    }

    /// The party begins the call, with no access.
    pub fn begin(&mut self, party: usize, call: CountCall) -> Result<(), MachineError>
        ensures begins { OnOk result (BeginsCountCall self.old party call self.new) }
        ensures next { OnOk result (self.new ≡ counts_begun self.old party call) }
        ensures begun { OnOk result (CountsBegun self.old.machine party call self.new.machine) }
        ensures refused { IfErr result (IsCountBeginRefused self.old.machine party call) }
        ensures unchanged { OnErr result (self.new ≡ self.old) }
    {
        self.machine.begin(party, call)
    }

    /// One access of the party's call.
    pub fn step(&mut self, party: usize) -> Result<Progress<CountReply>, MachineError>
        ensures event { IfOk result (λ answer. IsCountEvent self.old party answer self.new) }
        ensures next { OnOk result (self.new ≡ counts_stepped self.old party) }
        ensures answer { IfOk result (λ answer. answer ≡ counts_answer self.old party) }
        ensures stepped { IfOk result (λ answer.
            CountsStepped self.old.machine party answer self.new.machine) }
        ensures refused { IfErr result (IsCountStepRefused self.old.machine party) }
        ensures unchanged { OnErr result (self.new ≡ self.old) }
    {
        self.machine.step(party)
    }

    /// Plays a schedule to its end, or to the step that finds no memory. As much was added to each
    /// count as was taken out and is there now. A schedule played to its end has only one result.
    pub fn run(&mut self, schedule: &[Entry<CountCall>]) -> Result<(), MachineError>
        ensures counts { (id : ℕ) → times_added id self.new.machine.events
            ≡ taken_out id self.new.machine.events
            + count_now self.new.site self.new.machine.words id }
        ensures inside { (id : ℕ) → self.new.site.capacity ≤ id
            → times_added id self.new.machine.events ≡ 0 }
        ensures holds { CountsHoldAt self.new.site self.new.machine }
        ensures happened { (count : ℕ) × PlayCounts self.old (take count schedule.now) self.new }
        ensures all_events { OnOk result (PlayCounts self.old schedule.now self.new) }
        ensures here { self.new.site ≡ self.old.site }
        ensures sites { StayAtSites count_site_of self.old.machine self.new.machine }
        ensures played { (count : ℕ)
            × AllCountsEntered self.old.machine (take count schedule.now) self.new.machine }
        ensures whole { OnOk result
            (AllCountsEntered self.old.machine schedule.now self.new.machine) }
        ensures stopped { OnErr result
            (CountsStopAtStep self.old.machine schedule.now self.new.machine) }
        ensures after { OnOk result (self.new ≡ counts_after self.old schedule.now) }
        ensures refused { IfErr result (λ error. error ≡ MachineError.WantOfMemory) }
    {
        self.machine.run(schedule)
    }
}
