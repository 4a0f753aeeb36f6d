//! The machine of one queue of values.
ghost use Rattle.std.specs.Prelude.{◌≡◌};

use crate::event::{CellEvent, CellReply};
use crate::party::at_rest;
use crate::queue::{CellCall, CellParty};
use crate::site::CellSite;
use iox_steps::{Entry, Machine, MachineError, Progress};
use iox_words::Words;
use std::alloc::{AllocError, Global};
use std::marker::Model;

/// A queue of values among shared words, and its two parties: party 0 pushes and looks at fullness,
/// party 1 pops and looks at emptiness. `WIDTH` is `T::WORDS`.
#[derive(Drop)]
pub struct CellMachine<T: Words, const WIDTH: usize> {
    machine: Machine<CellParty<T, WIDTH>>,
}

impl<T: Words, const WIDTH: usize> Model for CellMachine<T, WIDTH> {
    ghost use Rattle.std.specs.Coded.{codes};
    ghost use Rattle.iox_cell_queues.specs.CellPartySides.{ready_code};
    ghost use Rattle.iox_cell_queues.specs.CellQueues.{CellMachineState};

    ghost Value = { CellMachineState T WIDTH };

    ghost coded = { Prim.hlevel (codes, T.code, ready_code) };

    ghost view = { λ m. m.machine };
}

impl<T: Words, const WIDTH: usize> CellMachine<T, WIDTH> {
    ghost use Rattle.std.specs.Prelude.{◌≡◌, ℕ, ◌+◌, ◌≤◌, ◌++◌, length, take, IfOk, IfErr, OnOk, OnErr};
    ghost use Rattle.iox_cell_queues.specs.Cells.{size};
    ghost use Rattle.iox_cell_queues.specs.CellSizes.{PartyFits};
    ghost use Rattle.iox_cell_queues.specs.CellQueues.{IsNewMachine, IsEmptyAt, CellInvariant};
    ghost use Rattle.iox_cell_queues.specs.CellMachines.{CellStepped, IsCellStepRefused, CellBegun, IsCellBeginRefused, AllCellsEntered, CellsStopAtStep, IsEvent, IsInterleaving};
    ghost use Rattle.iox_cell_queues.specs.CellEntries.{plain, new_machine, site_of, waiting_of, plain_entered, plain_after, plain_answer, new_after};
    ghost use Rattle.iox_cell_queues.specs.CellEventLists.{published, departed};

    /// A machine of the empty queue at this site among the words, at whatever position it is.
    pub fn new(
        alloc: Global,
        words: Vec<u64>,
        site: CellSite,
    ) -> Result<CellMachine<T, WIDTH>, AllocError>
        requires room { site.base + size site ≤ length words.items }
        requires empty { IsEmptyAt site words.items }
        requires wide { site.width ≡ WIDTH }
        requires words { T.WORDS ≡ WIDTH }
        requires fits { PartyFits T.row WIDTH.row }
        ensures made { IfOk result (IsNewMachine words.items site) }
        ensures is_new { IfOk result (λ machine. plain machine ≡ new_machine words.items site) }
        ensures stands { IfOk result (λ machine. site_of machine ≡ site) }
    {
        let _position = words[site.base];
        let parties = at_rest(alloc, site)?;
        Ok(CellMachine {
            machine: Machine::new(alloc, words, parties),
        })
    }

    /// A machine of the empty queue at this site, once it played the schedule to its end.
    pub fn played(
        alloc: Global,
        words: Vec<u64>,
        site: CellSite,
        schedule: &[Entry<CellCall<T>>],
    ) -> Result<CellMachine<T, WIDTH>, MachineError>
        requires room { site.base + size site ≤ length words.items }
        requires empty { IsEmptyAt site words.items }
        requires wide { site.width ≡ WIDTH }
        requires words { T.WORDS ≡ WIDTH }
        requires fits { PartyFits T.row WIDTH.row }
        ensures after { IfOk result (λ machine. plain machine
            ≡ new_after T.Words WIDTH words.items site schedule.now) }
        ensures words { IfOk result (λ machine. machine.words
            ≡ (new_after T.Words WIDTH words.items site schedule.now).words) }
        ensures events { IfOk result (λ machine. machine.events
            ≡ (new_after T.Words WIDTH words.items site schedule.now).events) }
        ensures stands { IfOk result (λ machine. site_of machine ≡ site) }
        ensures refused { IfErr result (λ error. error ≡ MachineError.WantOfMemory) }
    {
        let Ok(mut machine) = CellMachine::new(alloc, words, site) else {
            return Err(MachineError::WantOfMemory);
        };
        machine.run(schedule)?;
        Ok(machine)
    }

    /// The shared words.
    pub fn words(&self) -> &[u64]
        requires fits { PartyFits T.row WIDTH.row }
        ensures { result.now ≡ self.now.words }
    {
        self.machine.words()
    }

    /// What happened so far.
    pub fn events(&self) -> &[CellEvent<T>]
        requires fits { PartyFits T.row WIDTH.row }
        ensures { result.now ≡ self.now.events }
    {
        self.machine.events()
    }

    /// The party begins the call, with no access.
    pub fn begin(&mut self, party: usize, call: CellCall<T>) -> Result<(), MachineError>
        requires fits { PartyFits T.row WIDTH.row }
        ensures begun { OnOk result (CellBegun T.Words self.old party call self.new) }
        ensures refused { IfErr result (IsCellBeginRefused T.Words self.old party call) }
        ensures unchanged { OnErr result (self.new ≡ self.old) }
        ensures entered { plain self.new
            ≡ plain_entered T.Words (plain self.old) (Entry.Begin party call) }
        ensures stands { site_of self.new ≡ site_of self.old }
    {
        self.machine.begin(party, call)
    }

    /// One access of the party's call.
    pub fn step(&mut self, party: usize) -> Result<Progress<CellReply<T>>, MachineError>
        requires fits { PartyFits T.row WIDTH.row }
        ensures event { IfOk result (λ answer. IsEvent T.Words self.old party answer self.new) }
        ensures stepped { IfOk result (λ answer.
            CellStepped T.Words self.old party answer self.new) }
        ensures refused { IfErr result (IsCellStepRefused T.Words self.old party) }
        ensures unchanged { OnErr result (self.new ≡ self.old) }
        ensures entered { OnOk result (plain self.new
            ≡ plain_entered T.Words (plain self.old) (Entry.Step party)) }
        ensures answer { IfOk result (λ answer. answer
            ≡ plain_answer T.Words (plain self.old) party) }
        ensures stands { site_of self.new ≡ site_of self.old }
    {
        self.holds();
        self.machine.step(party)
    }

    /// What holds wherever the parties are in their calls: the values published are, in order,
    /// those handed out and then those that wait.
    pub fn holds(&self)
        requires fits { PartyFits T.row WIDTH.row }
        ensures queue { CellInvariant T.Words self.now }
        ensures order { published self.now.events
            ≡ departed self.now.events ++ waiting_of T.Words self.now }
        ensures bounded { length (waiting_of T.Words self.now) ≤ (site_of self.now).capacity }
    {
        self.machine.holds()
    }

    /// Plays a schedule to its end, or to the step that finds no memory. Each event that it adds
    /// was true of the queue when it came. The values published are, in order, those handed out and
    /// then those that wait. A schedule played to its end has only one result.
    pub fn run(&mut self, schedule: &[Entry<CellCall<T>>]) -> Result<(), MachineError>
        requires fits { PartyFits T.row WIDTH.row }
        ensures queue { CellInvariant T.Words self.new }
        ensures happened { IsInterleaving T.Words self.old self.new }
        ensures played { (count : ℕ)
            × AllCellsEntered T.Words self.old (take count schedule.now) self.new }
        ensures whole { OnOk result (AllCellsEntered T.Words self.old schedule.now self.new) }
        ensures stopped { OnErr result (CellsStopAtStep T.Words self.old schedule.now self.new) }
        ensures refused { IfErr result (λ error. error ≡ MachineError.WantOfMemory) }
        ensures after { OnOk result (plain self.new
            ≡ plain_after T.Words (plain self.old) schedule.now) }
        ensures order { published self.new.events
            ≡ departed self.new.events ++ waiting_of T.Words self.new }
        ensures stands { site_of self.new ≡ site_of self.old }
    {
        self.holds();
        let played = self.machine.run(schedule);
        self.holds();
        played
    }
}
