//! The machine of one queue.
ghost use Rattle.std.specs.Prelude.{◌≡◌};

use crate::party::{QueueParty, at_rest};
use crate::queue::Call;
use iox_steps::{Entry, Machine, MachineError, Progress, QueueEvent, QueueKind, QueueReply, Site};
use std::alloc::{AllocError, Global};
use std::marker::Model;

/// A queue among shared words, and its two parties: party 0 pushes and looks at fullness, party 1
/// pops and looks at emptiness.
#[derive(Drop)]
pub struct QueueMachine {
    machine: Machine<QueueParty>,
}

impl Model for QueueMachine {
    ghost use Rattle.iox_queue_steps.specs.Machines.{QueueMachineState};

    ghost Value = { QueueMachineState };

    ghost view = { λ m. m.machine };
}

impl QueueMachine {
    ghost use Rattle.std.specs.Prelude.{◌≡◌, ℕ, ◌+◌, ◌<◌, ◌≤◌, ◌++◌, [], length, take, IfOk, IfErr, OnOk, OnErr};
    ghost use Rattle.iox_steps.specs.Sites.{cells, size};
    ghost use Rattle.iox_queue_steps.specs.Queues.{new_machine, IsEmptyAt, QueueInvariant};
    ghost use Rattle.iox_queue_steps.specs.Entries.{site_of, waiting_of, queue_entered, queue_after, queue_answer};
    ghost use Rattle.iox_steps.specs.EventLists.{published, departed};
    ghost use Rattle.iox_queue_steps.specs.Machines.{QueueStepped, IsQueueStepRefused, QueueBegun, IsQueueBeginRefused, AllQueueEntered, QueueStopsAtStep, IsEvent, IsInterleaving};

    /// A machine of the empty queue at this place among the words, at whatever position it is.
    pub fn new(alloc: Global, words: Vec<u64>, site: Site) -> Result<QueueMachine, AllocError>
        requires room { site.base + size site ≤ length words.items }
        requires empty { IsEmptyAt site words.items }
        requires some { site.kind ≡ QueueKind.Overflowing → 0 < site.capacity }
        ensures made { IfOk result (λ machine. machine ≡ new_machine words.items site) }
    {
        let position = words[site.base];
        let parties = at_rest(alloc, site, position)?;
        Ok(QueueMachine {
            machine: Machine::new(alloc, words, parties),
        })
    }

    /// The shared words.
    pub fn words(&self) -> &[u64]
        ensures { result.now ≡ self.now.words }
    {
        self.machine.words()
    }

    /// What happened so far.
    pub fn events(&self) -> &[QueueEvent]
        ensures { result.now ≡ self.now.events }
    {
        self.machine.events()
    }

    /// The party begins the call, with no access.
    pub fn begin(&mut self, party: usize, call: Call) -> Result<(), MachineError>
        ensures begun { OnOk result (QueueBegun self.old party call self.new) }
        ensures refused { IfErr result (IsQueueBeginRefused self.old party call) }
        ensures unchanged { OnErr result (self.new ≡ self.old) }
        ensures entered { self.new ≡ queue_entered self.old (Entry.Begin party call) }
        ensures stands { site_of self.new ≡ site_of self.old }
    {
        self.machine.begin(party, call)
    }

    /// One access of the party's call.
    #[inline]
    pub fn step(&mut self, party: usize) -> Result<Progress<QueueReply>, MachineError>
        ensures event { IfOk result (λ answer. IsEvent self.old party answer self.new) }
        ensures stepped { IfOk result (λ answer. QueueStepped self.old party answer self.new) }
        ensures refused { IfErr result (IsQueueStepRefused self.old party) }
        ensures unchanged { OnErr result (self.new ≡ self.old) }
        ensures entered { OnOk result (self.new ≡ queue_entered self.old (Entry.Step party)) }
        ensures answer { IfOk result (λ answer. answer ≡ queue_answer self.old party) }
        ensures stands { site_of self.new ≡ site_of self.old }
    {
        self.holds();
        self.machine.step(party)
    }

    /// What holds wherever the parties are in their calls: the values published are, in order,
    /// those that left and then those that wait.
    pub fn holds(&self)
        ensures queue { QueueInvariant self.now }
        ensures order { published self.now.events
            ≡ departed [] self.now.events ++ waiting_of self.now }
        ensures bounded { length (waiting_of self.now) ≤ cells (site_of self.now) }
    {
        self.machine.holds()
    }

    /// Plays a schedule to its end, or to the step that finds no memory. Each event that it adds
    /// was true of the queue when it came. The values published are, in order, those that left and
    /// then those that wait. A schedule played to its end has only one result.
    pub fn run(&mut self, schedule: &[Entry<Call>]) -> Result<(), MachineError>
        ensures happened { IsInterleaving self.old self.new }
        ensures queue { QueueInvariant self.new }
        ensures played { (count : ℕ) × AllQueueEntered self.old (take count schedule.now) self.new }
        ensures whole { OnOk result (AllQueueEntered self.old schedule.now self.new) }
        ensures stopped { OnErr result (QueueStopsAtStep self.old schedule.now self.new) }
        ensures refused { IfErr result (λ error. error ≡ MachineError.WantOfMemory) }
        ensures after { OnOk result (self.new ≡ queue_after self.old schedule.now) }
        ensures order { published self.new.events
            ≡ departed [] self.new.events ++ waiting_of self.new }
        ensures stands { site_of self.new ≡ site_of self.old }
    {
        self.holds();
        let played = self.machine.run(schedule);
        self.holds();
        played
    }
}
