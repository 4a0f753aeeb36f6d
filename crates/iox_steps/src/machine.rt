//! A machine that plays any schedule of single accesses by parties that share words.
ghost use Rattle.std.specs.Prelude.{◌≡◌, ℕ, ◌<◌, ◌++◌, List, [], length, slice_index, vec_len};
ghost use Rattle.std.specs.Option.{option_to_list};
ghost use Rattle.std.specs.Vec.{vec_capacity};
ghost use Rattle.iox_steps.specs.Accesses.{IsWithin, seen_by, words_after};

use crate::access::{Access, Progress};
use crate::error::MachineError;
use crate::machine_party::MachineParty;
use std::alloc::Global;
use std::marker::Model;

/// An entry of a schedule: a party begins a call, or makes one access.
#[derive(Clone, Copy)]
pub enum Entry<C> {
    /// the party of this number begins the call, with no access
    Begin(usize, C),
    /// the party of this number makes one access
    Step(usize),
}

/// Makes the access, and answers what the word was before it.
#[inline]
pub fn perform(words: &mut Vec<u64>, access: Access) -> u64
    requires { IsWithin 0 (length words.old.items) access }
    ensures seen { result ≡ seen_by access (λ place. slice_index words.old.items place) }
    ensures words { words.new.items ≡ words_after access words.old.items }
{
    match access {
        Access::Local => 0,
        Access::Load(place) => words[place],
        Access::Store(place, value) => {
            let seen = words[place];
            words[place] = value;
            seen
        }
        Access::CompareExchange(place, old, new) => {
            let seen = words[place];
            if seen == old {
                words[place] = new;
            }
            seen
        }
        Access::FetchAdd(place, value) => {
            let seen = words[place];
            words[place] = seen.wrapping_add(value);
            seen
        }
        Access::FetchSub(place, value) => {
            let seen = words[place];
            words[place] = seen.wrapping_sub(value);
            seen
        }
        Access::FetchOr(place, value) => {
            let seen = words[place];
            words[place] = seen | value;
            seen
        }
        Access::FetchAnd(place, value) => {
            let seen = words[place];
            words[place] = seen & value;
            seen
        }
    }
}

/// Writes the event, if there is one, behind the others; there is room for it.
#[inline]
pub fn tell<E: Copy>(events: &mut Vec<E>, event: Option<E>)
    requires { vec_len events.old < vec_capacity events.old }
    ensures { events.new.items ≡ events.old.items ++ option_to_list event }
{
    match event {
        None => {}
        Some(event) => events.push_reserved(event),
    }
}

/// Shared words, the parties that play on them, and what happened.
#[derive(Drop)]
pub struct Machine<P: MachineParty> {
    words: Vec<u64>,
    parties: Vec<P>,
    events: Vec<P::Event>,
}

impl<P: MachineParty> Model for Machine<P> {
    ghost use Rattle.iox_steps.specs.MachineStates.{MachineState};

    ghost Value = { MachineState P P.Event };

    ghost view = { λ m.
        record { words = m.words.items; parties = m.parties.items; events = m.events.items } };

    ghost invariant = { λ m. P.Invariant
        (record { words = m.words.items; parties = m.parties.items; events = m.events.items }) };
}

impl<P: MachineParty> Machine<P> {
    ghost use Rattle.std.specs.Prelude.{◌≡◌, ℕ, ◌<◌, [], length, take, IfOk, IfErr, OnOk, OnErr};
    ghost use Rattle.iox_steps.specs.MachineStates.{MachineState, Stepped, IsStepRefused, Begun, IsBeginRefused, Entered, AllEntered, IsStepUnderWay, StopsAtStep};

    /// Parties that are to play on these words.
    pub fn new(alloc: Global, words: Vec<u64>, parties: Vec<P>) -> Machine<P>
        requires { P.Invariant
            (record { words = words.items; parties = parties.items; events = [] }) }
        ensures { result ≡ record { words = words.items; parties = parties.items; events = [] } }
    {
        Machine {
            words,
            parties,
            events: Vec::new(alloc),
        }
    }

    /// The shared words.
    pub fn words(&self) -> &[u64]
        ensures { result.now ≡ self.now.words }
    {
        &self.words
    }

    /// What happened so far.
    pub fn events(&self) -> &[P::Event]
        ensures { result.now ≡ self.now.events }
    {
        &self.events
    }

    /// One access of the party's call.
    #[inline]
    pub fn step(&mut self, party: usize) -> Result<Progress<P::Reply>, MachineError>
        ensures stepped { IfOk result (λ answer. Stepped P.asks P.leads P.happens P.at_rest P.begins
            self.old party answer self.new) }
        ensures refused { IfErr result (λ error.
            IsStepRefused P.asks P.leads P.happens P.at_rest P.begins
            self.old party error) }
        ensures unchanged { OnErr result (self.new ≡ self.old) }
    {
        if party >= self.parties.len() {
            return Err(MachineError::UnknownParty);
        }
        if self.parties[party].is_at_rest() {
            return Err(MachineError::AtRest);
        }
        if self.events.reserve(1).is_err() {
            return Err(MachineError::WantOfMemory);
        }
        let answer = self.parties[party].step(&mut self.words, &mut self.events);
        Ok(answer)
    }

    /// The party begins the call, with no access.
    pub fn begin(&mut self, party: usize, call: P::Call) -> Result<(), MachineError>
        ensures begun { IfOk result (λ _. Begun P.asks P.leads P.happens P.at_rest P.begins
            self.old party call self.new) }
        ensures refused { IfErr result (λ error.
            IsBeginRefused P.asks P.leads P.happens P.at_rest P.begins
            self.old party call error) }
        ensures unchanged { OnErr result (self.new ≡ self.old) }
    {
        if party >= self.parties.len() {
            return Err(MachineError::UnknownParty);
        }
        self.parties[party].begin(call)
    }

    /// What holds wherever the parties are in their calls.
    pub fn holds(&self)
        ensures { P.Invariant self.now }
    {
        let _words = &self.words;
    }

    /// One entry of a schedule.
    fn enter(&mut self, entry: Entry<P::Call>) -> Result<(), MachineError>
        ensures entered { IfOk result (λ _. Entered P.asks P.leads P.happens P.at_rest P.begins
            self.old entry self.new) }
        ensures refused { IfErr result (λ error. error ≡ MachineError.WantOfMemory) }
        ensures wants { OnErr result (IsStepUnderWay P.asks P.leads P.happens P.at_rest P.begins
            self.old entry) }
        ensures unchanged { OnErr result (self.new ≡ self.old) }
    {
        match entry {
            Entry::Begin(party, call) => {
                let _begun = self.begin(party, call);
                Ok(())
            }
            Entry::Step(party) => match self.step(party) {
                Ok(_) => Ok(()),
                Err(MachineError::WantOfMemory) => Err(MachineError::WantOfMemory),
                Err(MachineError::UnknownParty) => Ok(()),
                Err(MachineError::AtRest) => Ok(()),
                Err(MachineError::Busy) => Ok(()),
            },
        }
    }

    /// Plays a schedule to its end, or to the step that finds no memory.
    pub fn run(&mut self, schedule: &[Entry<P::Call>]) -> Result<(), MachineError>
        ensures played { (count : ℕ) × AllEntered P.asks P.leads P.happens P.at_rest P.begins
            self.old (take count schedule.now) self.new }
        ensures whole { OnOk result (AllEntered P.asks P.leads P.happens P.at_rest P.begins
            self.old schedule.now self.new) }
        ensures stopped { OnErr result (StopsAtStep P.asks P.leads P.happens P.at_rest P.begins
            self.old schedule.now self.new) }
        ensures refused { IfErr result (λ error. error ≡ MachineError.WantOfMemory) }
        ensures holds { P.Invariant self.new }
    {
        let played = self.enter_all(schedule);
        self.holds();
        played
    }

    fn enter_all(&mut self, schedule: &[Entry<P::Call>]) -> Result<(), MachineError>
        ensures played { (count : ℕ) × AllEntered P.asks P.leads P.happens P.at_rest P.begins
            self.old (take count schedule.now) self.new }
        ensures whole { OnOk result (AllEntered P.asks P.leads P.happens P.at_rest P.begins
            self.old schedule.now self.new) }
        ensures stopped { OnErr result (StopsAtStep P.asks P.leads P.happens P.at_rest P.begins
            self.old schedule.now self.new) }
        ensures refused { IfErr result (λ error. error ≡ MachineError.WantOfMemory) }
    {
        for entry in schedule {
            self.enter(*entry)?;
        }
        Ok(())
    }
}
