//! A wire: the words that nodes share, and the nodes.
ghost use Rattle.std.specs.Prelude.{◌≡◌, IfOk, Ok, replicate};
ghost use Rattle.iox_steps.specs.declared.access.Progress.TheVariants.{Done, Going};
ghost use Rattle.iox_wire.specs.Kept.{StandInOrder};

use crate::events::{WireEvent, note, place_of};
use crate::finished::Replies;
use crate::member::Member;
use crate::new_error::WireNewError;
use crate::opening::{longest_message, new_refusal, open_members};
use iox_steps::Progress;
use iox_wire_weaves::{Lists, NodeReply, WirePlan, WireRefusal, WireTerms, WordMap};
use std::alloc::{AllocError, Global};
use std::marker::Model;

/// A wire. Its nodes make one access of its words at a time, in any order, and each may die
/// anywhere in its call.
#[derive(Drop)]
pub struct Wire {
    pub(crate) places: WordMap,
    pub(crate) terms: WireTerms,
    words: Vec<u64>,
    pub(crate) members: Vec<Member>,
    replies: Replies,
    events: Vec<WireEvent>,
    // how many more steps find room for what they record
    room: usize,
    // how many of the first nodes stand at the places of their numbers
    in_order: usize,
    // what a begin lists, for which there is room; of no use later
    pub(crate) lists: Lists,
}

impl Model for Wire {
    ghost use Rattle.std.specs.Prelude.{map, vec_capacity, vec_len};
    ghost use Rattle.iox_wire_weaves.specs.ListRooms.{ListsHaveRoom};
    ghost use Rattle.iox_wire_weaves.specs.Wires.{WireData};
    ghost use Rattle.iox_wire.specs.Kept.{HasRoomToRecord, IsShown, StandInOrder};

    ghost Value = { WireData };

    ghost view = { λ w. record {
      plan = w.places;
      terms = w.terms;
      words = w.words.items;
      nodes = w.members.items;
      replies = w.replies.finished;
      events = map (λ e. (e.node, e.event)) w.events.items;
      room = w.room;
    } };

    ghost invariant = { λ w. ListsHaveRoom w.places w.lists × IsShown (record {
      plan = w.places;
      terms = w.terms;
      words = w.words.items;
      nodes = w.members.items;
      replies = w.replies.finished;
      events = map (λ e. (e.node, e.event)) w.events.items;
      room = w.room;
    }) × HasRoomToRecord w.places w.room w.replies (vec_len w.events) (vec_capacity w.events)
        × StandInOrder w.in_order w.members.items };
}

impl Wire {
    ghost use Rattle.std.specs.Prelude.{◌≡◌, ◌+◌, ◌<◌, ◌≤◌, IfErr, IfOk, IfSome, IsOk, None, OnErr};
    ghost use Rattle.std.specs.Bool.{OnFalse, OnTrue};
    ghost use Rattle.iox_steps.specs.declared.access.Progress.TheVariants.{Going};
    ghost use Rattle.std.specs.Prelude.{OnOk, Some, length, max, position, ◌==◌, map};
    ghost use Rattle.iox_model.specs.States.{State};
    ghost use Rattle.iox_sets.specs.Refusals.{IsRefusal};
    ghost use Rattle.iox_wire_weaves.specs.Laws.{IsNewWire};
    ghost use Rattle.iox_wire_weaves.specs.Plans.{IsPlan};
    ghost use Rattle.iox_wire_weaves.specs.Tables.{Setting};
    ghost use Rattle.iox_wire_weaves.specs.declared.refusal.WireRefusal.TheVariants.{WantOfMemory};
    ghost use Rattle.iox_wire_weaves.specs.Steps.{DeathIsWoven, MakesItsAccess, StepIsWoven};
    ghost use Rattle.iox_wire_weaves.specs.Steps.{IsOwnAnswer, KeepsRead, step_refusal};
    ghost use Rattle.iox_wire_weaves.specs.Wires.{AreWhole, WireOpensOn, ShowsOpened, living_refusal};
    ghost use Rattle.iox_wire.specs.Kept.{AreOpened, Loses, NodesHaveRoom};
    ghost use Rattle.iox_wire.specs.NewRefusals.{AreNamed, FitsService, SuitsWire, new_refusal};
    ghost use Rattle.iox_wire.specs.declared.new_error.WireNewError.TheVariants as new_errors;

    /// A wire of that plan, with these nodes alive, on which nothing happened yet. Each node has
    /// room for all handles that its ports may have. Where `new_refusal` tells nothing, the plan
    /// and the terms are to be those of a service on which a wire may open, and nothing but want
    /// of memory is told.
    pub fn new(
        alloc: Global,
        plan: WirePlan,
        terms: WireTerms,
        nodes: &[u64],
    ) -> Result<Wire, WireNewError>
        requires plan { IsPlan plan }
        requires whole { AreWhole plan terms }
        requires opens { new_refusal plan terms nodes.now ≡ None
            → (p : Setting) × (s : State) × WireOpensOn plan terms nodes.now p s }
        ensures opened { (p : Setting) → (s : State) → WireOpensOn plan terms nodes.now p s
            → IfOk result (ShowsOpened p s) }
        ensures fresh { (p : Setting) → (s : State) → WireOpensOn plan terms nodes.now p s
            → IfOk result (IsNewWire p plan terms nodes.now) }
        ensures nodes { IfOk result (λ wire. AreOpened plan nodes.now wire.nodes) }
        ensures named { OnOk result (AreNamed plan terms nodes.now) }
        ensures suited { OnOk result (SuitsWire plan) }
        ensures served { OnOk result (FitsService plan terms) }
        ensures room { IfOk result (λ wire. NodesHaveRoom plan wire.nodes) }
        ensures allowed { OnOk result (new_refusal plan terms nodes.now ≡ None) }
        ensures refused { IfErr result
            (IsRefusal new_errors.WantOfMemory (new_refusal plan terms nodes.now)) }
    {
        if let Some(refusal) = new_refusal(&plan, &terms, nodes) {
            return Err(refusal);
        }
        let Ok(places) = WordMap::new(alloc, plan) else {
            return Err(WireNewError::WantOfMemory);
        };
        let Some(ways) = places.most_ways() else {
            unreachable!();
        };
        let words = zeros(alloc, places.total())?;
        let members = open_members(alloc, places.plan(), nodes, ways)?;
        let lists = Lists::new(alloc, &places)?;
        let longest = longest_message(places.plan());
        let in_order = count_in_order(&members);
        Ok(Wire {
            places,
            terms,
            words,
            members,
            replies: Replies::new(alloc, longest),
            events: Vec::new(alloc),
            room: 0,
            in_order,
            lists,
        })
    }

    /// The words that all nodes share.
    pub fn words(&self) -> &[u64]
        ensures { result.now ≡ self.now.words }
    {
        &self.words
    }

    /// The finished calls in the order of their ends.
    pub fn replies(&self) -> &Replies
        ensures { result.now.finished ≡ self.now.replies }
    {
        &self.replies
    }

    /// The moments that nodes made, in their order.
    pub fn events(&self) -> &[WireEvent]
        ensures { map (λ e. (e.node, e.event)) result.now ≡ self.now.events }
    {
        &self.events
    }

    /// Where the node of that number stands.
    #[inline(always)]
    pub(crate) fn place(&self, node: u64) -> Option<usize>
        ensures first { result ≡ position (λ x. x.number == node) self.now.nodes }
        ensures within { IfSome result (λ place. place < length self.now.nodes) }
    {
        let own = node as usize;
        if own < self.in_order {
            return Some(own);
        }
        self.search(node)
    }

    /// The same, by looking at one node after another.
    #[cold]
    #[inline(never)]
    fn search(&self, node: u64) -> Option<usize>
        ensures first { result ≡ position (λ x. x.number == node) self.now.nodes }
        ensures within { IfSome result (λ place. place < length self.now.nodes) }
    {
        place_of(&self.members, node)
    }

    /// Where the living node of that number stands.
    pub(crate) fn living(&self, node: u64) -> Result<usize, WireRefusal>
        ensures first { IfOk result (λ place.
            position (λ x. x.number == node) self.now.nodes ≡ Some place) }
        ensures within { IfOk result (λ place. place < length self.now.nodes) }
        ensures alive { OnOk result (living_refusal self.now.nodes node ≡ None) }
        ensures refused { IfErr result (λ error. living_refusal self.now.nodes node ≡ Some error) }
        ensures memory { IfErr result (λ error. error ≡ WantOfMemory → ⊥) }
    {
        let Some(place) = self.place(node) else {
            return Err(WireRefusal::UnknownNode);
        };
        if self.members[place].is_alive() {
            return Ok(place);
        }
        Err(WireRefusal::NodeIsDead)
    }

    /// Makes room for what so many more steps record: none of them wants memory then.
    pub fn reserve(&mut self, steps: usize) -> Result<(), AllocError>
        ensures reserved { OnOk result (self.new
            ≡ record (self.old) { room = max self.old.room steps }) }
        ensures unchanged { OnErr result (self.new ≡ self.old) }
        ensures succeeds { steps ≤ self.old.room → IsOk result }
    {
        if steps <= self.room {
            return Ok(());
        }
        self.replies.reserve(steps)?;
        self.events.reserve(steps)?;
        self.room = steps;
        Ok(())
    }

    /// One access of the node's call. Where there is no room for what it records, it makes some.
    #[inline(never)]
    pub fn step(&mut self, node: u64) -> Result<Progress<NodeReply>, WireRefusal>
        ensures one_access { OnOk result (MakesItsAccess self.old node self.new) }
        ensures weave { IfOk result (λ progress. StepIsWoven self.old node progress self.new) }
        ensures own { IfOk result (IsOwnAnswer self.old node) }
        ensures read { IfOk result (λ progress. KeepsRead self.old node progress self.new) }
        ensures room { OnOk result (self.new.room + 1 ≡ max self.old.room 1) }
        ensures allowed { OnOk result (step_refusal self.old node ≡ None) }
        ensures refused { IfErr result (IsRefusal WantOfMemory (step_refusal self.old node)) }
        ensures full { IfErr result (λ error. error ≡ WantOfMemory → self.old.room ≡ 0) }
        ensures unchanged { OnErr result (self.new ≡ self.old) }
    {
        let place = self.living(node)?;
        if let Some(refusal) = self.members[place].rest_refusal() {
            return Err(refusal);
        }
        if let Err(_) = self.reserve(1) {
            return Err(WireRefusal::WantOfMemory);
        }
        match self.make_step(node, place) {
            Progress::Going => return going(),
            Progress::Done(reply) => return done(reply),
        }
    }

    /// One access of a node that stands there and may make a step, which finds room.
    #[inline(always)]
    fn make_step(&mut self, node: u64, place: usize) -> Progress<NodeReply>
        requires there { position (λ x. x.number == node) self.old.nodes ≡ Some place }
        requires within { place < length self.old.nodes }
        requires goes { step_refusal self.old node ≡ None }
        requires room { 0 < self.old.room }
        ensures one_access { MakesItsAccess self.old node self.new }
        ensures weave { StepIsWoven self.old node result self.new }
        ensures own { IsOwnAnswer self.old node result }
        ensures read { KeepsRead self.old node result self.new }
        ensures room { self.new.room + 1 ≡ self.old.room }
    {
        if self.quiet_step(node, place) {
            return Progress::Going;
        }
        self.any_step(node, place)
    }

    /// The same, if that access is no moment, and the call goes on behind it: the usual way of a
    /// step. `false` says that nothing changed.
    #[inline(always)]
    fn quiet_step(&mut self, node: u64, place: usize) -> bool
        requires there { position (λ x. x.number == node) self.old.nodes ≡ Some place }
        requires within { place < length self.old.nodes }
        requires goes { step_refusal self.old node ≡ None }
        requires room { 0 < self.old.room }
        ensures one_access { OnTrue result (MakesItsAccess self.old node self.new) }
        ensures weave { OnTrue result (StepIsWoven self.old node Going self.new) }
        ensures read { OnTrue result (KeepsRead self.old node Going self.new) }
        ensures room { OnTrue result (self.new.room + 1 ≡ self.old.room) }
        ensures unchanged { OnFalse result (self.new ≡ self.old) }
    {
        let member = &mut self.members[place];
        let Some(_) = member.quiet_step(&mut self.words) else {
            return false;
        };
        self.room = self.room - 1;
        true
    }

    /// The same, whatever that access is.
    #[inline(always)]
    fn any_step(&mut self, node: u64, place: usize) -> Progress<NodeReply>
        requires there { position (λ x. x.number == node) self.old.nodes ≡ Some place }
        requires within { place < length self.old.nodes }
        requires goes { step_refusal self.old node ≡ None }
        requires room { 0 < self.old.room }
        ensures one_access { MakesItsAccess self.old node self.new }
        ensures weave { StepIsWoven self.old node result self.new }
        ensures own { IsOwnAnswer self.old node result }
        ensures read { KeepsRead self.old node result self.new }
        ensures room { self.new.room + 1 ≡ self.old.room }
    {
        let member = &self.members[place];
        let seen = member.make_access(&mut self.words);
        let told = member.event(seen);
        note(&self.places, &self.members, node, told, &mut self.events);
        self.room -= 1;
        let member = &mut self.members[place];
        let Some(reply) = member.go_on(seen) else {
            return Progress::Going;
        };
        let ended = self.events.len();
        member.tell(reply, ended, &mut self.replies);
        Progress::Done(reply)
    }

    /// The node stops for good, wherever it is in its call.
    pub fn declare_dead(&mut self, node: u64) -> Result<(), WireRefusal>
        ensures weave { OnOk result (DeathIsWoven self.old node self.new) }
        ensures lost { OnOk result (Loses self.old node self.new) }
        ensures room { self.new.room ≡ self.old.room }
        ensures allowed { OnOk result (living_refusal self.old.nodes node ≡ None) }
        ensures refused { IfErr result (λ error. living_refusal self.old.nodes node ≡ Some error) }
        ensures unchanged { OnErr result (self.new ≡ self.old) }
    {
        let place = self.living(node)?;
        let before = self.events.len();
        self.members[place].die(before);
        Ok(())
    }
}

/// What a step answers whose call continues. Written where it ends, it is zeros only, in a few
/// stores.
#[inline(always)]
fn going() -> Result<Progress<NodeReply>, WireRefusal>
    ensures { result ≡ Ok Going }
{
    Ok(Progress::Going)
}

/// What a step answers whose call is over.
#[inline(always)]
fn done(reply: NodeReply) -> Result<Progress<NodeReply>, WireRefusal>
    ensures { result ≡ Ok (Done reply) }
{
    Ok(Progress::Done(reply))
}

/// How many of the first nodes stand at the places of their numbers.
fn count_in_order(members: &[Member]) -> usize
    ensures { StandInOrder result members.now }
{
    for place in 0..members.len() {
        let Some(first) = place_of(members, place as u64) else {
            return place;
        };
        if first != place {
            return place;
        }
    }
    members.len()
}

/// So many zeros.
fn zeros(alloc: Global, count: usize) -> Result<Vec<u64>, AllocError>
    ensures { IfOk result (λ words. words.items ≡ replicate count 0) }
{
    vec![in alloc; 0u64; count]
}
