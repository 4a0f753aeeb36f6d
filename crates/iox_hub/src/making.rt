//! Ports are made.
ghost use Rattle.std.specs.Prelude.{ℕ, ◌≡◌, ◌≤◌, ◌^◌, ◌&&◌, IfOk, IfSome, IsErr, OnErr, OnOk, true};
ghost use Rattle.std.specs.Option.{option_map};
ghost use Rattle.iox_types.specs.Layouts.{as_usize};
ghost use Rattle.iox_model.specs.declared.kind.Kind.{Kind};
ghost use Rattle.iox_model.specs.Makings.{worst_pool};
ghost use Rattle.iox_tables.specs.HubStates.States.{Given, limits_of};
ghost use Rattle.iox_tables.specs.HubLoans.Questions.{kind_of_role};
ghost use Rattle.iox_slots.specs.Pools.{place_for_one};
ghost use Rattle.iox_backpressure.specs.Answers.{shown_by};
ghost use Rattle.iox_backpressure.specs.Handlers.{handlers_with};
ghost use Rattle.iox_control_making.specs.Making.{AsksFor};
ghost use Rattle.iox_hub.specs.Hubs.{HasValue, given_by};
ghost use Rattle.iox_hub.specs.Keeping.{KeepsAll};
ghost use Rattle.iox_hub.specs.Making.{IsAllowed, IsFormOf, IsWholeMaking, IsWithoutMemory, LeavesMessages, StaysAs};
ghost use Rattle.iox_hub.specs.Making.{options_of, shape_in, words_made};
ghost use Rattle.iox_hub.specs.Sending.{HasNothing};
ghost use Rattle.iox_hub.specs.Words.{carried};

use crate::hub::Hub;
use crate::options::Options;
use crate::pools::{Form, asked_of, worst_pool};
use crate::words::PoolWords;
use iox_backpressure::Backpressure;
use iox_control_making::{Asked, NotMade, make_port};
use iox_model::kind::Role;
use iox_slots::Pools;
use iox_store::{Payload, Store};
use iox_types::identifiers::UniqueSystemId;
use iox_words::Words;
use std::alloc::{AllocError, Global};

/// Where the next pool will be: the first vacant place, or the one behind the last.
fn next_place(pools: &Pools) -> Option<usize>
    ensures { IfSome result (λ place. place ≡ place_for_one pools.now) }
{
    for place in 0..usize::MAX {
        if pools.ids(place).is_none() {
            return Some(place);
        }
    }
    None
}

impl<Q: Payload, QH: Words, P: Payload, PH: Words, H: Backpressure> Hub<Q, QH, P, PH, H> {
    /// What the size of a port of that role depends on.
    fn form(&self, role: Role) -> Form
        ensures { IsFormOf result (shape_in self.now role) }
    {
        match role {
            Role::Client => self.request.form(Q::MANY),
            Role::Server => self.response.form(P::MANY),
        }
    }

    /// What the options ask for.
    fn asked(&self, role: Role, options: Options) -> Asked
        ensures { (x : Given) → AsksFor (given_by x self.now) self.now.control.tables role
            (options_of options) result }
    {
        asked_of(self.control.settings(), self.form(role), role, options)
    }

    /// The most messages that a port of that role needs, if a `usize` counts them: how many its
    /// pool has where nothing is chosen.
    pub fn worst_pool(&self, role: Role, options: Options) -> Option<usize>
        ensures { (x : Given) → result
            ≡ as_usize (worst_pool (limits_of (given_by x self.now) self.now.control.tables) role
            (options_of options)) }
    {
        worst_pool(self.control.settings(), role, options)
    }

    /// Why no port is made where there is no memory.
    pub fn without_memory(&self) -> NotMade
        ensures { IsWithoutMemory self.now result }
    {
        if self.control.ports_made() >= 1 << 32 {
            return NotMade::PortTag;
        }
        NotMade::DataSegment
    }

    /// The words of a new port of that role, with so many messages, each of so many elements.
    fn words_for(
        &self,
        alloc: Global,
        role: Role,
        size: usize,
        longest: usize,
    ) -> Result<PoolWords<Q::Element, QH, P::Element, PH>, AllocError>
        ensures { IfOk result (λ words. carried words ≡ words_made self.now role size longest) }
    {
        match role {
            Role::Client => Ok(PoolWords::Requests(Store::new(
                alloc,
                size,
                longest,
                self.request.user_header(),
            )?)),
            Role::Server => Ok(PoolWords::Responses(Store::new(
                alloc,
                size,
                longest,
                self.response.user_header(),
            )?)),
        }
    }

    /// Makes a port of that role for the node with that id, with this handler or with none, and
    /// tells its number. Where it is refused, all stays. Its messages have memory for the greatest
    /// length; where they grow, a loan past it asks for more.
    pub fn make_port(
        &mut self,
        alloc: Global,
        node: u64,
        role: Role,
        id: UniqueSystemId,
        options: Options,
        handler: Option<H>,
    ) -> Result<u64, NotMade>
        ensures number { IfOk result (λ n. n ≡ self.old.control.tables.next_number) }
        ensures has { IfOk result (λ n. HasValue self.new node n (kind_of_role role)) }
        ensures allowed { OnOk result (IsAllowed self.old role options) }
        ensures whole { IsWholeMaking self.old node role id options
            (option_map (shown_by H.action) handler) result self.new }
        ensures handlers { OnOk result (self.new.handlers
            ≡ handlers_with self.new.control.tables.ports self.old.control.tables.next_number
            (option_map (shown_by H.action) handler) self.old.handlers) }
        ensures unchanged { OnErr result (StaysAs self.old self.new) }
        ensures new { IfOk result (λ n. HasNothing self.old node n) }
        ensures keeps { (other : ℕ) (n : ℕ) (kind : Kind) → HasValue self.old other n kind
            → HasValue self.new other n kind }
        ensures stays { KeepsAll self.old self.new }
        ensures messages { LeavesMessages self.old self.new }
    {
        let asked = self.asked(role, options);
        if self.control.ports_made() >= 1 << 32 {
            return Err(NotMade::PortTag);
        }
        if asked.large {
            return Err(NotMade::DataSegment);
        }
        let Some(place) = next_place(self.control.pools()) else {
            return Err(NotMade::DataSegment);
        };
        let Ok(words) = self.words_for(alloc, role, asked.size, asked.longest as usize) else {
            return Err(NotMade::DataSegment);
        };
        if self.words.make_room(place).is_err() {
            return Err(NotMade::DataSegment);
        }
        if self.handlers.make_room(handler).is_err() {
            return Err(NotMade::DataSegment);
        }
        let number = match make_port(&mut self.control, alloc, node, role, id, asked) {
            Ok(number) => number,
            Err(reason) => return Err(reason),
        };
        self.words.put(place, words);
        self.handlers.set(self.control.ports(), number, handler);
        Ok(number)
    }
}
