//! The tables of a hub.
ghost use Rattle.std.specs.Prelude.{◌≡◌, ◌+◌, ◌-◌, ◌<◌, ◌^◌, IfOk, IfSome, Some, false, is_some, map, true};
ghost use Rattle.iox_control.specs.Settings.{settings_of};
ghost use Rattle.iox_hub_ports.specs.HubStates.States.{Given, limits_of, state_shown};
ghost use Rattle.iox_model.specs.Runs.{at_rest, raised, untouched};
ghost use Rattle.iox_model.specs.Settings.{Limits};
ghost use Rattle.iox_hub_ports.specs.HubStates.Ends.{with_call};
ghost use Rattle.iox_hub_ports.specs.HubStates.Receives.{got_handle, visits_at, wanted_by_server, with_visited};
ghost use Rattle.iox_hub_ports.specs.HubStates.Tables.{labels_of, pool_at, port_in, slot_at};
ghost use Rattle.iox_hub_ports.specs.HubStates.Asks.{waits_for};
ghost use Rattle.iox_hub_ports.specs.HubStates.Changes.{with_states};
ghost use Rattle.iox_hub_ports.specs.HubStates.Wirings.{numbers_of_role};
ghost use Rattle.iox_model.specs.Messages.{hinted_for, response_way};
ghost use Rattle.iox_model.specs.declared.kind.Role.TheVariants.{Server};
ghost use Rattle.iox_hub_ports.specs.HubStates.Wirings.{handle_in};
ghost use Rattle.std.specs.Option.{option_map, option_map_or};
ghost use Rattle.iox_slots.specs.Pools.{has_slot, with_slot};
ghost use Rattle.iox_slots.specs.Slots.{held};
ghost use Rattle.iox_control.specs.Controls.{ControlState, HaveBuffers, IsControl, new_control, with_got, with_handle, with_tables};
ghost use Rattle.iox_control.specs.Entries.{handle_state};

use crate::settings::Settings;
use iox_handles::{Entry, Table, kept_place};
use iox_hub_ports::ports::Ports;
use iox_lanes::incoming::Visits;
use iox_lanes::wanted::{Label, Labels, Wanted};
use iox_model::kind::{Kind, Role};
use iox_slots::Pools;
use std::alloc::{AllocError, Global};
use std::marker::Model;

/// All that a hub has but the words of messages: its settings and counts, the connected ports, the
/// handles and the slots of messages.
#[derive(Drop)]
pub struct Control {
    pub(crate) settings: Settings,
    pub(crate) calls: u64,
    // It stands between the two counts that each new handle raises. Side by side, a compiler adds to
    // both at once, which takes longer.
    pub(crate) ports_made: u64,
    pub(crate) next_number: u64,
    pub(crate) ports: Ports,
    pub(crate) handles: Table,
    // Where the handle that came last is.
    pub(crate) last_place: usize,
    pub(crate) pools: Pools,
}

impl Model for Control {
    ghost use Rattle.std.specs.Prelude.{◌≤◌};
    ghost use Rattle.iox_control.specs.Controls.{ControlState, control_of};

    ghost Value = { ControlState };

    ghost view = { λ c. control_of c.settings c.calls c.next_number c.ports_made c.ports c.handles
        c.pools };

    ghost invariant = { λ c. c.handles.next ≤ c.next_number };
}

impl Control {
    /// A hub of these settings, in which no port was made yet. It fails only for want of memory.
    pub fn new(alloc: Global, settings: Settings) -> Result<Control, AllocError>
        ensures made { IfOk result (λ c. c ≡ new_control (settings_of settings)) }
        ensures order { HaveBuffers (settings_of settings) → IfOk result IsControl }
        ensures shown { IfOk result (λ c. (x : Given) (l : Limits) → limits_of x c.tables ≡ raised l
            → state_shown x c.tables ≡ at_rest x.members (untouched l x.acts)) }
    {
        Ok(Control {
            settings,
            calls: 0,
            next_number: 0,
            ports_made: 0,
            ports: Ports::new(alloc, 0)?,
            handles: Table::new(alloc, 0)?,
            last_place: 0,
            pools: Pools::new(alloc),
        })
    }

    /// The node's handle of that number, which is looked for at the hint first.
    #[inline(always)]
    pub fn entry(&self, node: u64, number: u64, hint: usize) -> Option<Entry>
        ensures { option_map handle_state result ≡ handle_in self.now.tables.handles node number }
    {
        let entry = self.handles.find(number, hint)?;
        if entry.node == node {
            return Some(entry);
        }
        None
    }

    /// The node's handle of that number, which it has. It is looked for at the hint first.
    #[inline(always)]
    pub fn known(&self, _node: u64, number: u64, hint: usize) -> Entry
        requires { is_some (handle_in self.now.tables.handles _node number) ≡ true }
        ensures { Some (handle_state result) ≡ handle_in self.now.tables.handles _node number }
    {
        self.handles.known(number, hint)
    }

    /// The node's handle of that number, if it is at the hint.
    #[inline(always)]
    pub fn near(&self, node: u64, number: u64, hint: usize) -> Option<Entry>
        ensures { IfSome result (λ entry. Some (handle_state entry)
            ≡ handle_in self.now.tables.handles node number) }
    {
        let entry = self.handles.near(number, hint)?;
        if entry.node != node {
            return None;
        }
        Some(entry)
    }

    /// The node's handle of that number, which it has, if it is at the hint.
    #[inline(always)]
    pub fn near_known(&self, _node: u64, number: u64, hint: usize) -> Option<Entry>
        requires { is_some (handle_in self.now.tables.handles _node number) ≡ true }
        ensures { IfSome result (λ entry. Some (handle_state entry)
            ≡ handle_in self.now.tables.handles _node number) }
    {
        self.handles.near_known(number, hint)
    }

    /// The label of the message in that slot.
    #[inline]
    pub fn label(&self, pool: usize, slot: u64) -> Label
        ensures { result ≡ labels_of self.now.tables.pools pool slot }
    {
        self.pools.label(pool, slot)
    }

    /// The label of the message in a slot that is there.
    #[inline(always)]
    pub fn label_of(&self, pool: usize, slot: u64) -> Label
        requires { has_slot self.now.tables.pools pool slot ≡ true }
        ensures { result ≡ labels_of self.now.tables.pools pool slot }
    {
        self.pools.label_of(pool, slot)
    }

    /// Whether something waits for the port on that lane, from some sender.
    #[inline]
    pub fn has_waiting(&self, port: u64, lane: u64) -> bool
        ensures { result ≡ option_map_or (λ p. waits_for p lane)
            (port_in self.now.tables.ports port) false }
    {
        self.ports.has_waiting(port, lane)
    }

    /// Says of that request, on its lane, to each server that its client lost interest.
    pub fn hint_all(&mut self, client: u64, label: Label)
        ensures { self.new ≡ with_tables self.old (with_states (λ r. hinted_for r label.request)
            self.old.tables (map (response_way client label.lane)
            (numbers_of_role Server self.old.tables.ports))) }
    {
        self.ports.hint_all(client, label.lane, label.request);
    }

    /// Visits that lane of each sender to the port, until one gives a message. The port is looked
    /// for at the hint first.
    #[inline(always)]
    pub fn visit(&mut self, port: u64, at: usize, lane: u64, wanted: Wanted) -> Visits
        ensures visits { result ≡ visits_at self.old.tables port lane wanted }
        ensures visited { self.new ≡ with_tables self.old
            (with_visited self.old.tables port lane wanted) }
    {
        self.ports.visit_near(port, at, lane, wanted, &self.pools)
    }

    /// Counts one call more.
    #[inline]
    pub fn count_call(&mut self)
        requires { self.old.tables.calls + 1 < 2 ^ 64 }
        ensures { self.new ≡ with_tables self.old (with_call self.old.tables) }
    {
        self.calls += 1;
    }

    /// Adds a handle, whose number is the next one.
    #[inline(always)]
    pub fn add_handle(&mut self, entry: Entry)
        requires room { 0 < self.old.room }
        requires number { entry.number ≡ self.old.tables.next_number }
        requires count { entry.number + 1 < 2 ^ 64 }
        ensures { self.new ≡ with_handle self.old (handle_state entry) }
    {
        self.last_place = self.handles.add(entry);
        self.next_number += 1;
    }

    /// What a server is handed: under fire-and-forget any request, else those that are still named.
    #[inline]
    pub fn wanted_by_server(&self) -> Wanted
        ensures { result ≡ wanted_by_server self.now.tables.settings.fire_and_forget }
    {
        if self.settings.fire_and_forget {
            return Wanted::Any;
        }
        Wanted::Named
    }

    /// One more has a message that somebody has.
    #[inline]
    pub fn hold(&mut self, pool: usize, slot: u64)
        requires taken { 0 < (slot_at self.old.tables.pools pool slot).holders }
        requires fits { (slot_at self.old.tables.pools pool slot).holders < 2 ^ 64 - 1 }
        ensures { self.new ≡ with_tables self.old
            (record (self.old.tables) { pools = with_slot held self.old.tables.pools pool slot }) }
    {
        self.pools.hold(pool, slot);
    }

    /// The handle of the message in that slot for a port of that role, with the next number. The
    /// port is looked for at the hint first. The pool is there.
    #[inline(always)]
    pub fn got_entry(
        &self,
        node: u64,
        role: Role,
        port: u64,
        at: usize,
        pool: usize,
        slot: u64,
    ) -> Entry
        requires { is_some (pool_at self.now.tables.pools pool) ≡ true }
        ensures { handle_state result ≡ got_handle self.now.tables node role port pool slot }
    {
        let (kind, client) = match role {
            Role::Client => (Kind::Response, port),
            Role::Server => (Kind::ActiveRequest, self.pools.owner_of(pool)),
        };
        Entry {
            node,
            number: self.next_number,
            kind,
            at: kept_place(at),
            port,
            pool,
            slot,
            client,
            connections: 0,
        }
    }

    /// Hands the message in that slot to a port of that role: it has a handle, and the call is
    /// counted. The port is looked for at the hint first.
    #[inline(always)]
    pub fn got(
        &mut self,
        node: u64,
        role: Role,
        port: u64,
        at: usize,
        pool: usize,
        slot: u64,
    ) -> u64
        requires room { 0 < self.old.room }
        requires number { self.old.tables.next_number + 1 < 2 ^ 64 }
        requires calls { self.old.tables.calls + 1 < 2 ^ 64 }
        requires taken { 0 < (slot_at self.old.tables.pools pool slot).holders }
        requires fits { (slot_at self.old.tables.pools pool slot).holders < 2 ^ 64 - 1 }
        ensures number { result ≡ self.old.tables.next_number }
        ensures got { self.new ≡ with_got self.old node role port pool slot }
    {
        let entry = self.got_entry(node, role, port, at, pool, slot);
        self.hold(pool, slot);
        self.add_handle(entry);
        self.count_call();
        entry.number
    }
}
