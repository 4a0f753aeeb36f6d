//! Single changes of slots and of handles.
ghost use Rattle.std.specs.List.{list_any};
ghost use Rattle.std.specs.Prelude.{◌≡◌, ◌==◌, ◌<◌, IfSome, IsSome, None, ◌↔◌, false, filter, is_some, map, true};
ghost use Rattle.std.specs.Bool.{OnFalse};
ghost use Rattle.std.specs.Option.{option_map};
ghost use Rattle.iox_handles.specs.Least.{least};
ghost use Rattle.iox_hub_ports.specs.HubStates.Ends.{with_changed};
ghost use Rattle.iox_hub_ports.specs.HubStates.Tables.{pool_at, slot_at, slots_of};
ghost use Rattle.iox_hub_ports.specs.HubStates.Wirings.{handle_in};
ghost use Rattle.iox_slots.specs.Pools.{Takes, free_count, has_slot, is_taken_at, with_slot};
ghost use Rattle.iox_slots.specs.Lanes.{is_lane_held, own_lane};
ghost use Rattle.iox_slots.specs.Slots.{let_go, rewritten, taken, written};
ghost use Rattle.iox_control.specs.Controls.{with_handle_dropped, with_pools, with_tables};
ghost use Rattle.iox_control.specs.Entries.{handle_state};

use crate::control::Control;
use iox_handles::{Entry, Numbered};

impl Control {
    // ---- slots

    /// One has a slot that nobody had, of a pool that is there, with that message, and this is its
    /// number. It is `None` exactly if there is none, and then nothing changes.
    #[inline(always)]
    pub fn take(
        &mut self,
        pool: usize,
        serial: u64,
        lane: u64,
        request: u64,
        elements: u64,
    ) -> Option<u64>
        requires { is_some (pool_at self.old.tables.pools pool) ≡ true }
        ensures taken { IfSome result (λ k. Takes self.old.tables.pools pool k
            (taken serial lane request elements) self.new.tables.pools) }
        ensures left { self.new ≡ with_pools self.old self.new.tables.pools }
        ensures full { result ≡ None ↔ free_count self.old.tables.pools pool ≡ 0 }
        ensures unchanged { result ≡ None → self.new ≡ self.old }
    {
        self.pools.take_of(pool, serial, lane, request, elements)
    }

    /// The same, on the slot's own lane, on which nobody had a message of the pool. It is also
    /// `None` where it is not known that all messages are on their slots' own lanes.
    #[inline(always)]
    pub fn take_own(&mut self, pool: usize, serial: u64, request: u64, elements: u64) -> Option<u64>
        requires { is_some (pool_at self.old.tables.pools pool) ≡ true }
        ensures unheld { IfSome result (λ k.
            is_lane_held (slots_of self.old.tables.pools pool)
            (own_lane (slots_of self.old.tables.pools pool) k) ≡ false) }
        ensures taken { IfSome result (λ k. Takes self.old.tables.pools pool k
            (taken serial (own_lane (slots_of self.old.tables.pools pool) k) request elements)
            self.new.tables.pools) }
        ensures left { self.new ≡ with_pools self.old self.new.tables.pools }
        ensures unchanged { result ≡ None → self.new ≡ self.old }
    {
        self.pools.take_own(pool, serial, request, elements)
    }

    /// Writes another message into a slot that is there, on the lane of the one before. Who has the
    /// slot still has it.
    #[inline(always)]
    pub fn rewrite_slot(&mut self, pool: usize, slot: u64, serial: u64, request: u64, elements: u64)
        requires { has_slot self.old.tables.pools pool slot ≡ true }
        ensures { self.new ≡ with_pools self.old
            (with_slot (rewritten serial request elements) self.old.tables.pools pool slot) }
    {
        self.pools.rewrite(pool, slot, serial, request, elements);
    }

    /// Writes another message into a slot, and says whether there is such a slot. Who has the slot
    /// still has it.
    pub fn write_slot(
        &mut self,
        pool: usize,
        slot: u64,
        serial: u64,
        lane: u64,
        request: u64,
        elements: u64,
    ) -> bool
        ensures there { result ≡ has_slot self.old.tables.pools pool slot }
        ensures written { self.new ≡ with_pools self.old
            (with_slot (written serial lane request elements) self.old.tables.pools pool slot) }
    {
        self.pools
            .write(pool, slot, serial, lane, request, elements)
    }

    /// One less has a slot, and says whether anybody had it: where nobody did, nothing changes.
    pub fn let_go(&mut self, pool: usize, slot: u64) -> bool
        ensures had { result ≡ is_taken_at self.old.tables.pools pool slot }
        ensures left { self.new ≡ with_pools self.old
            (with_slot let_go self.old.tables.pools pool slot) }
        ensures unchanged { OnFalse result (self.new ≡ self.old) }
    {
        self.pools.let_go(pool, slot)
    }

    /// One less has a slot that somebody has.
    #[inline(always)]
    pub fn let_go_of(&mut self, pool: usize, slot: u64)
        requires { 0 < (slot_at self.old.tables.pools pool slot).holders }
        ensures left { self.new ≡ with_pools self.old
            (with_slot let_go self.old.tables.pools pool slot) }
    {
        self.pools.let_go_of(pool, slot);
    }

    // ---- handles

    /// Whether that port has a handle. Where the handles of a port go one after another, and this
    /// is asked after each, it looks at each place of the table a few times in all.
    #[inline]
    pub fn has_handles(&mut self, port: u64) -> bool
        ensures told { result ≡ list_any (λ h. h.port == port) self.old.tables.handles }
        ensures unchanged { self.new ≡ self.old }
    {
        self.handles.has_any(port)
    }

    /// The node's handle of the least number, by that number and where it is looked for first.
    /// Where a node's handles go one after another, and this is asked after each, it looks at each
    /// place of the table a few times in all. It takes no memory.
    #[inline]
    pub fn first_handle(&mut self, node: u64) -> Option<Numbered>
        ensures first { option_map (λ v. v.number) result ≡ least
            (map (λ h. h.number) (filter (λ h. h.node == node) self.old.tables.handles)) }
        ensures unchanged { self.new ≡ self.old }
    {
        self.handles.first_of(node)
    }

    /// A handle of that node and number is as it is now; it is looked for at the hint first. Where
    /// there is none, nothing changes.
    #[inline(always)]
    pub fn change_handle(&mut self, entry: Entry, hint: usize)
        ensures { self.new ≡ with_tables self.old
            (with_changed self.old.tables (handle_state entry)) }
    {
        self.handles.change_of(entry, hint);
    }

    /// Removes the node's handle of that number, which is looked for at the hint first. It leaves
    /// room for another.
    #[inline(always)]
    pub fn remove_handle(&mut self, node: u64, number: u64, hint: usize) -> Option<Entry>
        ensures found { option_map handle_state result
            ≡ handle_in self.old.tables.handles node number }
        ensures dropped { IsSome result → self.new ≡ with_handle_dropped self.old node number }
        ensures unchanged { result ≡ None → self.new ≡ self.old }
    {
        self.handles.remove_of(node, number, hint)
    }
}
