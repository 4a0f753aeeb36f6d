//! Slots of which the caller knows that they are there, or that somebody has them, and pools that
//! are there: nothing is tested.
ghost use Rattle.std.specs.Prelude.{◌≡◌, ◌<◌, ◌+◌, ◌-◌, ◌==◌, ◌↔◌, IfSome, IsSome, None, is_some, length, true};
ghost use Rattle.iox_tables.specs.HubStates.Tables.{labels_of, owner_of, pool_at, slot_at, slots_of};
ghost use Rattle.iox_slots.specs.Pools.{Takes, free_count, freed_by_one, has_slot, is_idle, with_slot};
ghost use Rattle.iox_slots.specs.Slots.{let_go, taken};

use crate::left::Left;
use crate::pools::Pools;
use iox_tables::wanted::Label;

impl Pools {
    /// The label of the message in a slot that is there.
    #[inline(always)]
    pub fn label_of(&self, place: usize, slot: u64) -> Label
        requires { has_slot self.now place slot ≡ true }
        ensures { result ≡ labels_of self.now place slot }
    {
        self.places[place].label(slot)
    }

    /// How many elements the message has in a slot that is there.
    #[inline(always)]
    pub fn elements_of(&self, place: usize, slot: u64) -> u64
        requires { has_slot self.now place slot ≡ true }
        ensures { result ≡ (slot_at self.now place slot).elements }
    {
        self.places[place].elements(slot)
    }

    /// One less has a slot that somebody has, of which this was known: its slot is looked for once.
    #[inline(always)]
    pub fn leave(&mut self, place: usize, slot: u64) -> Left
        requires taken { 0 < (slot_at self.old place slot).holders }
        ensures label { result.label ≡ labels_of self.old place slot }
        ensures owner { result.owner ≡ owner_of self.old place }
        ensures idle { result.idle ≡ is_idle self.new place }
        ensures left { self.new ≡ with_slot let_go self.old place slot }
    {
        self.places[place].leave_known(slot)
    }

    #[inline(always)]
    fn leave_at(&mut self, place: usize, slot: u64)
        requires { 0 < (slot_at self.old place slot).holders }
        ensures { self.new ≡ with_slot let_go self.old place slot }
    {
        self.places[place].leave(slot);
    }

    /// One less has a slot that somebody has. A slot that nobody has can be acquired again.
    #[inline(always)]
    pub fn let_go_of(&mut self, place: usize, slot: u64)
        requires taken { 0 < (slot_at self.old place slot).holders }
        ensures left { self.new ≡ with_slot let_go self.old place slot }
        ensures less { (slot_at self.new place slot).holders
            ≡ (slot_at self.old place slot).holders - 1 }
        ensures counted { free_count self.new place
            ≡ free_count self.old place + freed_by_one self.old place slot }
    {
        self.leave_at(place, slot);
    }

    /// One has a slot that nobody had, of a pool that is there, with that message, and this is its
    /// number. It is `None` exactly if there is none, and then nothing changes.
    #[inline(always)]
    pub fn take_of(
        &mut self,
        place: usize,
        serial: u64,
        lane: u64,
        request: u64,
        elements: u64,
    ) -> Option<u64>
        requires there { is_some (pool_at self.old place) ≡ true }
        ensures taken { IfSome result (λ k.
            Takes self.old place k (taken serial lane request elements) self.new) }
        ensures full { result ≡ None ↔ free_count self.old place ≡ 0 }
        ensures unchanged { result ≡ None → self.new ≡ self.old }
    {
        match self.take_there(place, serial, lane, request, elements) {
            Some(slot) => Some(slot),
            None => None,
        }
    }

    // ---- a pool that is there

    /// Whether nobody has any of its slots.
    #[inline(always)]
    pub fn is_idle_of(&self, place: usize) -> bool
        requires { is_some (pool_at self.now place) ≡ true }
        ensures { result ≡ is_idle self.now place }
    {
        self.places[place].is_idle()
    }

    /// Whether somebody has just one of its slots.
    #[inline(always)]
    pub fn has_one_out(&self, place: usize) -> bool
        requires { is_some (pool_at self.now place) ≡ true }
        ensures { result
            ≡ (length (slots_of self.now place) - free_count self.now place == 1) }
    {
        let pool = &self.places[place];
        pool.len() - pool.free_len() == 1
    }

    /// The port whose pool it is.
    #[inline(always)]
    pub fn owner_of(&self, place: usize) -> u64
        requires { is_some (pool_at self.now place) ≡ true }
        ensures { result ≡ owner_of self.now place }
    {
        self.places[place].port()
    }

    /// Where that port likely stands among the ports. A wrong place is only slower.
    #[inline(always)]
    pub fn at(&self, place: usize) -> usize
        requires { is_some (pool_at self.now place) ≡ true }
    {
        self.places[place].at()
    }
}
