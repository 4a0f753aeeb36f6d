//! What deliveries and get-backs change of a desk.
ghost use Rattle.std.specs.Prelude.{◌≡◌};

use super::StoredDesk;
use iox_model::way::Way;
use std::alloc::{AllocError, Global};

impl StoredDesk {
    ghost use Rattle.std.specs.Prelude.{◌≡◌, ◌<◌, ◌++◌, ◌∷◌, [], OnErr, OnOk, false, map};
    ghost use Rattle.std.specs.Prelude.{slice_index};
    ghost use Rattle.iox_model.specs.Maps.{has_way};
    ghost use Rattle.iox_wire_locals.specs.Desks.{delivers, gets_back};
    ghost use Rattle.iox_wire_seats.specs.Desks.{MayDeliverAt};

    /// The port sends on one more way.
    pub fn add_way(&mut self, alloc: Global, way: Way) -> Result<(), AllocError>
        requires { has_way way (map (λ r. r.way) self.old.recorded) ≡ false }
        ensures added { OnOk result (self.new ≡ record (self.old) {
          recorded = self.old.recorded ++ record { way = way; slots = [] } ∷ [];
        }) }
        ensures unchanged { OnErr result (self.new ≡ self.old) }
    {
        let pool = self.uses.len();
        self.recorded.add_way(alloc, way, pool)
    }

    /// The message of a slot was delivered on a way: it is in use there, too.
    pub fn deliver(&mut self, way: Way, slot: u64)
        requires { MayDeliverAt way slot self.old }
        ensures { self.new ≡ delivers way slot self.old }
    {
        self.recorded.note(way, slot);
        self.use_more(slot as usize);
    }

    /// It was got back from there.
    pub fn get_back(&mut self, way: Way, slot: u64)
        requires { 0 < slice_index self.old.uses slot }
        ensures { self.new ≡ gets_back way slot self.old }
    {
        self.recorded.take_back(way, slot);
        self.use_less(slot as usize);
    }
}
