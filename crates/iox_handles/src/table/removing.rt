//! The removal of a handle that passes a test.
ghost use Rattle.std.specs.Option.{option_and_then};
ghost use Rattle.std.specs.Prelude.{◌≡◌, IsSome, None};
ghost use Rattle.iox_handles.specs.Removals.{if_passes};
ghost use Rattle.iox_handles.specs.Tables.{IsSound, handle_of, removed};

use crate::entry::Entry;
use crate::entry_test::EntryTest;
use crate::places::place_of;
use crate::table::Table;
use crate::vacant::NOBODY;

impl Table {
    /// Removes the node's handle of that number, if it passes the test. It is looked for once: at
    /// the hint and in its likely place first.
    #[inline(always)]
    pub fn remove_if<T: EntryTest>(
        &mut self,
        node: u64,
        number: u64,
        hint: usize,
        test: &T,
    ) -> Option<Entry>
        ensures found { result
            ≡ option_and_then (if_passes (T.passes test.now)) (handle_of self.old node number) }
        ensures removed { IsSome result → self.new ≡ removed self.old number }
        ensures unchanged { result ≡ None → self.new ≡ self.old }
        ensures sound { IsSound self.old }
    {
        let at = place_of(&self.places, number, &self.likely, hint)?;
        let entry = self.places[at];
        if entry.node != node {
            return None;
        }
        if !test.passes(entry) {
            return None;
        }
        self.tally.discount(entry.port, entry.kind);
        self.places[at].number = NOBODY;
        self.free.push_reserved(at);
        Some(entry)
    }
}
