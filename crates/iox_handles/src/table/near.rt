//! Handles that are looked for at a hint alone.
ghost use Rattle.std.specs.Prelude.{◌≡◌, IfSome, None, Some, is_some, true};
ghost use Rattle.iox_handles.specs.declared.entry.Entry.{Entry};
ghost use Rattle.iox_handles.specs.Tables.{IsSound, changed, group_of, handle_at};

use crate::entry::Entry;
use crate::places::{is_there, remainder};
use crate::table::Table;
use iox_model::kind::Kind;

impl Table {
    /// The handle of that number, which is there, if it is at the hint.
    #[inline(always)]
    pub fn near_known(&self, number: u64, hint: usize) -> Option<Entry>
        requires { is_some (handle_at self.now number) ≡ true }
        ensures found { IfSome result (λ entry. Some entry ≡ handle_at self.now number) }
        ensures sound { IsSound self.now }
    {
        if is_there(&self.places, hint, number) {
            return Some(self.places[hint]);
        }
        None
    }

    /// The handle of that number, which is there, gets another kind, which is counted as its own
    /// is, if it is at the hint. It tells the handle as it is now. `None` says that nothing
    /// changed.
    #[inline(always)]
    pub fn turn_near(&mut self, number: u64, hint: usize, kind: Kind) -> Option<Entry>
        requires there { is_some (handle_at self.old number) ≡ true }
        requires group { (h : Entry) → handle_at self.old number ≡ Some h
            → group_of kind ≡ group_of h.kind }
        ensures told { IfSome result (λ entry. (h : Entry) → handle_at self.old number ≡ Some h
            → entry ≡ record h { kind = kind }) }
        ensures turned { IfSome result (λ entry. self.new ≡ changed self.old entry) }
        ensures unchanged { result ≡ None → self.new ≡ self.old }
        ensures sound { IsSound self.old }
    {
        if is_there(&self.places, hint, number) {
            let old = self.places[hint];
            self.places[hint].kind = kind;
            return Some(Entry { kind, ..old });
        }
        None
    }

    /// Where the handle of that number likely is: where the last handle came whose number has the
    /// same remainder. A wrong place is only slower.
    #[inline(always)]
    pub fn likely_place(&self, number: u64) -> usize {
        self.likely[remainder(number)]
    }
}
