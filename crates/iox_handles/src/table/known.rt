//! Changes of a handle that is there, and of which the kind is known.
ghost use Rattle.std.specs.Prelude.{◌≡◌, Some, is_some, true};
ghost use Rattle.iox_handles.specs.declared.entry.Entry.{Entry};
ghost use Rattle.iox_handles.specs.Tables.{IsSound, changed, handle_at, removed};

use crate::entry::Entry;
use crate::places::known_place;
use crate::table::Table;
use crate::vacant::NOBODY;
use iox_model::kind::Kind;

impl Table {
    /// Removes the handle of that number, which is there and of that kind. It is looked for at the
    /// hint and in its likely place first.
    #[inline(always)]
    pub fn remove_known(&mut self, number: u64, hint: usize, kind: Kind)
        requires there { is_some (handle_at self.old number) ≡ true }
        requires kind { (h : Entry) → handle_at self.old number ≡ Some h → h.kind ≡ kind }
        ensures removed { self.new ≡ removed self.old number }
        ensures sound { IsSound self.old }
    {
        let at = known_place(&self.places, number, &self.likely, hint);
        let entry = self.places[at];
        self.tally.discount(entry.port, kind);
        self.places[at].number = NOBODY;
        self.free.push_reserved(at);
    }

    /// The handle of that number, which is there and of that kind, gets another kind, and so many
    /// connections. It is looked for at the hint and in its likely place first.
    #[inline(always)]
    pub fn turn_known(
        &mut self,
        number: u64,
        hint: usize,
        kind: Kind,
        becomes: Kind,
        connections: u64,
    )
        requires there { is_some (handle_at self.old number) ≡ true }
        requires kind { (h : Entry) → handle_at self.old number ≡ Some h → h.kind ≡ kind }
        ensures turned { (h : Entry) → handle_at self.old number ≡ Some h → self.new
            ≡ changed self.old (record h { kind = becomes; connections = connections }) }
        ensures sound { IsSound self.old }
    {
        let at = known_place(&self.places, number, &self.likely, hint);
        let entry = self.places[at];
        self.places[at] = Entry {
            kind: becomes,
            connections,
            ..entry
        };
        self.tally.discount(entry.port, kind);
        self.tally.count(entry.port, becomes);
    }
}
