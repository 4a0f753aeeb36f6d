//! What handles become that change their kind.
ghost use Rattle.std.specs.Prelude.{◌≡◌, IfSome, Option};
ghost use Rattle.iox_model.specs.declared.kind.Kind.{Kind};
ghost use Rattle.iox_handles.specs.declared.entry.Entry.{Entry};
ghost use Rattle.iox_handles.specs.Tables.{group_of};

use crate::entry::Entry;
use iox_model::kind::Kind;

/// A change of a handle's kind, or none.
pub trait KindChange {
    ghost becomes: { Self → Entry → Option Kind };

    /// The kind that the handle is to have, if it is to change. It is counted with the one that the
    /// handle has.
    fn becomes(&self, entry: Entry) -> Option<Kind>
        ensures kind { result ≡ becomes self.now entry }
        ensures group { IfSome result (λ kind. group_of kind ≡ group_of entry.kind) };
}
