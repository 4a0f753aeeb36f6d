//! The end of a handle: it is removed if it is of a kind, and its message is let go.
ghost use Rattle.std.specs.Option.{option_and_then, option_map};
ghost use Rattle.std.specs.Prelude.{◌≡◌, ◌<◌, IsSome, None};
ghost use Rattle.iox_model.specs.Values as spec;
ghost use Rattle.iox_hub_ports.specs.HubStates.Tables.{labels_of, owner_of, slot_at};
ghost use Rattle.iox_hub_ports.specs.HubStates.Wirings.{handle_in};
ghost use Rattle.iox_slots.specs.Pools.{is_idle, with_slot};
ghost use Rattle.iox_slots.specs.Slots.{let_go};
ghost use Rattle.iox_control.specs.Controls.{with_handle_dropped, with_pools};
ghost use Rattle.iox_control.specs.Entries.{handle_state};
ghost use Rattle.iox_control.specs.Removals.{if_still};

use crate::control::Control;
use iox_handles::{Entry, EntryTest};
use iox_model::kind::Kind;
use iox_slots::Left;

/// A handle that is of that kind, or a loan of that kind that is filled by now.
#[derive(Clone, Copy)]
struct Still {
    kind: Kind,
}

/// Whether a handle of the old kind may be one of the new kind by now: it is of the same kind, or a
/// loan that is filled.
#[inline(always)]
pub fn is_still(old: Kind, new: Kind) -> bool
    ensures { result ≡ spec.is_still old new }
{
    match old {
        Kind::RequestMutUninit => matches!(new, Kind::RequestMutUninit | Kind::RequestMut),
        Kind::ResponseMutUninit => matches!(new, Kind::ResponseMutUninit | Kind::ResponseMut),
        _ => new == old,
    }
}

impl EntryTest for Still {
    ghost passes = { λ s e. spec.is_still s.kind e.kind };

    #[inline]
    fn passes(&self, entry: Entry) -> bool {
        is_still(self.kind, entry.kind)
    }
}

impl Control {
    /// Removes the node's handle of that number, if it is of that kind, or a loan that was filled
    /// meanwhile. It is looked for once, at the hint first. It leaves room for another.
    #[inline(always)]
    pub fn remove_still(&mut self, node: u64, number: u64, kind: Kind, hint: usize) -> Option<Entry>
        ensures found { option_map handle_state result
            ≡ option_and_then (if_still kind) (handle_in self.old.tables.handles node number) }
        ensures dropped { IsSome result → self.new ≡ with_handle_dropped self.old node number }
        ensures unchanged { result ≡ None → self.new ≡ self.old }
    {
        self.handles.remove_if(node, number, hint, &Still { kind })
    }

    /// One less has a slot that somebody has, of which this was known: its slot is looked for once.
    #[inline(always)]
    pub fn leave_slot(&mut self, pool: usize, slot: u64) -> Left
        requires { 0 < (slot_at self.old.tables.pools pool slot).holders }
        ensures label { result.label ≡ labels_of self.old.tables.pools pool slot }
        ensures owner { result.owner ≡ owner_of self.old.tables.pools pool }
        ensures idle { result.idle ≡ is_idle self.new.tables.pools pool }
        ensures left { self.new ≡ with_pools self.old
            (with_slot let_go self.old.tables.pools pool slot) }
    {
        self.pools.leave(pool, slot)
    }
}
