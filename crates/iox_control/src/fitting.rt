//! Loans that are filled where their messages have so many elements.
ghost use Rattle.std.specs.Option.{option_and_then, option_map};
ghost use Rattle.std.specs.Prelude.{◌≡◌, IfSome, None, Some, is_some, true};
ghost use Rattle.iox_handles.specs.Tables.{group_of};
ghost use Rattle.iox_hub_ports.specs.HubStates.Ends.{with_changed};
ghost use Rattle.iox_hub_ports.specs.HubStates.Tables.{HandleState};
ghost use Rattle.iox_hub_ports.specs.HubStates.Wirings.{handle_in};
ghost use Rattle.iox_control.specs.Controls.{with_tables};
ghost use Rattle.iox_control.specs.Entries.{handle_state};
ghost use Rattle.iox_control.specs.Fittings.{fitted, has_elements, filled_if_loan, kind_fitting};

use crate::control::Control;
use crate::known_handles::is_sound;
use iox_handles::{Entry, KindChange};
use iox_model::kind::Kind;
use iox_slots::Pools;

/// A loan is filled where its message has so many elements.
#[derive(Clone, Copy)]
struct Fitting<'a> {
    pools: &'a Pools,
    elements: Option<u64>,
}

/// The kind of a loan once it is filled. No other handle may be.
#[inline]
fn filled_kind(kind: Kind) -> Option<Kind>
    ensures kind { result ≡ filled_if_loan kind }
    ensures group { IfSome result (λ filled. group_of filled ≡ group_of kind) }
{
    match kind {
        Kind::RequestMutUninit | Kind::RequestMut => Some(Kind::RequestMut),
        Kind::ResponseMutUninit | Kind::ResponseMut => Some(Kind::ResponseMut),
        Kind::Client
        | Kind::Server
        | Kind::PendingResponse
        | Kind::ActiveRequest
        | Kind::Response => None,
    }
}

/// Whether the message in that slot has so many elements.
#[inline]
fn has_elements(pools: &Pools, pool: usize, slot: u64, elements: Option<u64>) -> bool
    ensures { result ≡ has_elements pools.now pool slot elements }
{
    let Some(count) = elements else {
        return false;
    };
    match pools.slot(pool, slot) {
        Some(slot) => count == slot.elements(),
        None => count == 0,
    }
}

impl<'a> KindChange for Fitting<'a> {
    ghost becomes = { λ t e. kind_fitting t.pools.now t.elements (handle_state e) };

    #[inline]
    fn becomes(&self, entry: Entry) -> Option<Kind> {
        if has_elements(self.pools, entry.pool, entry.slot, self.elements) {
            return filled_kind(entry.kind);
        }
        None
    }
}

impl Control {
    /// Fills the node's loan of that number, where it is one and its message has so many elements,
    /// and tells its handle as it is now. Where not, nothing changes. It is looked for at the hint
    /// first.
    #[inline(always)]
    pub fn fill_handle(
        &mut self,
        node: u64,
        number: u64,
        hint: usize,
        elements: Option<u64>,
    ) -> Option<Entry>
        ensures told { option_map handle_state result
            ≡ option_and_then (fitted self.old.tables.pools elements)
            (handle_in self.old.tables.handles node number) }
        ensures changed { IfSome result (λ e. self.new
            ≡ with_tables self.old (with_changed self.old.tables (handle_state e))) }
        ensures unchanged { result ≡ None → self.new ≡ self.old }
    {
        let fitting = Fitting {
            pools: &self.pools,
            elements,
        };
        self.handles.change_kind(node, number, hint, &fitting)
    }

    /// Fills the node's loan of that number, which it has, whose message has so many elements, and
    /// which is of that kind once it is filled, if its handle is at the hint. It tells the handle as
    /// it is now. `None` says that nothing changed.
    #[inline(always)]
    pub fn fill_near(
        &mut self,
        _node: u64,
        number: u64,
        hint: usize,
        kind: Kind,
        _elements: u64,
    ) -> Option<Entry>
        requires there { is_some (handle_in self.old.tables.handles _node number) ≡ true }
        requires fits { (h : HandleState) → handle_in self.old.tables.handles _node number ≡ Some h
            → kind_fitting self.old.tables.pools (Some _elements) h ≡ Some kind }
        ensures told { IfSome result (λ e. Some (handle_state e)
            ≡ option_and_then (fitted self.old.tables.pools (Some _elements))
            (handle_in self.old.tables.handles _node number)) }
        ensures changed { IfSome result (λ e. self.new
            ≡ with_tables self.old (with_changed self.old.tables (handle_state e))) }
        ensures unchanged { result ≡ None → self.new ≡ self.old }
    {
        is_sound(&self.handles);
        self.handles.turn_near(number, hint, kind)
    }
}
