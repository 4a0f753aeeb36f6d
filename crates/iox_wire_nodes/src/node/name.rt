//! What a call of a node names.
ghost use Rattle.std.specs.Prelude.{ℕ, ◌≡◌, ◌+◌, ◌<◌, ◌^◌, IfErr, IfOk, None, OnOk, Some, false};
ghost use Rattle.std.specs.Prelude.{length, true};
ghost use Rattle.iox_model.specs.Commands.{Payload};
ghost use Rattle.iox_model.specs.Names.{suits};
ghost use Rattle.iox_model.specs.declared.call.WireCall.TheVariants.{Port};
ghost use Rattle.iox_wire_begins.specs.Plans.{number_at, port_of, role_of};
ghost use Rattle.iox_wire_begins.specs.HandleCalls.{HasRole, call_of, port_kind, refusal_in};
ghost use Rattle.iox_wire_begins.specs.PlansOf.{IsSettingOf};
ghost use Rattle.iox_wire_begins.specs.Terms.{IsSettingWith};
ghost use Rattle.iox_wire_begins.specs.Begins.{begin, begins_at_entry, begins_at_port};
ghost use Rattle.iox_wire_begins.specs.Begins.{is_busy, refusal_at};
ghost use Rattle.iox_wire_begins.specs.Lendings.{next_handle};
ghost use Rattle.iox_wire_begins.specs.Tables.{Setting, entry_at};
ghost use Rattle.iox_wire_nodes.specs.Nodes.{seat_in};

use super::StoredNode;
use iox_wire_begins::{Asked, BeginError, Entry, WireTerms, WordMap, name_port, named};

impl StoredNode {
    /// Tests whether it may begin the call on the port at an index, which has that number.
    pub(super) fn name_at_port(
        &self,
        map: &WordMap,
        terms: &WireTerms,
        asked: Asked,
        number: u64,
        port: usize,
    ) -> Result<(), BeginError>
        requires within { port < length map.now.ports.items }
        requires there { number_at map.now port ≡ number }
        ensures rests { OnOk result (is_busy (seat_in self.now).local ≡ false) }
        ensures own { OnOk result (seat_in self.now ≡ self.now.seat.seat) }
        ensures kind { (n : ℕ) → (y : Payload) → HasRole asked y → OnOk result (suits true
            (call_of asked n y) (port_kind (role_of map.now number)) ≡ true) }
        ensures allowed { (p : Setting) → (y : Payload) → IsSettingWith map.now terms.now p
            → HasRole asked y → OnOk result
            (refusal_at p (seat_in self.now) (Port (call_of asked number y)) ≡ None) }
        ensures begins { (p : Setting) → (y : Payload) → IsSettingWith map.now terms.now p
            → OnOk result (begin p (seat_in self.now) (Port (call_of asked number y))
            ≡ begins_at_port p (seat_in self.now) (call_of asked number y) (p.port number)) }
        ensures refused { (p : Setting) → (y : Payload) → IsSettingWith map.now terms.now p
            → HasRole asked y → IfErr result (λ error.
            refusal_at p (seat_in self.now) (Port (call_of asked number y)) ≡ refusal_in error) }
    {
        if self.is_busy() {
            return Err(BeginError::Busy);
        }
        // only what these promise is wanted
        let _plan = map.plan();
        let _terms = terms;
        name_port(&self.seat, map, asked, number, port, self.seat.node())?;
        Ok(())
    }

    /// The handle of that number, which is no port's, if it may begin the call on it.
    pub(super) fn name_handle(
        &self,
        map: &WordMap,
        asked: Asked,
        number: u64,
    ) -> Result<Entry, BeginError>
        requires no_port { port_of map.now number ≡ None }
        ensures rests { OnOk result (is_busy (seat_in self.now).local ≡ false) }
        ensures own { OnOk result (seat_in self.now ≡ self.now.seat.seat) }
        ensures found { IfOk result (λ e. entry_at number self.now.seat.seat.table ≡ Some e) }
        ensures suits { (n : ℕ) → (y : Payload) → HasRole asked y
            → IfOk result (λ e. suits true (call_of asked n y) e.kind ≡ true) }
        ensures allowed { (p : Setting) → (y : Payload) → IsSettingOf map.now p
            → HasRole asked y → OnOk result
            (refusal_at p (seat_in self.now) (Port (call_of asked number y)) ≡ None) }
        ensures begins { (p : Setting) → (y : Payload) → IsSettingOf map.now p
            → IfOk result (λ e. begin p (seat_in self.now) (Port (call_of asked number y))
            ≡ begins_at_entry p (seat_in self.now) (call_of asked number y) e) }
        ensures refused { (p : Setting) → (y : Payload) → IsSettingOf map.now p
            → HasRole asked y → IfErr result (λ error.
            refusal_at p (seat_in self.now) (Port (call_of asked number y)) ≡ refusal_in error) }
    {
        if self.is_busy() {
            return Err(BeginError::Busy);
        }
        let entry = named(&self.seat, map, asked, number)?;
        Ok(entry)
    }

    /// The number of its next handle.
    pub(super) fn next_number(&self, terms: &WireTerms) -> u64
        requires { terms.now.first_number + self.now.seat.seat.handles_made < 2 ^ 64 }
        ensures { result ≡ terms.now.first_number + self.now.seat.seat.handles_made }
    {
        terms.first_number + self.seat.handles_made()
    }
}
