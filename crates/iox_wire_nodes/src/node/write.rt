//! How a node begins a write.
ghost use Rattle.std.specs.Prelude.{◌≡◌, IfErr, IfSome, None, OnErr, OnOk};
ghost use Rattle.iox_wire_begins.specs.Plans.{port_of};
ghost use Rattle.iox_wire_begins.specs.HandleCalls.{refusal_in, write_of};
ghost use Rattle.iox_wire_begins.specs.PlacedHandles.{HasLoanSlot, HasRoomForSlots, IsWritableAs};
ghost use Rattle.iox_wire_begins.specs.PlansOf.{IsSettingOf};
ghost use Rattle.iox_wire_begins.specs.Begins.{refusal_at};
ghost use Rattle.iox_wire_begins.specs.Tables.{Setting, entry_at};
ghost use Rattle.iox_wire_nodes.specs.declared.call_at.CallAt.TheVariants.{Seats};
ghost use Rattle.iox_wire_nodes.specs.Begins.{IsBegun};
ghost use Rattle.iox_wire_nodes.specs.Nodes.{seat_in};
ghost use Rattle.iox_wire_nodes.specs.Rooms.{KeepsRooms};

use super::StoredNode;
use crate::call_at::CallAt;
use iox_model::kind::Role;
use iox_wire_begins::{BeginError, WordMap, begin_write};

impl StoredNode {
    /// Begins to write these words as the payload of the loan of that number, which is no port's.
    pub fn begin_write(
        &mut self,
        map: &WordMap,
        number: u64,
        role: Role,
        words: &[u64],
    ) -> Result<(), BeginError>
        requires no_port { port_of map.now number ≡ None }
        requires slot { IfSome (entry_at number self.old.seat.seat.table) (HasLoanSlot map.now) }
        requires writable { IfSome (entry_at number self.old.seat.seat.table)
            (IsWritableAs map.now role) }
        requires words { HasRoomForSlots map.now self.old.seat.words_room }
        ensures begun { (p : Setting) → IsSettingOf map.now p → OnOk result
            (IsBegun p self.old (write_of p (seat_in self.old) number role words.now) self.new) }
        ensures refused { (p : Setting) → IsSettingOf map.now p → IfErr result (λ error.
            refusal_at p (seat_in self.old)
            (write_of p (seat_in self.old) number role words.now) ≡ refusal_in error) }
        ensures at { OnOk result (self.new.at ≡ Seats) }
        ensures unchanged { OnErr result (self.new ≡ self.old) }
        ensures rooms { OnOk result (KeepsRooms self.old self.new) }
    {
        if self.is_busy() {
            return Err(BeginError::Busy);
        }
        begin_write(&mut self.seat, map, number, role, words)?;
        self.at = CallAt::Seats;
        Ok(())
    }
}
