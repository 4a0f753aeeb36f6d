//! Why a node begins no call that neither its ports nor its handles have.
ghost use Rattle.std.specs.Prelude.{◌≡◌, ◌<◌, IfSome, None, false, length};
ghost use Rattle.iox_model.specs.Commands.{Payload};
ghost use Rattle.iox_model.specs.Names.{is_port};
ghost use Rattle.iox_model.specs.declared.call.WireCall.TheVariants.{Port};
ghost use Rattle.iox_wire_begins.specs.Plans.{number_at, port_of};
ghost use Rattle.iox_wire_begins.specs.HandleCalls.{HasRole, call_of, refusal_in};
ghost use Rattle.iox_wire_begins.specs.PlansOf.{IsSettingOf};
ghost use Rattle.iox_wire_begins.specs.Terms.{IsSettingWith};
ghost use Rattle.iox_wire_begins.specs.Begins.{refusal_at};
ghost use Rattle.iox_wire_begins.specs.Tables.{Setting, entry_at};
ghost use Rattle.iox_wire_nodes.specs.Calls.{handles_have, ports_have};
ghost use Rattle.iox_wire_nodes.specs.Nodes.{seat_in};

use super::StoredNode;
use iox_wire_begins::{Asked, BeginError, WireTerms, WordMap};

impl StoredNode {
    /// Why it does not begin a call that no port has on the port at an index, which has that
    /// number.
    pub fn refuse_at_port(
        &self,
        map: &WordMap,
        terms: &WireTerms,
        asked: Asked,
        number: u64,
        port: usize,
    ) -> BeginError
        requires within { port < length map.now.ports.items }
        requires there { number_at map.now port ≡ number }
        requires never { ports_have asked ≡ false }
        ensures { (p : Setting) → (y : Payload) → IsSettingWith map.now terms.now p
            → HasRole asked y → refusal_at p (seat_in self.now) (Port (call_of asked number y))
            ≡ refusal_in result }
    {
        match self.name_at_port(map, terms, asked, number, port) {
            Err(error) => error,
            // no port has the call
            Ok(()) => BeginError::WrongKind,
        }
    }

    /// Why it does not begin a call that no handle has on the handle of that number, which is no
    /// port's.
    pub fn refuse_on_handle(&self, map: &WordMap, asked: Asked, number: u64) -> BeginError
        requires no_port { port_of map.now number ≡ None }
        requires handle { IfSome (entry_at number self.now.seat.seat.table)
            (λ e. is_port e.kind ≡ false) }
        requires never { handles_have asked ≡ false }
        ensures { (p : Setting) → (y : Payload) → IsSettingOf map.now p
            → HasRole asked y → refusal_at p (seat_in self.now) (Port (call_of asked number y))
            ≡ refusal_in result }
    {
        match self.name_handle(map, asked, number) {
            Err(error) => error,
            // no handle has the call
            Ok(_entry) => BeginError::WrongKind,
        }
    }
}
