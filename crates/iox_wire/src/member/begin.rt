//! How a node of a wire begins a call.
ghost use Rattle.std.specs.Prelude.{ℕ, ◌≡◌, IfErr, OnErr, OnOk, false};
ghost use Rattle.iox_wire_weaves.specs.Begins.{is_busy};
ghost use Rattle.iox_wire_weaves.specs.Lendings.{next_handle};
ghost use Rattle.iox_wire_weaves.specs.Lends.{MayLend};
ghost use Rattle.iox_wire_weaves.specs.Nodes.{seat_in};
ghost use Rattle.iox_wire_weaves.specs.NodesBegins.{MayBegin};
ghost use Rattle.iox_wire_weaves.specs.ListRooms.{ListsHaveRoom};
ghost use Rattle.iox_wire_weaves.specs.Tables.{Setting};
ghost use Rattle.iox_wire_weaves.specs.Terms.{IsSettingWith};
ghost use Rattle.iox_wire_weaves.specs.WirePlans.{IsWirePlan};
ghost use Rattle.iox_wire_weaves.specs.HandleCalls.{refusal_in};
ghost use Rattle.iox_wire_weaves.specs.Rooms.{HasRoomToBegin};
ghost use Rattle.iox_wire_weaves.specs.Wires.{machine_refusal};
ghost use Rattle.iox_wire_weaves.specs.declared.refusal.WireRefusal.TheVariants.{WantOfMemory};
ghost use Rattle.iox_wire.specs.Begun.{HasBegun, IsRefusedBy};

use super::Member;
use crate::finding::find_port;
use iox_wire_weaves::{BeginError, Lists, NodeCall, NodeError, WireRefusal, WireTerms, WordMap};

/// A wire's name of a refusal.
fn refusal_of(error: BeginError) -> WireRefusal
    ensures named { machine_refusal result ≡ refusal_in error }
    ensures memory { result ≡ WantOfMemory → ⊥ }
{
    match error {
        BeginError::Busy => WireRefusal::Busy,
        BeginError::UnknownNumber => WireRefusal::UnknownNumber,
        BeginError::ForeignNumber => WireRefusal::ForeignNumber,
        BeginError::WrongKind => WireRefusal::WrongKind,
    }
}

impl Member {
    /// Begins a call, after so many events. What it lists is of no use later.
    pub(crate) fn begin(
        &mut self,
        map: &WordMap,
        terms: &WireTerms,
        call: NodeCall<'_>,
        begun: usize,
        lists: &mut Lists,
    ) -> Result<(), WireRefusal>
        requires plan { IsWirePlan map.now terms.now }
        requires setting { (p : Setting) × IsSettingWith map.now terms.now p }
        requires may { is_busy (seat_in self.old.node).local ≡ false
            → MayBegin map.now terms.now self.old.node.seat.seat }
        requires lends { is_busy (seat_in self.old.node).local ≡ false
            → (p : Setting) → IsSettingWith map.now terms.now p → (port : ℕ)
            → MayLend self.old.node.seat (next_handle p self.old.node.seat.seat) port }
        requires lists { ListsHaveRoom map.now lists.old }
        requires rooms { HasRoomToBegin map.now self.old.node }
        ensures begun { OnOk result
            (HasBegun map.now terms.now self.old call.entry begun self.new) }
        ensures refused { IfErr result (IsRefusedBy map.now terms.now self.old call.entry) }
        ensures always { IfErr result (λ error. error ≡ WantOfMemory → ⊥) }
        ensures unchanged { OnErr result (self.new ≡ self.old) }
        ensures lists { ListsHaveRoom map.now lists.new }
    {
        let port = find_port(map, call.number());
        if let Err(NodeError::Begin(error)) = self.node.begin(map, terms, call, port, lists) {
            return Err(refusal_of(error));
        }
        self.keep(call, begun);
        Ok(())
    }
}
