//! How a node begins a receive of a server.
ghost use Rattle.std.specs.Prelude.{◌<◌, ◌≡◌, ◌≤◌, IfErr, OnErr, OnOk, length, true, vec_capacity};
ghost use Rattle.iox_model.specs.declared.call.Call.TheVariants.{Receive};
ghost use Rattle.iox_model.specs.declared.call.WireCall.TheVariants.{Port};
ghost use Rattle.iox_wire_begins.specs.Plans.{most_ways, number_at};
ghost use Rattle.iox_wire_begins.specs.HandleCalls.{refusal_in};
ghost use Rattle.iox_wire_begins.specs.PlansOf.{IsSettingOf};
ghost use Rattle.iox_wire_begins.specs.Begins.{refusal_at};
ghost use Rattle.iox_wire_begins.specs.Lendings.{next_handle};
ghost use Rattle.iox_wire_begins.specs.Tables.{Setting};
ghost use Rattle.iox_wire_nodes.specs.declared.call_at.CallAt.TheVariants.{Receives};
ghost use Rattle.iox_wire_nodes.specs.Begins.{IsBegun};
ghost use Rattle.iox_wire_nodes.specs.Nodes.{seat_in};
ghost use Rattle.iox_wire_begins.specs.RequestSources.{HasRequestWays};
ghost use Rattle.iox_wire_nodes.specs.Rooms.{KeepsRooms};

use super::StoredNode;
use crate::call_at::CallAt;
use iox_wire_begins::{Asked, BeginError, Source, WordMap, begin_request_receive, name_port};

impl StoredNode {
    /// Begins to receive a request at the port at an index, which has that number. The node's next
    /// handle will have the number `next`. What it lists in `sources` is of no use later.
    pub fn begin_receive_at_port(
        &mut self,
        map: &WordMap,
        node: u64,
        number: u64,
        port: usize,
        fire_and_forget: bool,
        next: u64,
        sources: &mut Vec<Source>,
    ) -> Result<(), BeginError>
        requires node { self.old.seat.seat.node ≡ node }
        requires within { port < length map.now.ports.items }
        requires there { number_at map.now port ≡ number }
        requires known { HasRequestWays map.now }
        requires list { most_ways map.now ≤ vec_capacity sources.old }
        requires room { most_ways map.now ≤ self.old.receives.room }
        ensures begun { (p : Setting) → IsSettingOf map.now p → (p.port number).held ≡ true
            → p.limits.fire_and_forget ≡ fire_and_forget → next ≡ next_handle p (seat_in self.old)
            → OnOk result (IsBegun p self.old (Port (Receive number)) self.new) }
        ensures refused { (p : Setting) → IsSettingOf map.now p → (p.port number).held ≡ true
            → IfErr result (λ error. refusal_at p (seat_in self.old) (Port (Receive number))
            ≡ refusal_in error) }
        ensures at { OnOk result (self.new.at ≡ Receives) }
        ensures unchanged { OnErr result (self.new ≡ self.old) }
        ensures list { vec_capacity sources.new ≡ vec_capacity sources.old }
        ensures rooms { OnOk result (KeepsRooms self.old self.new) }
    {
        if self.is_busy() {
            return Err(BeginError::Busy);
        }
        // only what this promises is wanted
        let _plan = map.plan();
        name_port(&self.seat, map, Asked::Receive, number, port, node)?;
        begin_request_receive(
            map,
            &self.seat,
            &mut self.receiving,
            port,
            fire_and_forget,
            next,
            sources,
        );
        self.at = CallAt::Receives;
        Ok(())
    }
}
