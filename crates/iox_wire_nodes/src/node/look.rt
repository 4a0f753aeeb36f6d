//! How a node begins a look for requests.
ghost use Rattle.std.specs.Prelude.{◌<◌, ◌≡◌, ◌≤◌, IfErr, OnErr, OnOk, length, true, vec_capacity};
ghost use Rattle.iox_model.specs.declared.call.Call.TheVariants.{HasRequests};
ghost use Rattle.iox_model.specs.declared.call.WireCall.TheVariants.{Port};
ghost use Rattle.iox_wire_begins.specs.Plans.{most_ways, number_at};
ghost use Rattle.iox_wire_begins.specs.HandleCalls.{refusal_in};
ghost use Rattle.iox_wire_begins.specs.PlansOf.{IsSettingOf};
ghost use Rattle.iox_wire_begins.specs.Begins.{refusal_at};
ghost use Rattle.iox_wire_begins.specs.Tables.{Setting};
ghost use Rattle.iox_wire_nodes.specs.declared.call_at.CallAt.TheVariants.{Seats};
ghost use Rattle.iox_wire_nodes.specs.Begins.{IsBegun};
ghost use Rattle.iox_wire_nodes.specs.Nodes.{seat_in};
ghost use Rattle.iox_wire_begins.specs.RequestSources.{HasRequestWays};
ghost use Rattle.iox_wire_begins.specs.ListRooms.{HasRoomToAsk};
ghost use Rattle.iox_wire_nodes.specs.Rooms.{KeepsRooms};

use super::StoredNode;
use crate::call_at::CallAt;
use iox_wire_begins::{Asked, BeginError, Source, Stop, WordMap, list_waiting_requests, name_port};

impl StoredNode {
    /// Begins to look whether a request waits for the port at an index, which has that number. What
    /// it lists in `sources` and `stops` is of no use later.
    pub fn begin_has_requests(
        &mut self,
        map: &WordMap,
        node: u64,
        number: u64,
        port: usize,
        fire_and_forget: bool,
        sources: &mut Vec<Source>,
        stops: &mut Vec<Stop>,
    ) -> Result<(), BeginError>
        requires node { self.old.seat.seat.node ≡ node }
        requires within { port < length map.now.ports.items }
        requires there { number_at map.now port ≡ number }
        requires known { HasRequestWays map.now }
        requires sources { most_ways map.now ≤ vec_capacity sources.old }
        requires stops { most_ways map.now ≤ vec_capacity stops.old }
        requires rooms { HasRoomToAsk map.now self.old.seat }
        ensures begun { (p : Setting) → IsSettingOf map.now p → (p.port number).held ≡ true
            → p.limits.fire_and_forget ≡ fire_and_forget
            → OnOk result (IsBegun p self.old (Port (HasRequests number)) self.new) }
        ensures refused { (p : Setting) → IsSettingOf map.now p → (p.port number).held ≡ true
            → IfErr result (λ error. refusal_at p (seat_in self.old) (Port (HasRequests number))
            ≡ refusal_in error) }
        ensures at { OnOk result (self.new.at ≡ Seats) }
        ensures unchanged { OnErr result (self.new ≡ self.old) }
        ensures sources { vec_capacity sources.new ≡ vec_capacity sources.old }
        ensures stops { vec_capacity stops.new ≡ vec_capacity stops.old }
        ensures rooms { OnOk result (KeepsRooms self.old self.new) }
    {
        if self.is_busy() {
            return Err(BeginError::Busy);
        }
        // only what this promises is wanted
        let _plan = map.plan();
        name_port(&self.seat, map, Asked::HasRequests, number, port, node)?;
        let queue = list_waiting_requests(map, &self.seat, port, fire_and_forget, sources, stops);
        self.seat.seek(queue, stops);
        self.at = CallAt::Seats;
        Ok(())
    }
}
