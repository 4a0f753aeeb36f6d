//! Single changes of lanes, of request states, and of what is kept of a port.
ghost use Rattle.std.specs.Prelude.{◌≡◌, ◌<◌, ◌-◌, ◌^◌, ◌∷◌, [], None, false, map, slice_get};
ghost use Rattle.std.specs.Option.{option_map_or};
ghost use Rattle.iox_model.specs.declared.kind.Role.TheVariants.{Server};
ghost use Rattle.iox_model.specs.declared.way.RequestState.TheVariants.{Named};
ghost use Rattle.iox_model.specs.Messages.{closed_for, response_way};
ghost use Rattle.iox_lanes.specs.Lanes.{has_room, is_taken, offered, released, returned_times, without_returned};
ghost use Rattle.iox_hub_ports.specs.HubStates.Changes.{with_lanes, with_states};
ghost use Rattle.iox_hub_ports.specs.HubStates.Ends.{with_loan};
ghost use Rattle.iox_hub_ports.specs.HubStates.Releases.{with_value_released};
ghost use Rattle.iox_hub_ports.specs.HubStates.Tables.{pipes_to, port_in};
ghost use Rattle.iox_hub_ports.specs.HubStates.Wirings.{numbers_of_role};
ghost use Rattle.iox_hub_ports.specs.Ports.{lane_to_get_on, on_way, on_way_at, pushed, pushed_out, with_lane_at};
ghost use Rattle.iox_control.specs.Controls.{with_ports, with_tables};

use crate::control::Control;
use iox_model::way::Way;

impl Control {
    // ---- the sender

    /// The lowest lane from the sender to the receiver on which something is left to get back, if
    /// there is one.
    pub fn lane_to_get(&mut self, sender: u64, receiver: u64) -> Option<usize>
        ensures lowest { result
            ≡ lane_to_get_on (pipes_to self.old.tables.ports receiver) sender }
        ensures unchanged { self.new ≡ self.old }
    {
        self.ports.lane_to_get(sender, receiver)
    }

    /// Gets back the oldest message of those that were given back on the way, if there is one. Its
    /// slot stays as it is.
    pub fn get_back(&mut self, way: Way) -> Option<u64>
        ensures oldest { result
            ≡ on_way (λ l. slice_get l.returned 0) None self.old.tables.ports way }
        ensures got_back { self.new
            ≡ with_tables self.old (with_lanes without_returned self.old.tables (way ∷ [])) }
    {
        self.ports.get_back(way)
    }

    /// Puts a message last in line on the way, and says whether there was room.
    pub fn deliver(&mut self, way: Way, slot: u64) -> bool
        ensures room { result ≡ on_way has_room false self.old.tables.ports way }
        ensures delivered { self.new
            ≡ with_tables self.old (with_lanes (λ l. offered l slot) self.old.tables (way ∷ [])) }
    {
        self.ports.deliver(way, slot)
    }

    // ---- for each port in its place

    /// How often the port in that place gave the slot back on the lane from the sender, so that it
    /// is left to get back.
    pub fn returned_times_at(&self, at: usize, sender: u64, lane: u64, slot: u64) -> usize
        ensures { result
            ≡ on_way_at (λ l. returned_times l slot) 0 self.now.tables.ports at sender lane }
    {
        self.ports.returned_times_at(at, sender, lane, slot)
    }

    /// Puts a message last in line for the port in that place, on the lane from the sender, and
    /// says whether there was room.
    pub fn deliver_at(&mut self, at: usize, sender: u64, lane: u64, slot: u64) -> bool
        ensures room { result ≡ on_way_at has_room false self.old.tables.ports at sender lane }
        ensures delivered { self.new ≡ with_ports self.old
            (with_lane_at (λ l. offered l slot) self.old.tables.ports at sender lane) }
    {
        self.ports.deliver_at(at, sender, lane, slot)
    }

    /// The same, but where as many wait as may, the oldest is pushed out first: it is its sender's
    /// again.
    pub fn push_at(&mut self, at: usize, sender: u64, lane: u64, slot: u64) -> Option<u64>
        ensures oldest { result ≡ on_way_at pushed_out None self.old.tables.ports at sender lane }
        ensures pushed { self.new ≡ with_ports self.old
            (with_lane_at (λ l. pushed l slot) self.old.tables.ports at sender lane) }
    {
        self.ports.push_at(at, sender, lane, slot)
    }

    // ---- the receiver

    /// Gives a message of the way back that its receiver has, and says whether it had it. Its slot
    /// stays as it is.
    #[inline(always)]
    pub fn give_back(&mut self, way: Way, slot: u64) -> bool
        ensures taken { result ≡ on_way (λ l. is_taken l slot) false self.old.tables.ports way }
        ensures released { self.new
            ≡ with_tables self.old (with_lanes (λ l. released l slot) self.old.tables (way ∷ [])) }
    {
        self.ports.release(way, slot)
    }

    // ---- requests

    /// Opens the request on that lane of the client with each server.
    pub fn open_all(&mut self, client: u64, lane: u64, id: u64)
        ensures { self.new ≡ with_tables self.old (with_states (λ r. Named id false)
            self.old.tables (map (response_way client lane)
            (numbers_of_role Server self.old.tables.ports))) }
    {
        self.ports.open_all(client, lane, id);
    }

    /// Closes the request on that lane of the client with each server where it is the open one.
    #[inline(always)]
    pub fn close_all(&mut self, client: u64, lane: u64, id: u64)
        ensures { self.new ≡ with_tables self.old (with_states (λ r. closed_for r id)
            self.old.tables (map (response_way client lane)
            (numbers_of_role Server self.old.tables.ports))) }
    {
        self.ports.close_all(client, lane, id);
    }

    /// Closes the request on the way, if it is the open one.
    #[inline(always)]
    pub fn close(&mut self, way: Way, id: u64)
        ensures { self.new ≡ with_tables self.old
            (with_states (λ r. closed_for r id) self.old.tables (way ∷ [])) }
    {
        self.ports.close(way, id);
    }

    // ---- a port

    /// Counts one loan more of the port, which is looked for at the hint first.
    #[inline(always)]
    pub fn count_loan(&mut self, port: u64, at: usize)
        requires { option_map_or (λ p. p.loans) (port_in self.old.tables.ports port) 0
            < 2 ^ 64 - 1 }
        ensures { self.new ≡ with_tables self.old (with_loan self.old.tables port) }
    {
        self.ports.count_loan_near(port, at);
    }

    /// The own value of the port is gone.
    pub fn release_value(&mut self, port: u64)
        ensures { self.new ≡ with_tables self.old (with_value_released self.old.tables port) }
    {
        self.ports.release_value(port);
    }
}
