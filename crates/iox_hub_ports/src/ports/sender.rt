//! What a sender does with the lanes to its receivers.
#![tactic(auto, using(crate::proofs::Keeping::kept))]

ghost use Rattle.std.specs.Option.{option_map};
ghost use Rattle.std.specs.Prelude.{◌≡◌, ◌<◌, IfSome, None, Some, false, is_some, length, slice_get, true};
ghost use Rattle.iox_tables.specs.Lanes.{IsSound, LaneState, has_room, is_full, offered, oldest, returned_times, without_oldest, without_returned};
ghost use Rattle.iox_tables.specs.HubStates.Tables.{PortState, pipes_to};
ghost use Rattle.iox_tables.specs.HubStates.Ways.{lane_on, with_lane_on};
ghost use Rattle.iox_hub_ports.specs.InPlace.{IsFirstIn};
ghost use Rattle.iox_hub_ports.specs.Ports.{lane_to_get_at, lane_to_get_on, on_way, on_way_at, pushed, pushed_out, way_from, with_lane_at, with_ports};

use crate::ports::Ports;
use crate::steps::{Deliver, Evict, GetBack, Push};
use crate::walks::on_lane_at;
use iox_model::way::Way;
use iox_tables::pipe::{Left, Next};

impl Ports {
    /// The lowest lane from the sender to the receiver on which something is left to get back, if
    /// there is one.
    pub fn lane_to_get(&mut self, sender: u64, receiver: u64) -> Option<usize>
        ensures lowest { result ≡ lane_to_get_on (pipes_to self.old.ports receiver) sender }
        ensures unchanged { self.new ≡ self.old }
    {
        match self.place(receiver) {
            Some(place) => self.ports[place].lane_to_get(sender),
            None => None,
        }
    }

    /// Gets back the oldest message of those that were given back on the way, if there is one.
    pub fn get_back(&mut self, way: Way) -> Option<u64>
        ensures oldest { result ≡ on_way (λ l. slice_get l.returned 0) None self.old.ports way }
        ensures got_back { self.new
            ≡ with_ports self.old (with_lane_on without_returned self.old.ports way) }
    {
        self.on_lane_of(way, &GetBack)
    }

    /// Whether as many messages wait on the way as may.
    #[inline(always)]
    pub fn is_full(&self, way: Way) -> bool
        ensures full { result ≡ on_way is_full true self.now.ports way }
        ensures sound { (l : LaneState) → lane_on self.now.ports way ≡ Some l → IsSound l }
    {
        match self.place(way.receiver) {
            Some(place) => self.ports[place].is_full(way.sender, way.lane as usize),
            None => true,
        }
    }

    /// Puts a message last in line on the way, and says whether there was room.
    pub fn deliver(&mut self, way: Way, place: u64) -> bool
        ensures room { result ≡ on_way has_room false self.old.ports way }
        ensures delivered { self.new
            ≡ with_ports self.old (with_lane_on (λ l. offered l place) self.old.ports way) }
    {
        self.on_lane_of(way, &Deliver { place })
    }

    /// Pushes the oldest message of the way out, if any waits: it is its sender's again.
    pub fn evict(&mut self, way: Way) -> Option<u64>
        ensures oldest { result ≡ on_way oldest None self.old.ports way }
        ensures evicted { self.new
            ≡ with_ports self.old (with_lane_on without_oldest self.old.ports way) }
    {
        self.on_lane_of(way, &Evict)
    }

    /// Puts a message last in line on the way; where as many wait as may, the oldest is pushed out
    /// first: it is its sender's again.
    pub fn push(&mut self, way: Way, place: u64) -> Option<u64>
        ensures oldest { result ≡ on_way pushed_out None self.old.ports way }
        ensures pushed { self.new
            ≡ with_ports self.old (with_lane_on (λ l. pushed l place) self.old.ports way) }
    {
        self.on_lane_of(way, &Push { place })
    }

    // ---- for each port in its place

    /// What is left to get back of what the port in that place gave back to this sender, whose pipe
    /// is looked for at the hint alone. Any answer is right: it tells which way is short.
    #[inline(always)]
    pub fn left_in(&self, at: usize, sender: u64, hint: usize) -> Left
        requires { at < length self.now.ports }
    {
        self.ports[at].left_at(sender, hint)
    }

    /// Gets back the oldest message of those that the port in that place gave back on the lowest
    /// lane from the sender on which something is left to get back, if there is one. The pipe is
    /// looked for at the hint first.
    #[inline(always)]
    pub fn get_next_in(&mut self, at: usize, sender: u64, hint: usize) -> Option<Next>
        requires there { at < length self.old.ports }
        requires once { IsFirstIn self.old.ports at hint }
        ensures lowest { option_map (λ n. n.lane) result
            ≡ lane_to_get_at self.old.ports at sender }
        ensures oldest { IfSome result (λ n.
            on_way_at (λ l. slice_get l.returned 0) None self.old.ports at sender n.lane
            ≡ Some n.place) }
        ensures got_back { IfSome result (λ n. self.new ≡ with_ports self.old
            (with_lane_at without_returned self.old.ports at sender n.lane)) }
        ensures more { IfSome result (λ n.
            n.more ≡ is_some (lane_to_get_at self.new.ports at sender)) }
        ensures unchanged { result ≡ None → self.new ≡ self.old }
    {
        self.ports[at].get_next_at(sender, hint)
    }

    /// Gets back the oldest message of those that the port in that place gave back on the lane from
    /// the sender, if there is one.
    pub fn get_back_at(&mut self, at: usize, sender: u64, lane: u64) -> Option<u64>
        ensures oldest { result
            ≡ on_way_at (λ l. slice_get l.returned 0) None self.old.ports at sender lane }
        ensures got_back { self.new
            ≡ with_ports self.old (with_lane_at without_returned self.old.ports at sender lane) }
    {
        on_lane_at(&mut self.ports, at, sender, lane as usize, &GetBack)
    }

    /// How often the port in that place gave the message back on the lane from the sender, so that
    /// it is left to get back.
    pub fn returned_times_at(&self, at: usize, sender: u64, lane: u64, place: u64) -> usize
        ensures { result
            ≡ on_way_at (λ l. returned_times l place) 0 self.now.ports at sender lane }
    {
        if at < self.ports.len() {
            return self.ports[at].returned_times(sender, lane as usize, place);
        }
        0
    }

    /// Whether as many messages wait for the port in that place, on the lane from the sender, as
    /// may.
    pub fn is_full_at(&self, at: usize, sender: u64, lane: u64) -> bool
        ensures full { result ≡ on_way_at is_full true self.now.ports at sender lane }
        ensures sound { (p : PortState) → slice_get self.now.ports at ≡ Some p → (l : LaneState)
            → lane_on self.now.ports (way_from sender lane p.number) ≡ Some l → IsSound l }
    {
        if at < self.ports.len() {
            return self.ports[at].is_full(sender, lane as usize);
        }
        true
    }

    /// Puts a message last in line for the port in that place, on the lane from the sender, and
    /// says whether there was room.
    pub fn deliver_at(&mut self, at: usize, sender: u64, lane: u64, place: u64) -> bool
        ensures room { result ≡ on_way_at has_room false self.old.ports at sender lane }
        ensures delivered { self.new ≡ with_ports self.old
            (with_lane_at (λ l. offered l place) self.old.ports at sender lane) }
    {
        let deliver = Deliver { place };
        on_lane_at(&mut self.ports, at, sender, lane as usize, &deliver)
    }

    /// The same, but where as many wait as may, the oldest is pushed out first: it is its sender's
    /// again.
    pub fn push_at(&mut self, at: usize, sender: u64, lane: u64, place: u64) -> Option<u64>
        ensures oldest { result ≡ on_way_at pushed_out None self.old.ports at sender lane }
        ensures pushed { self.new ≡ with_ports self.old
            (with_lane_at (λ l. pushed l place) self.old.ports at sender lane) }
    {
        on_lane_at(&mut self.ports, at, sender, lane as usize, &Push { place })
    }
}
