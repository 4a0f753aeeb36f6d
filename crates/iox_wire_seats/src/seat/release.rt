//! The release of a received message.
ghost use Rattle.std.specs.Prelude.{◌≡◌, ◌+◌, ◌-◌, ◌<◌, length, map};
ghost use Rattle.iox_model.specs.declared.kind.Kind.TheVariants.{ActiveRequest};
ghost use Rattle.iox_model.specs.Handles.{same_kind};
ghost use Rattle.iox_model.specs.Messages.{names};
ghost use Rattle.iox_word_map.specs.WordMaps.{ReturningQueue};
ghost use Rattle.iox_word_places.specs.Programs.{site_of};
ghost use Rattle.iox_word_places.specs.Plans.{IsPlan, IsWayAt, layout_of, way_at};
ghost use Rattle.iox_wire_locals.specs.Desks.{with_count};
ghost use Rattle.iox_wire_locals.specs.Locals.{state_told};
ghost use Rattle.iox_wire_locals.specs.Tables.{way_in as way_of_entry, without_entry};
ghost use Rattle.iox_wire_seats.specs.Aims.{IsInMemory, is_publish as joins};
ghost use Rattle.iox_wire_seats.specs.Seats.{node_at as planned_node};

use super::StoredSeat;
use crate::at::{At, SeatReply};
use crate::counts::Counts;
use crate::entries::Entries;
use iox_model::kind::Kind;
use iox_model::way::Way;
use iox_steps::{QueueEvent, Site};
use iox_wire_locals::Entry;
use iox_word_places::{WayIndex, WordMap};

impl StoredSeat {
    ghost use Rattle.std.specs.Prelude.{◌≡◌, ◌+◌, ◌<◌, ◌^◌};
    ghost use Rattle.iox_model.specs.declared.kind.Kind.TheVariants.{ActiveRequest, Response};
    ghost use Rattle.iox_model.specs.Messages.{request_way, response_way};
    ghost use Rattle.iox_word_places.specs.declared.way_index.WayIndex.TheVariants.{Requests, Responses};
    ghost use Rattle.iox_word_places.specs.Plans.{IsWayAt, way_at};
    ghost use Rattle.iox_wire_locals.specs.Tables.{Setting};
    ghost use Rattle.iox_wire_locals.specs.ReceiveCourses.{releasing};
    ghost use Rattle.iox_wire_seats.specs.Aims.{Answers, GoesOn, IsAimed, IsReleasing, KeepsRoom};
    ghost use Rattle.iox_wire_seats.specs.Aims.{HasSameRooms, StaysAimed};
    ghost use Rattle.iox_wire_seats.specs.Seats.{Agrees};

    /// Begins the release of a response, of the ports at these indexes.
    pub fn release_response(&mut self, map: &WordMap, entry: Entry, client: usize, server: usize)
        requires kind { entry.kind ≡ Response }
        requires way { IsWayAt map.now (Responses client server entry.lane) }
        requires ports { way_at map.now (Responses client server entry.lane)
            ≡ response_way entry.port entry.lane entry.sender }
        ensures begun { (p : Setting) → Agrees p map.now
            → self.new.seat ≡ releasing p self.old.seat entry }
        ensures aimed { (p : Setting) → Agrees p map.now → IsAimed p self.new }
        ensures accesses { self.new.seat.accesses ≡ self.old.seat.accesses }
        ensures room { self.new.room ≡ self.old.room }
        ensures rooms { HasSameRooms self.old self.new }
    {
        let lane = entry.lane as usize;
        let way = WayIndex::Responses {
            client,
            server,
            lane,
        };
        let node = node_at(map, server);
        self.entry = entry;
        if self.forgot.contains(&node) {
            self.at = At::Drops;
            return;
        }
        self.site = site_back(map, way);
        self.pusher.push(entry.slot);
        self.at = At::ReleaseReturns;
    }

    /// Begins the release of an active request, of the ports at these indexes.
    pub fn release_request(&mut self, map: &WordMap, entry: Entry, client: usize, server: usize)
        requires kind { entry.kind ≡ ActiveRequest }
        requires lane { IsWayAt map.now (Responses client server entry.lane) }
        requires way { IsWayAt map.now (Requests client server) }
        requires ports { way_at map.now (Requests client server)
            ≡ request_way entry.client entry.port }
        ensures begun { (p : Setting) → Agrees p map.now
            → self.new.seat ≡ releasing p self.old.seat entry }
        ensures aimed { (p : Setting) → Agrees p map.now → IsAimed p self.new }
        ensures accesses { self.new.seat.accesses ≡ self.old.seat.accesses }
        ensures room { self.new.room ≡ self.old.room }
        ensures rooms { HasSameRooms self.old self.new }
    {
        let way = WayIndex::Requests { client, server };
        let node = node_at(map, client);
        self.entry = entry;
        if self.forgot.contains(&node) {
            self.at = At::Drops;
            return;
        }
        self.site = site_back(map, way);
        self.state = map.state(client, server, entry.lane as usize);
        self.pusher.push(entry.slot);
        self.at = At::ReleaseReturns;
    }

    /// Goes on with a release: it gives back, and closes a request's state where it is named.
    #[inline(always)]
    pub(super) fn release_on(&mut self, seen: u64) -> Option<SeatReply>
        requires there { IsReleasing self.old.seat.local }
        requires accesses { self.old.seat.accesses + 1 < 2 ^ 64 }
        ensures next { GoesOn self.old seen self.new }
        ensures over { Answers self.old seen result self.new }
        ensures aimed { StaysAimed self.old self.new }
        ensures accesses { self.new.seat.accesses ≡ self.old.seat.accesses + 1 }
        ensures room { KeepsRoom self.old self.new }
    {
        self.accesses += 1;
        match self.at {
            At::ReleaseReturns => {
                let event = self.pusher.advance(self.site, seen);
                if !is_publish(event) {
                    return None;
                }
                if is_request(self.entry.kind) {
                    self.at = At::ReleaseLooks;
                    return None;
                }
            }
            At::ReleaseLooks => {
                if is_named(seen, self.entry.request) {
                    self.seen = seen;
                    self.at = At::ReleaseExchanges;
                    return None;
                }
            }
            At::ReleaseExchanges => {
                if seen != self.seen && is_named(seen, self.entry.request) {
                    self.seen = seen;
                    return None;
                }
            }
            _ => {}
        }
        drop_received(&mut self.entries, &mut self.counts, self.entry);
        self.at = At::Idle;
        Some(SeatReply::Done)
    }
}

/// The node of the port at an index.
fn node_at(map: &WordMap, index: usize) -> u64
    requires { index < length map.now.ports.items }
    ensures node { result ≡ planned_node map.now index }
    ensures there { index < length map.now.ports.items }
    ensures plan { IsPlan map.now }
{
    map.plan().ports[index].node
}

/// Where the messages of a way return. The queue is in memory, as all words of the map are.
fn site_back(map: &WordMap, way: WayIndex) -> Site
    requires { IsWayAt map.now way }
    ensures site { result ≡ site_of (layout_of map.now) (ReturningQueue (way_at map.now way)) }
    ensures memory { IsInMemory result }
{
    // only what these promise is wanted
    let _plan = map.plan();
    let _total = map.total();
    map.returning_queue(way)
}

/// Whether a request state, as its word tells it, names that request.
#[inline(always)]
pub fn is_named(word: u64, request: u64) -> bool
    ensures { result ≡ names (state_told word) request }
{
    let hinted = (1 << 63) + 1;
    if word == 0 {
        false
    } else if word >= hinted {
        word - hinted == request
    } else {
        word - 1 == request
    }
}

/// Whether a handle is an active request.
#[inline(always)]
fn is_request(kind: Kind) -> bool
    ensures { result ≡ same_kind kind ActiveRequest }
{
    matches!(kind, Kind::ActiveRequest)
}

/// The way on which a received message came.
#[inline(always)]
pub(super) fn way_in(entry: Entry) -> Way
    ensures { result ≡ way_of_entry entry }
{
    if is_request(entry.kind) {
        Way {
            sender: entry.client,
            receiver: entry.port,
            lane: 0,
        }
    } else {
        Way {
            sender: entry.sender,
            receiver: entry.port,
            lane: entry.lane,
        }
    }
}

/// A received message is given up.
fn drop_received(entries: &mut Entries, counts: &mut Counts, entry: Entry)
    ensures entries { entries.new.entries ≡ without_entry entry entries.old.entries }
    ensures room { entries.new.room + length entries.new.entries
        ≡ entries.old.room + length entries.old.entries }
    ensures counts { counts.new ≡ map (with_count (way_of_entry entry) (λ n. n - 1)) counts.old }
{
    counts.remove(way_in(entry));
    entries.remove(entry);
}

/// Whether a value joined those that wait.
#[inline(always)]
fn is_publish(event: QueueEvent) -> bool
    ensures { result ≡ joins event }
{
    matches!(event, QueueEvent::Publish(_))
}
