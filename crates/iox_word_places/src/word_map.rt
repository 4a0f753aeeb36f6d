//! Where each thing of a wire stands.
ghost use Rattle.std.specs.Prelude.{◌≡◌, ◌+◌, ◌*◌, ◌<◌, ◌≤◌, ◌^◌, IfErr, IfOk, None, OnOk, length, slice_index_or};
ghost use Rattle.iox_model.specs.declared.kind.Role.TheVariants.{Client, Server};
ghost use Rattle.iox_sets.specs.Refusals.{IsRefusal};
ghost use Rattle.iox_types.specs.Layouts.{as_usize};
ghost use Rattle.iox_wire_words.specs.Programs.{site_of, state_place};
ghost use Rattle.iox_word_map.specs.WordMaps.{MessageQueue, Region, ReturningQueue};
ghost use Rattle.iox_word_map.specs.WordMaps.{lane_words, pair_words, piece_place, total_words};
ghost use Rattle.iox_word_places.specs.declared.new_error.WordMapNewError.TheVariants.{WantOfMemory};
ghost use Rattle.iox_word_places.specs.declared.way_index.WayIndex.TheVariants.{Requests, Responses};
ghost use Rattle.iox_word_places.specs.Plans.{IsLaneAt, IsPlan, IsPortAt, IsSlotAt, IsWayAt};
ghost use Rattle.iox_word_places.specs.Plans.{details_of, layout_of, most_ways, number_at, part_start};
ghost use Rattle.iox_word_places.specs.Plans.{sizes_of, slot_start, way_at};
ghost use Rattle.iox_word_places.specs.PortSums.{regions_before, way_size, way_start};
ghost use Rattle.iox_word_places.specs.MapFields.{AreWaySizes};
ghost use Rattle.iox_word_places.specs.Refusals.{map_refusal};

use crate::counting::told;
use crate::new_error::WordMapNewError;
use crate::part_words::part_word;
use crate::plan::{PlanLimits, PlanPort, WirePlan};
use crate::way_index::WayIndex;
use crate::way_sizes::WaySizes;
use iox_model::kind::Role;
use iox_steps::{QueueKind, Site};
use iox_types::MessageTypeDetails;
use iox_word_map::MessagePart;
use std::alloc::Global;
use std::marker::Model;

/// Where each thing of a wire stands among its words. Ports are named by their indexes in the plan.
#[derive(Debug, Drop)]
pub struct WordMap {
    plan: WirePlan,
    places: Vec<PortPlaces>,
    // what is the same of all ways
    sizes: WaySizes,
    // how many words all regions have, and all there is
    regions: usize,
    total: usize,
    // the most ways that a call visits, if that fits
    ways: Option<usize>,
}

/// What stands before a port's own words.
#[derive(Clone, Copy, Debug)]
struct PortPlaces {
    // the words of the regions before its own
    region: usize,
    // what the clients before it have with the servers
    clients: usize,
    // how many servers there are before it
    servers: usize,
}

impl PortPlaces {
    ghost use Rattle.iox_word_places.specs.MapFields.{places_behind};
    ghost use Rattle.iox_word_places.specs.PortSums.{client_words, region_words, server_count};

    /// What stands before the next port, of so many servers in all.
    fn behind(self, port: PlanPort, limits: &PlanLimits, servers: usize) -> PortPlaces
        requires region { self.region + region_words port < 2 ^ 64 }
        requires clients { self.clients + client_words limits.now servers port < 2 ^ 64 }
        requires servers { self.servers + server_count port ≤ servers }
        ensures { result ≡ places_behind limits.now servers port self }
    {
        PortPlaces {
            region: self.region + port.pool * port.slot_words,
            clients: self.clients + told(port.client_words(limits, servers)),
            servers: self.servers + port.servers(),
        }
    }
}

impl Model for WordMap {
    ghost use Rattle.iox_word_places.specs.declared.plan.WirePlan.{WirePlan};
    ghost use Rattle.iox_word_places.specs.MapFields.{IsMapOf};

    ghost Value = { WirePlan };

    ghost view = { λ map. map.plan };

    ghost invariant = { IsMapOf };
}

impl WordMap {
    ghost use Rattle.iox_word_places.specs.MapFields.{places_before};

    /// Makes the map of a wire. It is refused exactly if the wire has more words than a `usize`
    /// counts, or if there is no memory for the map.
    pub fn new(alloc: Global, plan: WirePlan) -> Result<WordMap, WordMapNewError>
        requires { IsPlan plan }
        ensures made { IfOk result (λ map. map ≡ plan) }
        ensures allowed { OnOk result (map_refusal plan ≡ None) }
        ensures refused { IfErr result (IsRefusal WantOfMemory (map_refusal plan)) }
    {
        let Some(total) = plan.total_words() else {
            return Err(WordMapNewError::TooManyWords);
        };
        let servers = plan.servers();
        let ways = plan.most_ways();
        let sizes = WaySizes::new(&plan.limits);
        let mut places = Vec::new(alloc);
        let mut next = PortPlaces {
            region: 0,
            clients: 0,
            servers: 0,
        };
        for port in &plan.ports {
            places.push(next)?;
            next = next.behind(*port, &plan.limits, servers);
        }
        Ok(WordMap {
            plan,
            places,
            sizes,
            regions: next.region,
            total,
            ways,
        })
    }

    /// The plan that it was made from.
    pub fn plan(&self) -> &WirePlan
        ensures value { result.now ≡ self.now }
        ensures plan { IsPlan self.now }
    {
        &self.plan
    }

    /// How many words the wire has.
    pub fn total(&self) -> usize
        ensures { result ≡ total_words (sizes_of self.now) }
    {
        self.total
    }

    /// The most ways that a call visits, if that fits.
    pub fn most_ways(&self) -> Option<usize>
        ensures { result ≡ as_usize (most_ways self.now) }
    {
        self.ways
    }

    /// The first word of a port's region.
    pub fn region(&self, port: usize) -> usize
        requires { port < length self.now.ports.items }
        ensures { result ≡ piece_place (sizes_of self.now) (Region (number_at self.now port)) }
    {
        let before = self.before(port);
        before.region
    }

    /// The first word of a slot of a port.
    pub fn slot(&self, port: usize, slot: usize) -> usize
        requires { IsSlotAt self.now port slot }
        ensures { result ≡ slot_start self.now (number_at self.now port) slot }
    {
        let at = self.port(port);
        let before = self.before(port);
        before.region + slot * at.slot_words
    }

    /// The first word of a part of the message in a slot of a port.
    pub fn part(&self, port: usize, slot: usize, part: MessagePart) -> usize
        requires { IsSlotAt self.now port slot }
        ensures { result ≡ part_start self.now (number_at self.now port) slot part }
    {
        let at = self.port(port);
        let before = self.before(port);
        let details = self.details(at.role);
        let start = slot * at.slot_words;
        let word = part_word(details, start, part);
        before.region + word
    }

    /// Where the messages of a way wait.
    pub fn message_queue(&self, way: WayIndex) -> Site
        requires { IsWayAt self.now way }
        ensures { result ≡ site_of (layout_of self.now) (MessageQueue (way_at self.now way)) }
    {
        let sender = way.sender();
        let limits = self.limits();
        let kind = limits.kind(sender);
        let base = self.way(way);
        let capacity = limits.buffer(sender);
        Site {
            kind,
            base,
            capacity,
        }
    }

    /// Where the messages of a way return to their sender.
    pub fn returning_queue(&self, way: WayIndex) -> Site
        requires { IsWayAt self.now way }
        ensures { result ≡ site_of (layout_of self.now) (ReturningQueue (way_at self.now way)) }
    {
        let sender = way.sender();
        let base = self.way(way);
        let queues = self.sizes().queues(sender);
        Site {
            kind: QueueKind::Index,
            base: base + queues.waiting,
            capacity: queues.room,
        }
    }

    /// The word of the request state on a client's lane with a server.
    pub fn state(&self, client: usize, server: usize, lane: usize) -> usize
        requires { IsWayAt self.now (Responses client server lane) }
        ensures { result
            ≡ state_place (layout_of self.now) (way_at self.now (Responses client server lane)) }
    {
        let base = self.lane(client, server, lane);
        let queues = self.sizes().queues(Role::Server);
        base + queues.waiting + queues.returning
    }

    /// Where the words of a way begin.
    fn way(&self, way: WayIndex) -> usize
        requires { IsWayAt self.now way }
        ensures place { result ≡ way_start self.now way }
        ensures within { result + way_size self.now way ≤ total_words (sizes_of self.now) }
        ensures plan { IsPlan self.now }
        ensures fits { total_words (sizes_of self.now) < 2 ^ 64 }
    {
        match way {
            WayIndex::Requests { client, server } => self.pair(client, server),
            WayIndex::Responses {
                client,
                server,
                lane,
            } => self.lane(client, server, lane),
        }
    }

    /// Where the words of a client with a server begin.
    fn pair(&self, client: usize, server: usize) -> usize
        requires client { IsPortAt self.now Client client }
        requires server { IsPortAt self.now Server server }
        ensures place { result ≡ way_start self.now (Requests client server) }
        ensures within { let z = sizes_of self.now in
            result + pair_words z (number_at self.now client) ≤ total_words z }
        ensures plan { IsPlan self.now }
        ensures fits { total_words (sizes_of self.now) < 2 ^ 64 }
    {
        let regions = self.regions();
        let sizes = self.sizes();
        let at = self.port(client);
        let pair = sizes.way + at.pool * sizes.lane;
        let here = self.before(client);
        let there = self.before(server);
        regions + here.clients + there.servers * pair
    }

    /// Where the words of a lane of a client with a server begin.
    fn lane(&self, client: usize, server: usize, lane: usize) -> usize
        requires lane { IsLaneAt self.now client lane }
        requires server { IsPortAt self.now Server server }
        ensures place { result ≡ way_start self.now (Responses client server lane) }
        ensures within { result + lane_words (sizes_of self.now) ≤ total_words (sizes_of self.now) }
        ensures plan { IsPlan self.now }
        ensures fits { total_words (sizes_of self.now) < 2 ^ 64 }
    {
        let pair = self.pair(client, server);
        let sizes = self.sizes();
        pair + sizes.way + lane * sizes.lane
    }

    /// How many words all regions have.
    fn regions(&self) -> usize
        ensures value { result ≡ regions_before self.now (length self.now.ports.items) }
        ensures plan { IsPlan self.now }
        ensures fits { total_words (sizes_of self.now) < 2 ^ 64 }
    {
        self.regions
    }

    /// What is the same of all ways.
    fn sizes(&self) -> &WaySizes
        ensures { AreWaySizes self.now.limits result.now }
    {
        &self.sizes
    }

    /// The limits of the plan.
    fn limits(&self) -> PlanLimits
        ensures { result ≡ self.now.limits }
    {
        self.plan.limits
    }

    /// What the messages of a sender of that role are made of.
    fn details(&self, sender: Role) -> &MessageTypeDetails
        ensures { result.now ≡ details_of self.now sender }
    {
        self.plan.details(sender)
    }

    /// The port at an index.
    fn port(&self, index: usize) -> PlanPort
        requires { index < length self.now.ports.items }
        ensures { result ≡ slice_index_or self.now.ports.items index result }
    {
        self.plan.ports[index]
    }

    /// What stands before the port at an index.
    fn before(&self, index: usize) -> PortPlaces
        requires { index < length self.now.ports.items }
        ensures value { result ≡ places_before self.now index }
        ensures plan { IsPlan self.now }
        ensures fits { total_words (sizes_of self.now) < 2 ^ 64 }
    {
        self.places[index]
    }
}
