//! What a wire is made for.
ghost use Rattle.std.specs.Prelude.{◌≡◌, ◌+◌, ◌*◌, length};
ghost use Rattle.iox_model.specs.declared.kind.Role.TheVariants.{Client, Server};
ghost use Rattle.iox_model.specs.Maps.{AreDistinct};
ghost use Rattle.iox_types.specs.Layouts.{as_usize};
ghost use Rattle.iox_word_map.specs.WordMaps.{total_words};
ghost use Rattle.iox_word_places.specs.Plans.{message_kind, planned_buffer, planned_limit};
ghost use Rattle.iox_word_places.specs.Plans.{message_words, returning_room, returning_words};
ghost use Rattle.iox_word_places.specs.Plans.{details_of, most_ways, numbers_of, port_numbers, sizes_of};
ghost use Rattle.iox_word_places.specs.PortSums.{client_words, region_words, server_count};
ghost use Rattle.iox_word_places.specs.PortSums.{planned_lane_words, planned_pair_words};

use crate::counting::{product, sum};
use iox_model::kind::Role;
use iox_steps::QueueKind;
use iox_types::MessageTypeDetails;

/// What a wire is made for: its ports in the order of their numbers, the limits of its service, and
/// what its requests and its responses are made of.
#[derive(Debug, Drop)]
pub struct WirePlan {
    /// The ports, in ascending order of their numbers.
    pub ports: Vec<PlanPort>,
    /// The limits of the service, as far as queues need them.
    pub limits: PlanLimits,
    /// What requests are made of.
    pub request: MessageTypeDetails,
    /// What responses are made of.
    pub response: MessageTypeDetails,
}

/// A port of a wire.
#[derive(Clone, Copy, Debug, PartialEq, Eq)]
pub struct PlanPort {
    /// Its number, by which calls name it.
    pub number: u64,
    /// The node that it belongs to.
    pub node: u64,
    /// Whether it is a client or a server.
    pub role: Role,
    /// How many messages its pool has. A client has as many lanes.
    pub pool: usize,
    /// The most elements of a message.
    pub longest: usize,
    /// How many words a message of the pool takes.
    pub slot_words: usize,
}

/// How many messages may wait, how many a receiver may have, and which queues overflow.
#[derive(Clone, Copy, Debug, PartialEq, Eq)]
pub struct PlanLimits {
    /// How many requests of a client may wait at a server, and how many may be held there.
    pub active_requests: usize,
    /// How many responses of a server may wait on a lane of a client.
    pub response_buffer: usize,
    /// How many responses of a server to one request a client may have.
    pub borrowed_responses: usize,
    /// Whether a request for a full server pushes out the oldest.
    pub request_overflow: bool,
    /// Whether a response for a full client pushes out the oldest.
    pub response_overflow: bool,
}

impl PlanLimits {
    /// The most messages of a sender of that role that may wait for one receiver, on one lane.
    pub fn buffer(&self, sender: Role) -> usize
        ensures { result ≡ planned_buffer self.now sender }
    {
        match sender {
            Role::Client => self.active_requests,
            Role::Server => self.response_buffer,
        }
    }

    /// The most messages of such a sender that one receiver may have, of one lane.
    pub fn borrow_limit(&self, sender: Role) -> usize
        ensures { result ≡ planned_limit self.now sender }
    {
        match sender {
            Role::Client => self.active_requests,
            Role::Server => self.borrowed_responses,
        }
    }

    /// What a push does to a full queue of such a sender's messages.
    pub fn kind(&self, sender: Role) -> QueueKind
        ensures { result ≡ message_kind self.now sender }
    {
        let overflows = match sender {
            Role::Client => self.request_overflow,
            Role::Server => self.response_overflow,
        };
        if overflows {
            QueueKind::Overflowing
        } else {
            QueueKind::Index
        }
    }

    /// How many messages may return to such a sender from one receiver, if that fits: all that
    /// wait, all that the receiver has, and one that is in hand.
    pub(crate) fn returning_room(&self, sender: Role) -> Option<usize>
        ensures { result ≡ as_usize (returning_room self.now sender) }
    {
        self.buffer(sender)
            .checked_add(self.borrow_limit(sender))?
            .checked_add(1)
    }

    /// How many words a queue of such a sender's messages has, if that fits.
    pub(crate) fn message_words(&self, sender: Role) -> Option<usize>
        ensures { result ≡ as_usize (message_words self.now sender) }
    {
        let others = match self.kind(sender) {
            QueueKind::Index => 2,
            QueueKind::Overflowing => 3,
        };
        self.buffer(sender).checked_add(others)
    }

    /// How many words a queue has that returns them, if that fits.
    pub(crate) fn returning_words(&self, sender: Role) -> Option<usize>
        ensures { result ≡ as_usize (returning_words self.now sender) }
    {
        self.returning_room(sender)?.checked_add(2)
    }

    /// How many words a lane has, if that fits.
    pub(crate) fn lane_words(&self) -> Option<usize>
        ensures { result ≡ as_usize (planned_lane_words self.now) }
    {
        let queues = sum(
            self.message_words(Role::Server),
            self.returning_words(Role::Server),
        );
        queues?.checked_add(1)
    }

    /// How many words the queues of a client's requests to one server have, if that fits.
    pub(crate) fn request_words(&self) -> Option<usize>
        ensures { result
            ≡ as_usize (message_words self.now Client + returning_words self.now Client) }
    {
        sum(
            self.message_words(Role::Client),
            self.returning_words(Role::Client),
        )
    }

    /// How many words a client of so many lanes has with one server, if that fits.
    pub(crate) fn pair_words(&self, lanes: usize) -> Option<usize>
        ensures { result ≡ as_usize (planned_pair_words self.now lanes) }
    {
        sum(self.request_words(), product(lanes, self.lane_words()))
    }
}

impl WirePlan {
    /// What the messages of a sender of that role are made of.
    pub fn details(&self, sender: Role) -> &MessageTypeDetails
        ensures { result.now ≡ details_of self.now sender }
    {
        match sender {
            Role::Client => &self.request,
            Role::Server => &self.response,
        }
    }

    /// How many servers there are.
    pub fn servers(&self) -> usize
        ensures { result ≡ length (numbers_of self.now Server) }
    {
        let mut servers = 0;
        for port in &self.ports {
            servers += port.servers();
        }
        servers
    }

    /// The most ways that a call visits, if that fits.
    pub fn most_ways(&self) -> Option<usize>
        ensures { result ≡ as_usize (most_ways self.now) }
    {
        let mut ways = Some(0);
        for port in &self.ports {
            ways = sum(ways, port.pool.checked_add(1));
        }
        ways
    }

    /// How many words the wire has, if that fits.
    pub fn total_words(&self) -> Option<usize>
        requires { AreDistinct (port_numbers self.now) }
        ensures { result ≡ as_usize (total_words (sizes_of self.now)) }
    {
        let servers = self.servers();
        let mut total = Some(0);
        for port in &self.ports {
            total = sum(total, port.words(&self.limits, servers));
        }
        total
    }
}

impl PlanPort {
    /// How many words the port's region has, if that fits.
    fn region_words(self) -> Option<usize>
        ensures { result ≡ as_usize (region_words self) }
    {
        self.pool.checked_mul(self.slot_words)
    }

    /// How many words a client has with so many servers, if that fits; a server has none.
    pub(crate) fn client_words(self, limits: &PlanLimits, servers: usize) -> Option<usize>
        ensures { result ≡ as_usize (client_words limits.now servers self) }
    {
        match self.role {
            Role::Client => product(servers, limits.pair_words(self.pool)),
            Role::Server => Some(0),
        }
    }

    /// One for a server, none for a client.
    pub(crate) fn servers(self) -> usize
        ensures { result ≡ server_count self }
    {
        match self.role {
            Role::Client => 0,
            Role::Server => 1,
        }
    }

    /// How many words there are for the port's sake, if that fits.
    fn words(self, limits: &PlanLimits, servers: usize) -> Option<usize>
        ensures { result ≡ as_usize (region_words self + client_words limits.now servers self) }
    {
        sum(self.region_words(), self.client_words(limits, servers))
    }
}
