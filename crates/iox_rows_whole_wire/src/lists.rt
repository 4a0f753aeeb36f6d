//! What calls on a wire of four ports, that come one after another, have to answer: told by a few
//! lists.
use super::chances::{Kind, Owned, PORTS};
use super::settings::Service;
use super::told::Told;
use std::alloc::{AllocError, Global};

pub(super) const CLIENTS: [u64; 2] = [0, 3];

pub(super) const SERVERS: [u64; 2] = [1, 2];

/// A message: its sender and its receiver, the lane on which it waits, that of its request, which
/// request this is, and the word.
#[derive(Clone, Copy)]
pub(super) struct Message {
    pub(super) from: u64,
    pub(super) to: u64,
    pub(super) way: u64,
    pub(super) lane: u64,
    pub(super) id: u64,
    pub(super) word: u64,
}

/// A port or a handle of a node, and its message.
#[derive(Clone, Copy)]
pub(super) struct Held {
    pub(super) of: Owned,
    pub(super) message: Message,
}

/// All that the answers depend on.
#[derive(Drop)]
pub(super) struct Lists {
    pub(super) service: Service,
    /// How many requests there were, and the next handle of each node.
    requests: u64,
    numbers: [u64; 3],
    /// The free lanes, each with its client.
    pub(super) lanes: Vec<(u64, u64)>,
    pub(super) held: Vec<Held>,
    /// The messages that wait, oldest first.
    pub(super) waiting: Vec<Message>,
    /// The requests that are open: at each server one. Their word is 1 with a hint.
    pub(super) open: Vec<Message>,
}

/// Whether both wait on one way.
fn on_one_way(a: Message, b: Message) -> bool {
    a.from == b.from && a.to == b.to && a.way == b.way
}

/// Whether both are one request, or responses to it, between the same ports.
pub(super) fn of_one_request(request: Message, other: Message) -> bool {
    request.lane == other.lane && request.id == other.id && request.from == other.from
}

/// The request of a response.
fn request_of(response: Message) -> Message {
    Message {
        from: response.to,
        to: response.from,
        ..response
    }
}

/// The response of a server to its request.
pub(super) fn response_to(request: Message, word: u64) -> Message {
    Message {
        from: request.to,
        to: request.from,
        way: request.lane,
        word,
        ..request
    }
}

impl Lists {
    /// Those of a wire without lanes and ports.
    pub(super) fn new(alloc: Global, service: Service) -> Lists {
        Lists {
            service,
            requests: 0,
            numbers: [4; 3],
            lanes: Vec::new(alloc),
            held: Vec::new(alloc),
            waiting: Vec::new(alloc),
            open: Vec::new(alloc),
        }
    }

    /// The wire has its lanes.
    fn add_lanes(&mut self) -> Result<(), AllocError> {
        for lane in 0..6 {
            self.lanes.push((0, lane))?;
            self.lanes.push((3, lane))?;
        }
        Ok(())
    }

    /// It has its lanes and its ports, and nothing happened yet.
    pub(super) fn begin(&mut self) -> Result<(), AllocError> {
        self.add_lanes()?;
        for of in PORTS {
            let message = self.of_port(of.number);
            self.held.push(Held { of, message })?;
        }
        Ok(())
    }

    /// What stands for a message at a port.
    pub(super) fn of_port(&self, port: u64) -> Message {
        Message {
            from: port,
            to: port,
            way: 0,
            lane: 0,
            id: self.requests,
            word: 0,
        }
    }

    /// The ports and handles of a node.
    pub(super) fn of_node(&self, node: u64) -> usize {
        let mut count: usize = 0;
        for held in &self.held {
            if held.of.node == node {
                count = count.saturating_add(1);
            }
        }
        count
    }

    /// One of them.
    pub(super) fn pick(&self, node: u64, place: usize) -> Option<Held> {
        let mut left = place;
        for held in &self.held {
            if held.of.node == node {
                if left == 0 {
                    return Some(*held);
                }
                left = left.saturating_sub(1);
            }
        }
        None
    }

    /// The node has a handle more, and is answered its number.
    pub(super) fn add(
        &mut self,
        node: u64,
        kind: Kind,
        message: Message,
    ) -> Result<Told, AllocError> {
        let Some(next) = self.numbers.get_mut(node as usize) else {
            return Ok(Told::Nothing);
        };
        let number = *next;
        *next = number.saturating_add(1);
        let of = Owned {
            node,
            number,
            kind,
            word: message.word,
        };
        self.held.push(Held { of, message })?;
        Ok(Told::Handle(number))
    }

    /// Where the handle stands.
    fn place(&self, of: Owned) -> Option<usize> {
        for (place, held) in self.held.iter().enumerate() {
            if held.of.node == of.node && held.of.number == of.number {
                return Some(place);
            }
        }
        None
    }

    /// The node has that handle no longer.
    pub(super) fn drop_handle(&mut self, of: Owned) {
        if let Some(place) = self.place(of) {
            if place < self.held.len() {
                self.held.remove(place);
            }
        }
    }

    /// It stands for something else.
    pub(super) fn turn(
        &mut self,
        of: Owned,
        kind: Kind,
        message: Message,
    ) -> Result<(), AllocError> {
        self.drop_handle(of);
        self.held.push(Held {
            of: Owned {
                kind,
                word: message.word,
                ..of
            },
            message,
        })?;
        Ok(())
    }

    /// How many requests a client has on loan, and whether one is pending.
    pub(super) fn client_has(&self, client: u64) -> (usize, bool) {
        let (mut lent, mut pending) = (0usize, false);
        for held in &self.held {
            if held.message.from == client {
                match held.of.kind {
                    Kind::Request | Kind::WrittenRequest => lent = lent.saturating_add(1),
                    Kind::Pending => pending = true,
                    _ => {}
                }
            }
        }
        (lent, pending)
    }

    /// How many responses a node has on loan: for the active request of that number, and of a
    /// server.
    pub(super) fn server_has(&self, of: Owned, server: u64) -> (usize, usize) {
        let (mut for_one, mut for_all) = (0usize, 0usize);
        for held in &self.held {
            if let Kind::Response(number) | Kind::WrittenResponse(number) = held.of.kind {
                if held.of.node == of.node && number == of.number {
                    for_one = for_one.saturating_add(1);
                }
                if held.message.from == server {
                    for_all = for_all.saturating_add(1);
                }
            }
        }
        (for_one, for_all)
    }

    /// How many messages wait on the way of that one.
    pub(super) fn count_waiting(&self, message: Message) -> usize {
        let mut count: usize = 0;
        for waiting in &self.waiting {
            if on_one_way(*waiting, message) {
                count = count.saturating_add(1);
            }
        }
        count
    }

    /// Whether the receiver has as many messages of that way as it may.
    pub(super) fn is_borrowed(&self, message: Message, kind: Kind) -> bool {
        for held in &self.held {
            if held.of.kind == kind && on_one_way(held.message, message) {
                return true;
            }
        }
        false
    }

    /// Where the oldest message on the way of that one stands.
    fn oldest(&self, message: Message) -> Option<usize> {
        for (place, waiting) in self.waiting.iter().enumerate() {
            if on_one_way(*waiting, message) {
                return Some(place);
            }
        }
        None
    }

    /// Takes the oldest message on the way of that one.
    pub(super) fn take(&mut self, message: Message) -> Option<Message> {
        match self.oldest(message) {
            Some(place) if place < self.waiting.len() => Some(self.waiting.remove(place)),
            _ => None,
        }
    }

    /// Whether the way has no room for a message, and gives none up.
    fn is_full(&self, message: Message, overflows: bool) -> bool {
        !overflows && self.count_waiting(message) > 0
    }

    /// The message waits; the oldest goes if there is no room.
    fn deliver(&mut self, message: Message) -> Result<(), AllocError> {
        if self.count_waiting(message) > 0 {
            self.take(message);
        }
        self.waiting.push(message)?;
        Ok(())
    }

    /// Whether the request is open, at its server or, for its client, at any; and with a hint.
    pub(super) fn is_open(&self, request: Message, at_any: bool) -> (bool, bool) {
        let (mut is_open, mut hinted) = (false, false);
        for open in &self.open {
            if of_one_request(request, *open) && (at_any || request.to == open.to) {
                is_open = true;
                hinted = hinted || open.word == 1;
            }
        }
        (is_open, hinted)
    }

    /// The request is closed, at its server or at all.
    pub(super) fn close(&mut self, request: Message, at_all: bool) {
        self.open.retain(|open| !of_one_request(request, *open)
            || !(at_all || request.to == open.to));
    }

    /// Where the first free lane of a client stands.
    fn free_lane(&self, client: u64) -> Option<usize> {
        for (place, lane) in self.lanes.iter().enumerate() {
            if lane.0 == client {
                return Some(place);
            }
        }
        None
    }

    /// The first free lane of a client is taken.
    fn take_lane(&mut self, client: u64) -> u64 {
        match self.free_lane(client) {
            Some(place) if place < self.lanes.len() => self.lanes.remove(place).1,
            _ => 0,
        }
    }

    /// A new request of a client, with that word, on a lane.
    pub(super) fn new_request(&mut self, client: u64, word: u64) -> Message {
        self.requests = self.requests.saturating_add(1);
        let lane = self.take_lane(client);
        Message {
            lane,
            word,
            ..self.of_port(client)
        }
    }

    /// Why a request is not sent, if it is not.
    fn send_refusal(&self, request: Message) -> Option<Told> {
        if self.client_has(request.from).1 {
            return Some(Told::ExceedsMaxActiveRequests);
        }
        for to in SERVERS {
            if self.is_full(Message { to, ..request }, self.service.request_overflow) {
                return Some(Told::UnableToDeliver);
            }
        }
        None
    }

    /// The request is open at a server, where it waits.
    fn deliver_request(&mut self, request: Message) -> Result<(), AllocError> {
        self.open.push(Message { word: 0, ..request })?;
        self.deliver(request)
    }

    /// A request is sent to all servers, or is given up.
    pub(super) fn send_request(&mut self, request: Message) -> Result<Told, AllocError> {
        if let Some(refused) = self.send_refusal(request) {
            self.lanes.push((request.from, request.lane))?;
            return Ok(refused);
        }
        for to in SERVERS {
            self.deliver_request(Message { to, ..request })?;
        }
        Ok(Told::Sent(2))
    }

    /// A response is sent, or is given up.
    pub(super) fn send_response(&mut self, response: Message) -> Result<Told, AllocError> {
        if !self.is_open(request_of(response), false).0 {
            return Ok(Told::Done);
        }
        if self.is_full(response, self.service.response_overflow) {
            return Ok(Told::UnableToDeliver);
        }
        self.deliver(response)?;
        Ok(Told::Done)
    }
}
