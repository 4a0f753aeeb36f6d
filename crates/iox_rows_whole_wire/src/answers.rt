//! What lists say that a call answers.
use super::chances::{Kind, Owned, received_by, written};
use super::lists::{CLIENTS, Held, Lists, Message, SERVERS, of_one_request, response_to};
use super::play::Ask;
use super::told::Told;
use std::alloc::AllocError;

/// What a receive answers that got nothing.
fn nothing(seen: bool) -> Told {
    if seen {
        return Told::ExceedsMaxBorrows;
    }
    Told::Nothing
}

/// From whom a server or a pending response receives.
fn others(kind: Kind) -> [u64; 2] {
    match kind {
        Kind::Server => CLIENTS,
        _ => SERVERS,
    }
}

impl Lists {
    /// A client lends a request, if it may.
    fn lend_request(&mut self, of: Owned) -> Result<Told, AllocError> {
        if self.client_has(of.number).0 > 0 {
            return Ok(Told::ExceedsMaxLoans);
        }
        let request = self.new_request(of.number, 0);
        self.add(of.node, Kind::Request, request)
    }

    /// It lends, writes and sends one.
    fn copy_request(&mut self, of: Owned, word: u64) -> Result<Told, AllocError> {
        if self.client_has(of.number).0 > 0 {
            return Ok(Told::ExceedsMaxLoans);
        }
        let request = self.new_request(of.number, word);
        match self.send_request(request)? {
            Told::Sent(_) => self.add(of.node, Kind::Pending, request),
            refused => Ok(refused),
        }
    }

    /// Whether a response may be lent for the active request: one for it, and two of its server.
    fn may_respond(&self, held: Held) -> bool {
        let (for_one, for_all) = self.server_has(held.of, held.message.to);
        for_one == 0 && for_all < 2
    }

    /// A response is lent for the active request, if it may be.
    fn lend_response(&mut self, held: Held) -> Result<Told, AllocError> {
        if !self.may_respond(held) {
            return Ok(Told::ExceedsMaxLoans);
        }
        let kind = Kind::Response(held.of.number);
        self.add(held.of.node, kind, response_to(held.message, 0))
    }

    /// It is lent, written and sent.
    fn copy_response(&mut self, held: Held, word: u64) -> Result<Told, AllocError> {
        if !self.may_respond(held) {
            return Ok(Told::ExceedsMaxLoans);
        }
        self.send_response(response_to(held.message, word))
    }

    /// A loan gets a word.
    fn write(&mut self, held: Held, word: u64) -> Result<Told, AllocError> {
        let message = Message {
            word,
            ..held.message
        };
        self.turn(held.of, written(held.of.kind), message)?;
        Ok(Told::Done)
    }

    /// A loan is sent, or is given up.
    fn send(&mut self, held: Held) -> Result<Told, AllocError> {
        if held.of.kind != Kind::WrittenRequest {
            self.drop_handle(held.of);
            return self.send_response(held.message);
        }
        let told = self.send_request(held.message)?;
        match told {
            Told::Sent(_) => self.turn(held.of, Kind::Pending, held.message)?,
            _ => self.drop_handle(held.of),
        }
        Ok(told)
    }

    /// Whether a server hands the request out.
    fn is_of_use(&self, request: Message) -> bool {
        self.service.fire_and_forget || self.is_open(request, false).0
    }

    /// The way on which a server or a pending response receives from the other port.
    fn way_from(&self, held: Held, other: u64) -> Message {
        if held.of.kind == Kind::Server {
            let way = self.of_port(held.of.number);
            return Message { from: other, ..way };
        }
        let request = Message {
            to: other,
            ..held.message
        };
        response_to(request, 0)
    }

    /// Whether a message that is taken is handed out.
    fn is_handed_out(&self, held: Held, message: Message) -> bool {
        if held.of.kind == Kind::Server {
            return self.is_of_use(message);
        }
        message.id == held.message.id
    }

    /// Takes messages on that way, up to one that is handed out.
    fn take_on(&mut self, held: Held, way: Message) -> Option<Message> {
        for _ in 0..self.count_waiting(way) {
            let message = self.take(way)?;
            if self.is_handed_out(held, message) {
                return Some(message);
            }
        }
        None
    }

    /// A server or a pending response receives a message, from the first client or server that has
    /// one for it.
    fn receive(&mut self, held: Held) -> Result<Told, AllocError> {
        let kind = received_by(held.of.kind);
        let mut seen = false;
        for other in others(held.of.kind) {
            let way = self.way_from(held, other);
            if self.is_borrowed(way, kind) {
                seen = seen || self.count_waiting(way) > 0;
            } else if let Some(message) = self.take_on(held, way) {
                return self.add(held.of.node, kind, message);
            }
        }
        Ok(nothing(seen))
    }

    /// Each server has the hint at which the request is open.
    fn hint(&mut self, request: Message) {
        for open in &mut self.open {
            if of_one_request(request, *open) {
                open.word = 1;
            }
        }
    }

    /// The node gives the handle up.
    fn release(&mut self, held: Held) -> Result<Told, AllocError> {
        let message = held.message;
        self.drop_handle(held.of);
        match held.of.kind {
            Kind::Request | Kind::WrittenRequest => {
                self.lanes.push((message.from, message.lane))?;
            }
            Kind::Pending => {
                self.close(message, true);
                self.lanes.push((message.from, message.lane))?;
            }
            Kind::Active => self.close(message, false),
            _ => {}
        }
        Ok(Told::Done)
    }

    /// Whether a message waits for the port on that lane.
    fn has_waiting(&self, port: u64, way: u64) -> bool {
        for message in &self.waiting {
            if message.to == port && message.way == way {
                return true;
            }
        }
        false
    }

    /// What a call answers that changes nothing.
    fn look(&self, held: Held, ask: Ask) -> Told {
        let message = held.message;
        match ask {
            Ask::HasRequests(server) => Told::Answer(self.has_waiting(server, 0)),
            Ask::HasResponse(_) => Told::Answer(self.has_waiting(message.from, message.lane)),
            Ask::IsConnected(_) => {
                Told::Answer(self.is_open(message, held.of.kind == Kind::Pending).0)
            }
            Ask::HasHint(_) => Told::Answer(self.is_open(message, false).1),
            _ => Told::Word(message.word),
        }
    }

    /// What the call answers.
    pub(super) fn answer(&mut self, held: Held, ask: Ask) -> Result<Told, AllocError> {
        match ask {
            Ask::Loan(_) if held.of.kind == Kind::Client => self.lend_request(held.of),
            Ask::Loan(_) => self.lend_response(held),
            Ask::CopyRequest(_, word) => self.copy_request(held.of, word),
            Ask::CopyResponse(_, word) => self.copy_response(held, word),
            Ask::WriteRequest(_, word) | Ask::WriteResponse(_, word) => self.write(held, word),
            Ask::Send(_) => self.send(held),
            Ask::Receive(_) => self.receive(held),
            Ask::Release(_) => self.release(held),
            Ask::SetHint(_) => {
                self.hint(held.message);
                Ok(Told::Done)
            }
            _ => Ok(self.look(held, ask)),
        }
    }
}
