//! A node of a wire, with whatever call is under way.
ghost use Rattle.std.specs.Prelude.{◌≡◌};

mod begin;
mod call;
mod copy;
mod copy_response;
mod count;
mod elements;
mod event;
mod lend;
mod look;
mod name;
mod place;
mod quiet;
mod receive;
mod receive_response;
mod refuse;
mod send;
mod told;
mod write;

use crate::call_at::{CallAt, NodeReply};
use iox_steps::Access;
use iox_wire_begins::{
    CopyingClient, CopyingServer, Lending, Receiving, Requesting, Responding, StoredSeat,
};
use std::alloc::{AllocError, Global};
use std::marker::Model;

/// A node of a wire: what it keeps for itself, and the call that is under way.
#[derive(Drop)]
pub struct StoredNode {
    at: CallAt,
    seat: StoredSeat,
    receiving: Receiving,
    lending: Lending,
    requesting: Requesting,
    responding: Responding,
    copying_client: CopyingClient,
    copying_server: CopyingServer,
}

impl Model for StoredNode {
    ghost use Rattle.std.specs.Prelude.{◌≡◌, false};
    ghost use Rattle.iox_wire_nodes.specs.declared.call_at.CallAt.TheVariants.{CopiesRequest};
    ghost use Rattle.iox_wire_nodes.specs.declared.call_at.CallAt.TheVariants.{CopiesResponse};
    ghost use Rattle.iox_wire_nodes.specs.declared.call_at.CallAt.TheVariants.{Lends, Receives};
    ghost use Rattle.iox_wire_nodes.specs.declared.call_at.CallAt.TheVariants.{Seats};
    ghost use Rattle.iox_wire_nodes.specs.declared.call_at.CallAt.TheVariants.{SendsRequest};
    ghost use Rattle.iox_wire_nodes.specs.declared.call_at.CallAt.TheVariants.{SendsResponse};
    ghost use Rattle.iox_wire_nodes.specs.Nodes.{NodeView, RestsUnless, same_call};

    ghost Value = { NodeView };

    ghost view = { λ n. record {
      at = n.at;
      seat = n.seat;
      receives = n.receiving;
      lends = n.lending;
      requests = n.requesting;
      responds = n.responding;
      copies_request = n.copying_client;
      copies_response = n.copying_server;
    } };

    ghost invariant = { λ n.
        RestsUnless (same_call Seats n.at) n.seat.seat.local
        × RestsUnless (same_call Receives n.at) n.receiving.local
        × RestsUnless (same_call Lends n.at) n.lending.local
        × RestsUnless (same_call SendsRequest n.at) n.requesting.local
        × RestsUnless (same_call SendsResponse n.at) n.responding.local
        × RestsUnless (same_call CopiesRequest n.at) n.copying_client.local
        × RestsUnless (same_call CopiesResponse n.at) n.copying_server.local
        × (n.requesting.copied ≡ false) };
}

impl StoredNode {
    ghost use Rattle.std.specs.Prelude.{◌≡◌, ◌+◌, ◌<◌, ◌^◌, IfOk, IfSome, false, true};
    ghost use Rattle.iox_wire_begins.specs.Programs.{program_access};
    ghost use Rattle.iox_wire_begins.specs.Begins.{is_busy};
    ghost use Rattle.iox_wire_begins.specs.Locals.{program_of};
    ghost use Rattle.iox_wire_begins.specs.Tables.{Setting};
    ghost use Rattle.iox_wire_begins.specs.Aims.{KeepsRoom};
    ghost use Rattle.iox_wire_nodes.specs.declared.call_at.CallAt.TheVariants.{Seats};
    ghost use Rattle.iox_wire_nodes.specs.Aims.{Answers, GoesOn, IsAimed, MayGoOn, StaysAimed};
    ghost use Rattle.iox_wire_nodes.specs.Aims.{StaysReady};
    ghost use Rattle.iox_wire_nodes.specs.Nodes.{answered_at, seat_in};
    ghost use Rattle.iox_wire_nodes.specs.Rooms.{HasRoomOf, KeepsRooms};

    /// A node with that seat, which is between calls. Whatever call it keeps beside the seat has
    /// room for so many ways, and for so many words of a message.
    pub fn new(
        alloc: Global,
        seat: StoredSeat,
        ways: usize,
        longest: usize,
    ) -> Result<StoredNode, AllocError>
        requires { is_busy seat.seat.local ≡ false }
        ensures seat { IfOk result (λ node. seat_in node ≡ seat.seat) }
        ensures whole { IfOk result (λ node. node.seat ≡ seat) }
        ensures at { IfOk result (λ node. node.at ≡ Seats) }
        ensures rooms { IfOk result (HasRoomOf ways longest) }
    {
        Ok(StoredNode {
            at: CallAt::Seats,
            seat,
            receiving: Receiving::new(alloc, ways)?,
            lending: Lending::new(alloc, ways, longest)?,
            requesting: Requesting::new(alloc, ways)?,
            responding: Responding::new(),
            copying_client: CopyingClient::new(alloc, ways, longest)?,
            copying_server: CopyingServer::new(alloc, ways, longest)?,
        })
    }

    /// Whether a call is under way.
    pub fn is_busy(&self) -> bool
        ensures { result ≡ is_busy (seat_in self.now).local }
    {
        match self.at {
            CallAt::Seats => self.seat.is_busy(),
            CallAt::Receives => self.receiving.is_busy(),
            CallAt::Lends => self.lending.is_busy(),
            CallAt::SendsRequest => self.requesting.is_busy(),
            CallAt::SendsResponse => self.responding.is_busy(),
            CallAt::CopiesRequest => self.copying_client.is_busy(),
            CallAt::CopiesResponse => self.copying_server.is_busy(),
        }
    }

    /// The words that its last read loaded.
    pub fn words(&self) -> &[u64]
        ensures { result.now ≡ self.now.seat.words }
    {
        self.seat.words()
    }

    /// The access that it makes next.
    #[inline(always)]
    pub fn asks(&self) -> Access
        ensures { (p : Setting) → IsAimed p self.now → result
            ≡ program_access p.layout (program_of p (seat_in self.now).local) }
    {
        match self.at {
            CallAt::Seats => self.seat.asks(),
            CallAt::Receives => self.receiving.asks(),
            CallAt::Lends => self.lending.asks(),
            CallAt::SendsRequest => self.requesting.asks(),
            CallAt::SendsResponse => self.responding.asks(),
            CallAt::CopiesRequest => self.copying_client.asks(),
            CallAt::CopiesResponse => self.copying_server.asks(),
        }
    }

    /// Continues after its access, which found `seen`. If its call is over it says what that
    /// answers. There is to be room for what the call adds at its end, and what the access gets
    /// back, delivers or gives up is to be in use.
    #[inline(always)]
    pub fn go_on(&mut self, seen: u64) -> Option<NodeReply>
        requires busy { is_busy (seat_in self.old).local ≡ true }
        requires accesses { self.old.seat.seat.accesses + 1 < 2 ^ 64 }
        requires may { MayGoOn self.old.at self.old seen }
        ensures next { GoesOn self.old seen self.new }
        ensures over { Answers self.old seen result self.new }
        ensures own { IfSome result (λ reply. answered_at reply ≡ self.old.at) }
        ensures ready { StaysReady self.old result self.new }
        ensures aimed { StaysAimed self.old self.new }
        ensures call { self.new.at ≡ self.old.at }
        ensures accesses { self.new.seat.seat.accesses ≡ self.old.seat.seat.accesses + 1 }
        ensures room { KeepsRoom self.old.seat self.new.seat }
        ensures rooms { KeepsRooms self.old self.new }
    {
        let seat = &mut self.seat;
        match self.at {
            CallAt::Seats => match seat.go_on(seen) {
                Some(reply) => return Some(NodeReply::OfSeat(reply)),
                None => return None,
            },
            CallAt::Receives => match self.receiving.go_on(seat, seen) {
                Some(reply) => return Some(NodeReply::OfReceive(reply)),
                None => return None,
            },
            CallAt::Lends => match self.lending.go_on(seat, seen) {
                Some(reply) => return Some(NodeReply::OfLoan(reply)),
                None => return None,
            },
            CallAt::SendsRequest => match self.requesting.go_on(seat, seen) {
                Some(reply) => return Some(NodeReply::OfRequest(reply)),
                None => return None,
            },
            CallAt::SendsResponse => match self.responding.go_on(seat, seen) {
                Some(reply) => return Some(NodeReply::OfResponse(reply)),
                None => return None,
            },
            CallAt::CopiesRequest => match self.copying_client.go_on(seat, seen) {
                Some(reply) => return Some(NodeReply::OfRequestCopy(reply)),
                None => return None,
            },
            CallAt::CopiesResponse => match self.copying_server.go_on(seat, seen) {
                Some(reply) => return Some(NodeReply::OfResponseCopy(reply)),
                None => return None,
            },
        }
    }
}
