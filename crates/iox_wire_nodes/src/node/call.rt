//! How a node begins a call of a port or a handle.
ghost use Rattle.std.specs.Prelude.{◌≡◌, ◌<◌, IfErr, IfSome, None, OnErr, OnOk, false, length};
ghost use Rattle.iox_model.specs.declared.call.WireCall.TheVariants.{Port};
ghost use Rattle.iox_wire_begins.specs.ListRooms.{ListsHaveRoom};
ghost use Rattle.iox_wire_begins.specs.Plans.{number_at, port_of};
ghost use Rattle.iox_wire_begins.specs.WirePlans.{IsWirePlan};
ghost use Rattle.iox_wire_begins.specs.Terms.{IsSettingWith};
ghost use Rattle.iox_wire_begins.specs.Begins.{is_busy, refusal_at};
ghost use Rattle.iox_wire_begins.specs.Tables.{Setting};
ghost use Rattle.iox_wire_nodes.specs.Begins.{IsUnderWay};
ghost use Rattle.iox_wire_nodes.specs.Begins.{MayBegin, begun_at, node_refusal};
ghost use Rattle.iox_wire_nodes.specs.Calls.{IsKeptAt, call_in, call_in_words};
ghost use Rattle.iox_wire_nodes.specs.Calls.{number_in};
ghost use Rattle.iox_wire_nodes.specs.Nodes.{seat_in};
ghost use Rattle.iox_wire_nodes.specs.Rooms.{HasRoomToBegin, KeepsRooms};

use super::StoredNode;
use crate::node_call::NodeCall;
use crate::node_error::NodeError;
use iox_wire_begins::{Asked, BeginError, Lists, WireTerms, WordMap};

impl StoredNode {
    /// Begins a call of what has its number: the port at an index or, for `None`, a handle. What
    /// it lists is of no use later.
    pub fn begin(
        &mut self,
        map: &WordMap,
        terms: &WireTerms,
        call: NodeCall<'_>,
        port: Option<usize>,
        lists: &mut Lists,
    ) -> Result<(), NodeError>
        requires plan { IsWirePlan map.now terms.now }
        requires may { is_busy (seat_in self.old).local ≡ false
            → MayBegin map.now terms.now self.old.seat.seat }
        requires within { IfSome port (λ place. place < length map.now.ports.items) }
        requires there { IfSome port (λ place. number_at map.now place ≡ number_in call) }
        requires none { port ≡ None → port_of map.now (number_in call) ≡ None }
        requires lists { ListsHaveRoom map.now lists.old }
        requires rooms { HasRoomToBegin map.now self.old }
        ensures begun { (p : Setting) → IsSettingWith map.now terms.now p
            → OnOk result
            (IsUnderWay p self.old (Port (call_in p (seat_in self.old) call.entry)) self.new) }
        ensures refused { (p : Setting) → IsSettingWith map.now terms.now p → IfErr result
            (λ error. refusal_at p (seat_in self.old)
            (Port (call_in p (seat_in self.old) call.entry)) ≡ node_refusal error) }
        ensures at { OnOk result (IsKeptAt (call_in_words call.entry) self.new.at) }
        ensures role { (p : Setting) → OnOk result (self.new.at ≡ begun_at
            self.old.seat.seat.table (Port (call_in p (seat_in self.old) call.entry))) }
        ensures unchanged { OnErr result (self.new ≡ self.old) }
        ensures lists { ListsHaveRoom map.now lists.new }
        ensures rooms { OnOk result (KeepsRooms self.old self.new) }
    {
        if self.is_busy() {
            return Err(NodeError::Begin(BeginError::Busy));
        }
        match port {
            Some(port) => self.begin_at_port(map, terms, call, port, lists),
            None => self.begin_at_handle(map, terms, call, lists),
        }
    }

    /// Begins a call of the port at an index, which has its number.
    fn begin_at_port(
        &mut self,
        map: &WordMap,
        terms: &WireTerms,
        call: NodeCall<'_>,
        port: usize,
        lists: &mut Lists,
    ) -> Result<(), NodeError>
        requires plan { IsWirePlan map.now terms.now }
        requires may { MayBegin map.now terms.now self.old.seat.seat }
        requires within { port < length map.now.ports.items }
        requires there { number_at map.now port ≡ number_in call }
        requires lists { ListsHaveRoom map.now lists.old }
        requires rooms { HasRoomToBegin map.now self.old }
        ensures begun { (p : Setting) → IsSettingWith map.now terms.now p
            → OnOk result
            (IsUnderWay p self.old (Port (call_in p (seat_in self.old) call.entry)) self.new) }
        ensures refused { (p : Setting) → IsSettingWith map.now terms.now p → IfErr result
            (λ error. refusal_at p (seat_in self.old)
            (Port (call_in p (seat_in self.old) call.entry)) ≡ node_refusal error) }
        ensures at { OnOk result (IsKeptAt (call_in_words call.entry) self.new.at) }
        ensures role { (p : Setting) → OnOk result (self.new.at ≡ begun_at
            self.old.seat.seat.table (Port (call_in p (seat_in self.old) call.entry))) }
        ensures unchanged { OnErr result (self.new ≡ self.old) }
        ensures lists { ListsHaveRoom map.now lists.new }
        ensures rooms { OnOk result (KeepsRooms self.old self.new) }
    {
        let node = self.node();
        match call {
            NodeCall::Loan { number, elements } => {
                let stops = &mut lists.stops;
                self.begin_loan_at_port(map, terms, number, port, elements, stops)?;
                Ok(())
            }
            NodeCall::SendCopy { number, payload } => {
                let (role, words) = (payload.role, payload.words);
                self.begin_copy_at_port(map, terms, number, port, role, words, lists)?;
                Ok(())
            }
            NodeCall::Receive { number } => {
                let next = self.next_number(terms);
                let waits = terms.fire_and_forget;
                let sources = &mut lists.sources;
                self.begin_receive_at_port(map, node, number, port, waits, next, sources)?;
                Ok(())
            }
            NodeCall::HasRequests { number } => {
                let waits = terms.fire_and_forget;
                let (sources, stops) = (&mut lists.sources, &mut lists.stops);
                self.begin_has_requests(map, node, number, port, waits, sources, stops)?;
                Ok(())
            }
            NodeCall::Write { number, payload } => {
                let asked = Asked::Write(payload.role);
                Err(NodeError::Begin(self.refuse_at_port(map, terms, asked, number, port)))
            }
            NodeCall::Send { number } => {
                Err(NodeError::Begin(self.refuse_at_port(map, terms, Asked::Send, number, port)))
            }
            NodeCall::Handle { number, call } => {
                let asked = call.asked();
                Err(NodeError::Begin(self.refuse_at_port(map, terms, asked, number, port)))
            }
        }
    }

    /// Begins a call of the handle of its number, which is no port's.
    fn begin_at_handle(
        &mut self,
        map: &WordMap,
        terms: &WireTerms,
        call: NodeCall<'_>,
        lists: &mut Lists,
    ) -> Result<(), NodeError>
        requires plan { IsWirePlan map.now terms.now }
        requires may { MayBegin map.now terms.now self.old.seat.seat }
        requires no_port { port_of map.now (number_in call) ≡ None }
        requires lists { ListsHaveRoom map.now lists.old }
        requires rooms { HasRoomToBegin map.now self.old }
        ensures begun { (p : Setting) → IsSettingWith map.now terms.now p
            → OnOk result
            (IsUnderWay p self.old (Port (call_in p (seat_in self.old) call.entry)) self.new) }
        ensures refused { (p : Setting) → IsSettingWith map.now terms.now p → IfErr result
            (λ error. refusal_at p (seat_in self.old)
            (Port (call_in p (seat_in self.old) call.entry)) ≡ node_refusal error) }
        ensures at { OnOk result (IsKeptAt (call_in_words call.entry) self.new.at) }
        ensures role { (p : Setting) → OnOk result (self.new.at ≡ begun_at
            self.old.seat.seat.table (Port (call_in p (seat_in self.old) call.entry))) }
        ensures unchanged { OnErr result (self.new ≡ self.old) }
        ensures lists { ListsHaveRoom map.now lists.new }
        ensures rooms { OnOk result (KeepsRooms self.old self.new) }
    {
        let (sources, stops) = (&mut lists.sources, &mut lists.stops);
        match call {
            NodeCall::Loan { number, elements } => {
                self.begin_loan_on_handle(map, terms, number, elements, stops)?;
            }
            NodeCall::SendCopy { number, payload } => {
                let (role, words) = (payload.role, payload.words);
                self.begin_copy_on_handle(map, terms, number, role, words, stops)?;
            }
            NodeCall::Receive { number } => {
                self.begin_receive_on_handle(map, terms, number, sources)?;
            }
            NodeCall::Send { number } => {
                self.begin_send(map, terms, number, &mut lists.targets)?;
            }
            NodeCall::Write { number, payload } => {
                let (role, words) = (payload.role, payload.words);
                self.begin_write(map, number, role, words)?;
            }
            NodeCall::Handle { number, call } => {
                self.begin_on_handle(map, number, call, sources, stops)?;
            }
            NodeCall::HasRequests { number } => {
                let asked = Asked::HasRequests;
                return Err(NodeError::Begin(self.refuse_on_handle(map, asked, number)));
            }
        }
        Ok(())
    }
}
