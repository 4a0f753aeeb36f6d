//! Copies: loan, write and send in one. Where a receiver is full, the port's handler says what
//! comes of a copy, and where it has none, its strategy.
ghost use Rattle.std.specs.Prelude.{◌≡◌, ◌≢◌, Some, flat_map, length};
ghost use Rattle.iox_model.specs.declared.call.Call.TheVariants.{SendCopy};
ghost use Rattle.iox_model.specs.declared.kind.Kind.TheVariants.{ActiveRequest, Client};
ghost use Rattle.iox_model.specs.declared.kind.Role.TheVariants as roles;
ghost use Rattle.iox_model.specs.WholeCalls.{IsWholeCall};
ghost use Rattle.iox_tables.specs.HubStates.States.{Given};
ghost use Rattle.iox_tables.specs.HubStates.Tables.{HandleState, PortState, port_in};
ghost use Rattle.iox_tables.specs.HubStates.Wirings.{handle_in};
ghost use Rattle.iox_tables.specs.HubLoans.Lenders.{lender_of_request, lender_of_response};
ghost use Rattle.iox_control_request_copies.specs.Answers as responses;
ghost use Rattle.iox_control_request_copies.specs.Copies as requests;
ghost use Rattle.iox_control_request_copies.specs.Answered.TheVariants as answered;
ghost use Rattle.iox_control_request_copies.specs.declared.copied.Copied.TheVariants as copied;
ghost use Rattle.iox_control_request_copies.specs.LoanRefusal.TheVariants.{WantOfMemory};
ghost use Rattle.iox_hub.specs.Growing.{LoanHasRoom, WantsRoom};
ghost use Rattle.iox_hub.specs.Copying as spec;
ghost use Rattle.iox_hub.specs.Copying.{HasCopied, LeavesAnswered, LeavesCopied, asked_of_copy};
ghost use Rattle.iox_hub.specs.Hubs.{HasValue, fails_of, state_of_hub};
ghost use Rattle.iox_hub.specs.Keeping.{KeepsAll};
ghost use Rattle.iox_hub.specs.Lending.{payload_of};
ghost use Rattle.iox_tables.specs.HubStates.Releases.{way_to_client};

use crate::backpressure::{ByHandler, fails_at_client};
use crate::copies::{copy_request_in, copy_response_in};
use crate::growing::let_go;
use crate::hub::Hub;
use crate::lending::asked_of;
use iox_backpressure::Backpressure;
use iox_control_request_copies::{Answered, Copied, LoanRefusal, Place};
use iox_store::{Payload, Spare};
use iox_words::Words;

/// Where the words of the copy of a response belong, if it waits for its client.
fn place_of(answered: Answered) -> Option<Place>
    ensures { result ≡ spec.copy_place answered }
{
    match answered {
        Answered::Done(place) => place,
        Answered::Refused(_) => None,
        Answered::OutOfMemory => None,
        Answered::Undelivered => None,
    }
}

impl<Q: Payload, QH: Words, P: Payload, PH: Words, H: Backpressure> Hub<Q, QH, P, PH, H> {
    /// Sends a request of that client with copies of these elements to all servers, where its
    /// message has room for them: its own, or that which is given.
    fn copy_request_in_room(
        &mut self,
        node: u64,
        client: u64,
        values: &[Q::Element],
        spare: Option<Spare<Q::Element>>,
    ) -> Copied
        requires has { HasValue self.old node client Client }
        requires room { (p : PortState) → port_in self.old.control.tables.ports client ≡ Some p
            → LoanHasRoom self.old (lender_of_request p 0) self.old.request (length values.now)
            spare }
        ensures reply { (p : PortState) → port_in self.old.control.tables.ports client ≡ Some p
            → requests.Copies self.old.control p
            (asked_of_copy self.old.request (length values.now))
            (fails_of self.old p) result self.new.control }
        ensures left { LeavesCopied self.old (length values.now)
            (flat_map Q.Element.words values.now) result self.new }
        ensures whole { (x : Given) → IsWholeCall (state_of_hub x self.old) node
            (SendCopy client (payload_of roles.Client (length values.now)
            (flat_map Q.Element.words values.now)))
            (requests.reply_of_copy result) (state_of_hub x self.new) }
        ensures has { HasCopied self.new node (length values.now)
            (flat_map Q.Element.words values.now) result }
        ensures keeps { KeepsAll self.old self.new }
        ensures memory { result ≡ copied.Refused WantOfMemory → ⊥ }
    {
        let Some(port) = self.control.ports().find(client) else {
            unreachable!();
        };
        let handler = self.handlers.find(client);
        let by = ByHandler {
            handler,
            strategy: port.strategy,
        };
        let asked = asked_of::<Q, QH>(&self.request, values.len(), false);
        let copied = iox_control_request_copies::copy_request(
            &mut self.control,
            node,
            client,
            asked,
            &by,
        );
        if let Copied::To {
            number: _,
            servers: _,
            place,
        } = copied
        {
            copy_request_in(&mut self.words, place, values, &self.request, spare);
        } else {
            let_go(spare);
        }
        copied
    }

    /// Sends a response with copies of these elements to the client of that active request, where
    /// its message has room for them: its own, or that which is given.
    fn copy_response_in_room(
        &mut self,
        node: u64,
        number: u64,
        hint: usize,
        values: &[P::Element],
        spare: Option<Spare<P::Element>>,
    ) -> Answered
        requires has { HasValue self.old node number ActiveRequest }
        requires room { (h : HandleState) (p : PortState)
            → handle_in self.old.control.tables.handles node number ≡ Some h
            → port_in self.old.control.tables.ports h.port ≡ Some p
            → LoanHasRoom self.old (lender_of_response self.old.control.tables h p)
            self.old.response (length values.now) spare }
        ensures reply { (h : HandleState)
            → handle_in self.old.control.tables.handles node number ≡ Some h
            → (p : PortState) → port_in self.old.control.tables.ports h.port ≡ Some p
            → responses.CopyComesTo self.old.control
            (lender_of_response self.old.control.tables h p)
            (asked_of_copy self.old.response (length values.now))
            (fails_of self.old p (way_to_client self.old.control.tables h)) result
            self.new.control }
        ensures left { LeavesAnswered self.old (length values.now)
            (flat_map P.Element.words values.now) result self.new }
        ensures whole { (x : Given) → IsWholeCall (state_of_hub x self.old) node
            (SendCopy number (payload_of roles.Server (length values.now)
            (flat_map P.Element.words values.now)))
            (responses.reply_of_copy result) (state_of_hub x self.new) }
        ensures keeps { KeepsAll self.old self.new }
        ensures memory { result ≡ answered.Refused WantOfMemory → ⊥ }
    {
        let Some(entry) = self.control.entry(node, number, hint) else {
            unreachable!();
        };
        let fails = fails_at_client(&self.control, &self.handlers, entry);
        let asked = asked_of::<P, PH>(&self.response, values.len(), false);
        let answered = iox_control_request_copies::copy_response(
            &mut self.control,
            node,
            number,
            hint,
            asked,
            fails,
        );
        if let Some(place) = place_of(answered) {
            copy_response_in(&mut self.words, place, values, &self.response, spare);
        } else {
            let_go(spare);
        }
        answered
    }

    /// Sends a request of that client with copies of these elements to all servers, and says to how
    /// many: then the node has a pending response. What was given back to the client is got back
    /// first. Past the greatest length the message grows, where the client's do, and that takes
    /// memory.
    pub fn copy_request(&mut self, node: u64, client: u64, values: &[Q::Element]) -> Copied
        requires has { HasValue self.old node client Client }
        ensures reply { (p : PortState) → port_in self.old.control.tables.ports client ≡ Some p
            → result ≢ copied.Refused WantOfMemory → requests.Copies self.old.control p
            (asked_of_copy self.old.request (length values.now))
            (fails_of self.old p) result self.new.control }
        ensures left { LeavesCopied self.old (length values.now)
            (flat_map Q.Element.words values.now) result self.new }
        ensures whole { (x : Given) → IsWholeCall (state_of_hub x self.old) node
            (SendCopy client (payload_of roles.Client (length values.now)
            (flat_map Q.Element.words values.now)))
            (requests.reply_of_copy result) (state_of_hub x self.new) }
        ensures has { HasCopied self.new node (length values.now)
            (flat_map Q.Element.words values.now) result }
        ensures keeps { KeepsAll self.old self.new }
        ensures memory { result ≡ copied.Refused WantOfMemory → (p : PortState)
            → port_in self.old.control.tables.ports client ≡ Some p
            → WantsRoom self.old (lender_of_request p 0) self.old.request (length values.now) }
    {
        self.is_in_order();
        match self.room_for_request(node, client, values.len()) {
            Ok(spare) => self.copy_request_in_room(node, client, values, spare),
            Err(_) => Copied::Refused(LoanRefusal::WantOfMemory),
        }
    }

    /// Sends a response with copies of these elements to the client of that active request, whose
    /// handle is looked for at the hint first. What was given back to the server is got back first.
    /// Past the greatest length the message grows, where the server's do, and that takes memory.
    pub fn copy_response(
        &mut self,
        node: u64,
        number: u64,
        hint: usize,
        values: &[P::Element],
    ) -> Answered
        requires has { HasValue self.old node number ActiveRequest }
        ensures reply { (h : HandleState)
            → handle_in self.old.control.tables.handles node number ≡ Some h
            → (p : PortState) → port_in self.old.control.tables.ports h.port ≡ Some p
            → result ≢ answered.Refused WantOfMemory
            → responses.CopyComesTo self.old.control
            (lender_of_response self.old.control.tables h p)
            (asked_of_copy self.old.response (length values.now))
            (fails_of self.old p (way_to_client self.old.control.tables h)) result
            self.new.control }
        ensures left { LeavesAnswered self.old (length values.now)
            (flat_map P.Element.words values.now) result self.new }
        ensures whole { (x : Given) → IsWholeCall (state_of_hub x self.old) node
            (SendCopy number (payload_of roles.Server (length values.now)
            (flat_map P.Element.words values.now)))
            (responses.reply_of_copy result) (state_of_hub x self.new) }
        ensures keeps { KeepsAll self.old self.new }
        ensures memory { result ≡ answered.Refused WantOfMemory → (h : HandleState)
            (p : PortState) → handle_in self.old.control.tables.handles node number ≡ Some h
            → port_in self.old.control.tables.ports h.port ≡ Some p
            → WantsRoom self.old (lender_of_response self.old.control.tables h p)
            self.old.response (length values.now) }
    {
        self.is_in_order();
        match self.room_for_response(node, number, hint, values.len()) {
            Ok(spare) => self.copy_response_in_room(node, number, hint, values, spare),
            Err(_) => Answered::Refused(LoanRefusal::WantOfMemory),
        }
    }
}
