//! The sends of loans. Where a receiver is full, the port's handler says what comes of a send, and
//! where it has none, its strategy.
ghost use Rattle.std.specs.Prelude.{◌≡◌, ◌<◌, ◌^◌, IfSome, None, Some};
ghost use Rattle.iox_model.specs.declared.call.Call.TheVariants.{Send};
ghost use Rattle.iox_model.specs.declared.kind.Kind.TheVariants.{RequestMut, ResponseMut};
ghost use Rattle.iox_model.specs.WholeCalls.{IsWholeCall};
ghost use Rattle.iox_tables.specs.HubStates.States.{Given};
ghost use Rattle.iox_tables.specs.HubStates.Tables.{HandleState, PortState, port_in};
ghost use Rattle.iox_tables.specs.HubStates.Releases.{way_to_client};
ghost use Rattle.iox_tables.specs.HubStates.Wirings.{handle_in};
ghost use Rattle.iox_control_releasing.specs.Goings.{StaysTidy};
ghost use Rattle.iox_control_request_copies.specs.Sendings as requests;
ghost use Rattle.iox_control_request_copies.specs.Responses as responses;
ghost use Rattle.iox_hub.specs.Hubs.{HasValue, fails_of, state_of_hub, with_control};
ghost use Rattle.iox_hub.specs.Keeping.{KeepsOthers};
ghost use Rattle.iox_control_request_copies.specs.Requested.TheVariants.{To};
ghost use Rattle.iox_hub.specs.SendCalls.{SendsRequest, SendsResponse};
ghost use Rattle.iox_hub.specs.Sending.{HasNothing, HasSent, with_words_left};

use crate::backpressure::{asked_of_client, fails_without_overflow};
use crate::hub::Hub;
use iox_backpressure::Backpressure;
use iox_control_request_copies::{
    Requested, Responded, send_request, send_request_usual, send_response, send_response_usual,
};
use iox_store::Payload;
use iox_words::Words;

impl<Q: Payload, QH: Words, P: Payload, PH: Words, H: Backpressure> Hub<Q, QH, P, PH, H> {
    /// Sends a loaned response to its client, and ends its handle, which is looked for at the hint
    /// first; the server goes with it, if nothing else of that is left.
    pub fn send_response(&mut self, node: u64, number: u64, hint: usize) -> Responded
        requires has { HasValue self.old node number ResponseMut }
        requires calls { self.old.control.tables.calls < 2 ^ 56 }
        ensures reply { (h : HandleState)
            → handle_in self.old.control.tables.handles node number ≡ Some h
            → (p : PortState) → port_in self.old.control.tables.ports h.port ≡ Some p
            → responses.reply_of_send result
            ≡ responses.response_reply self.old.control.tables h
            (fails_of self.old p (way_to_client self.old.control.tables h)) }
        ensures left { (h : HandleState)
            → handle_in self.old.control.tables.handles node number ≡ Some h
            → self.new ≡ with_words_left (with_control self.old self.new.control) h.pool }
        ensures whole { (x : Given) → IsWholeCall (state_of_hub x self.old) node
            (Send number) (responses.reply_of_send result) (state_of_hub x self.new) }
        ensures gone { HasNothing self.new node number }
        ensures keeps { KeepsOthers self.old node number self.new }
        ensures tidy { StaysTidy self.old.control.tables self.new.control.tables }
    {
        if let Some(responded) = self.send_response_usual(node, number, hint) {
            return responded;
        }
        self.send_response_far(node, number, hint)
    }

    /// The same on the usual way: nothing goes, neither a port nor a pool. `None` says that nothing
    /// changed.
    #[inline(always)]
    fn send_response_usual(&mut self, node: u64, number: u64, hint: usize) -> Option<Responded>
        requires has { HasValue self.old node number ResponseMut }
        requires calls { self.old.control.tables.calls < 2 ^ 56 }
        ensures sent { IfSome result (λ responded.
            SendsResponse self.old node number responded self.new) }
        ensures unchanged { result ≡ None → self.new ≡ self.old }
    {
        let entry = self.control.near_known(node, number, hint)?;
        send_response_usual(&mut self.control, node, number, hint, entry)
    }

    /// The same, where it is not on its usual way. A call of its own, so that the others are short.
    #[inline(never)]
    #[cold]
    fn send_response_far(&mut self, node: u64, number: u64, hint: usize) -> Responded
        requires has { HasValue self.old node number ResponseMut }
        requires calls { self.old.control.tables.calls < 2 ^ 56 }
        ensures { SendsResponse self.old node number result self.new }
    {
        let entry = self.control.known(node, number, hint);
        let fails = fails_without_overflow(&self.control, &self.handlers, entry);
        let responded = send_response(&mut self.control, node, number, hint, fails);
        self.drop_words(entry.pool);
        responded
    }

    /// Sends a loaned request, whose handle is looked for at the hint first, to all servers, and
    /// says to how many: then the handle is a pending response. Where the request is lost, the
    /// client goes with it, if nothing else of that is left.
    pub fn send_request(&mut self, node: u64, number: u64, hint: usize) -> Requested
        requires has { HasValue self.old node number RequestMut }
        requires calls { self.old.control.tables.calls < 2 ^ 56 }
        ensures reply { (h : HandleState)
            → handle_in self.old.control.tables.handles node number ≡ Some h
            → (p : PortState) → port_in self.old.control.tables.ports h.port ≡ Some p
            → result ≡ requests.request_outcome (fails_of self.old p) self.old.control.tables h }
        ensures left { (h : HandleState)
            → handle_in self.old.control.tables.handles node number ≡ Some h
            → self.new ≡ with_words_left (with_control self.old self.new.control) h.pool }
        ensures whole { (x : Given) → IsWholeCall (state_of_hub x self.old) node
            (Send number) (requests.reply_of_send result) (state_of_hub x self.new) }
        ensures has { HasSent self.new node number result }
        ensures keeps { KeepsOthers self.old node number self.new }
        ensures tidy { StaysTidy self.old.control.tables self.new.control.tables }
    {
        if let Some(servers) = self.send_request_usual(node, number, hint) {
            return Requested::To(servers);
        }
        self.send_request_far(node, number, hint)
    }

    /// The same on the usual way, and to how many servers: nothing goes, neither a port nor a pool.
    /// `None` says that nothing changed.
    #[inline(always)]
    fn send_request_usual(&mut self, node: u64, number: u64, hint: usize) -> Option<u64>
        requires has { HasValue self.old node number RequestMut }
        requires calls { self.old.control.tables.calls < 2 ^ 56 }
        ensures sent { IfSome result (λ servers.
            SendsRequest self.old node number (To servers) self.new) }
        ensures unchanged { result ≡ None → self.new ≡ self.old }
    {
        let entry = self.control.near_known(node, number, hint)?;
        send_request_usual(&mut self.control, node, number, hint, entry)
    }

    /// The same, where it is not on its usual way. A call of its own, so that the others are short.
    #[inline(never)]
    #[cold]
    fn send_request_far(&mut self, node: u64, number: u64, hint: usize) -> Requested
        requires has { HasValue self.old node number RequestMut }
        requires calls { self.old.control.tables.calls < 2 ^ 56 }
        ensures { SendsRequest self.old node number result self.new }
    {
        let entry = self.control.known(node, number, hint);
        let by = asked_of_client(&self.control, &self.handlers, entry.port);
        let requested = send_request(&mut self.control, node, number, hint, &by);
        self.drop_words(entry.pool);
        requested
    }
}
