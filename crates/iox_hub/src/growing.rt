//! Room for messages that are lent for more elements than they have room for.
ghost use Rattle.std.specs.Prelude.{ℕ, ◌≡◌, ◌<◌, ◌≤◌, IfOk, IsErr, Some, false, true};
ghost use Rattle.iox_model.specs.declared.kind.Kind.TheVariants.{ActiveRequest, Client};
ghost use Rattle.iox_tables.specs.HubStates.Tables.{HandleState, PortState, port_in};
ghost use Rattle.iox_tables.specs.HubStates.Wirings.{handle_in};
ghost use Rattle.iox_tables.specs.HubLoans.Lenders.{lender_of_request, lender_of_response};
ghost use Rattle.iox_hub.specs.Fits.{are_requests_in, count_in};
ghost use Rattle.iox_hub.specs.Growing.{LoanHasRoom, WantsRoom};
ghost use Rattle.iox_hub.specs.Hubs.{HasValue};

use crate::all_words::AllWords;
use crate::hub::Hub;
use crate::lending::asked_of;
use iox_backpressure::Backpressure;
use iox_control_request_copies::{request_may_be_made, response_may_be_made};
use iox_store::{Payload, Spare};
use iox_words::Words;
use std::alloc::AllocError;

/// Lets room go that no message took.
#[inline]
pub(crate) fn let_go<E: Words>(_spare: Option<Spare<E>>) {}

/// Room for a request of so many elements, from the pool in this place. The words that there are
/// stay.
fn spare_of_requests<QE: Words, QH: Words, PE: Words, PH: Words>(
    words: &mut AllWords<QE, QH, PE, PH>,
    pool: usize,
    elements: usize,
) -> Result<Spare<QE>, AllocError>
    requires there { 0 < count_in words.old.pools pool }
    requires requests { are_requests_in words.old.pools pool ≡ true }
    ensures room { IfOk result (λ spare. elements ≤ spare) }
    ensures unchanged { words.new.pools ≡ words.old.pools }
{
    let requests = &mut words.requests[pool];
    requests.spare(elements)
}

/// Room for a response of so many elements, from the pool in this place. The words that there are
/// stay.
fn spare_of_responses<QE: Words, QH: Words, PE: Words, PH: Words>(
    words: &mut AllWords<QE, QH, PE, PH>,
    pool: usize,
    elements: usize,
) -> Result<Spare<PE>, AllocError>
    requires there { 0 < count_in words.old.pools pool }
    requires responses { are_requests_in words.old.pools pool ≡ false }
    ensures room { IfOk result (λ spare. elements ≤ spare) }
    ensures unchanged { words.new.pools ≡ words.old.pools }
{
    let responses = &mut words.responses[pool];
    responses.spare(elements)
}

impl<Q: Payload, QH: Words, P: Payload, PH: Words, H: Backpressure> Hub<Q, QH, P, PH, H> {
    /// Room for a request of so many elements, if the client's messages have not the room, and
    /// grow. Memory is asked for where the loan would be made, and only there: after all tests.
    pub(crate) fn room_for_request(
        &mut self,
        _node: u64,
        client: u64,
        elements: usize,
    ) -> Result<Option<Spare<Q::Element>>, AllocError>
        requires has { HasValue self.old _node client Client }
        ensures room { IfOk result (λ spare. (p : PortState)
            → port_in self.old.control.tables.ports client ≡ Some p
            → LoanHasRoom self.old (lender_of_request p 0) self.old.request elements spare) }
        ensures wants { IsErr result → (p : PortState)
            → port_in self.old.control.tables.ports client ≡ Some p
            → WantsRoom self.old (lender_of_request p 0) self.old.request elements }
        ensures unchanged { self.new ≡ self.old }
    {
        let Some(port) = self.control.ports().find(client) else {
            unreachable!();
        };
        if !port.grows {
            return Ok(None);
        }
        if elements as u64 <= port.longest {
            return Ok(None);
        }
        let asked = asked_of::<Q, QH>(&self.request, elements, false);
        if !request_may_be_made(&self.control, client, asked) {
            return Ok(None);
        }
        match spare_of_requests(&mut self.words, port.pool, elements) {
            Ok(spare) => Ok(Some(spare)),
            Err(error) => Err(error),
        }
    }

    /// The same for a response to that active request, whose handle is looked for at the hint
    /// first.
    pub(crate) fn room_for_response(
        &mut self,
        node: u64,
        number: u64,
        hint: usize,
        elements: usize,
    ) -> Result<Option<Spare<P::Element>>, AllocError>
        requires has { HasValue self.old node number ActiveRequest }
        ensures room { IfOk result (λ spare. (h : HandleState) (p : PortState)
            → handle_in self.old.control.tables.handles node number ≡ Some h
            → port_in self.old.control.tables.ports h.port ≡ Some p
            → LoanHasRoom self.old (lender_of_response self.old.control.tables h p)
            self.old.response elements spare) }
        ensures wants { IsErr result → (h : HandleState) (p : PortState)
            → handle_in self.old.control.tables.handles node number ≡ Some h
            → port_in self.old.control.tables.ports h.port ≡ Some p
            → WantsRoom self.old (lender_of_response self.old.control.tables h p)
            self.old.response elements }
        ensures unchanged { self.new ≡ self.old }
    {
        let Some(entry) = self.control.entry(node, number, hint) else {
            unreachable!();
        };
        let Some(port) = self.control.ports().find(entry.port) else {
            unreachable!();
        };
        if !port.grows {
            return Ok(None);
        }
        if elements as u64 <= port.longest {
            return Ok(None);
        }
        let asked = asked_of::<P, PH>(&self.response, elements, false);
        if !response_may_be_made(&self.control, node, number, hint, asked) {
            return Ok(None);
        }
        match spare_of_responses(&mut self.words, port.pool, elements) {
            Ok(spare) => Ok(Some(spare)),
            Err(error) => Err(error),
        }
    }
}
