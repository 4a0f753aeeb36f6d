//! What holders read of their loans, filled or not.
ghost use Rattle.std.specs.Prelude.{◌≡◌, flat_map};
ghost use Rattle.iox_model.specs.Handles.{is_request_loan, is_response_loan};
ghost use Rattle.iox_hub.specs.Reads.{HasOf, message_in};

use crate::hub::Hub;
use crate::reads::{requests_in, responses_in};
use iox_backpressure::Backpressure;
use iox_store::Payload;
use iox_words::Words;

impl<Q: Payload, QH: Words, P: Payload, PH: Words, H: Backpressure> Hub<Q, QH, P, PH, H> {
    /// The filled elements of a loaned request. Its handle is looked for at the hint first.
    pub fn loaned_request(&self, node: u64, number: u64, hint: usize) -> &[Q::Element]
        requires has { HasOf is_request_loan self.now node number }
        ensures words { flat_map Q.Element.words result.now
            ≡ (message_in self.now node number).payload }
    {
        let entry = self.handle(node, number, hint);
        requests_in(&self.words, entry.pool).payload(entry.slot as usize)
    }

    /// The user header of a loaned request.
    pub fn loaned_request_header(&self, node: u64, number: u64, hint: usize) -> &QH
        requires has { HasOf is_request_loan self.now node number }
        ensures words { QH.words result.now ≡ (message_in self.now node number).user }
    {
        let entry = self.handle(node, number, hint);
        requests_in(&self.words, entry.pool).user_header(entry.slot as usize)
    }

    /// The filled elements of a loaned response. Its handle is looked for at the hint first.
    pub fn loaned_response(&self, node: u64, number: u64, hint: usize) -> &[P::Element]
        requires has { HasOf is_response_loan self.now node number }
        ensures words { flat_map P.Element.words result.now
            ≡ (message_in self.now node number).payload }
    {
        let entry = self.handle(node, number, hint);
        responses_in(&self.words, entry.pool).payload(entry.slot as usize)
    }

    /// The user header of a loaned response.
    pub fn loaned_response_header(&self, node: u64, number: u64, hint: usize) -> &PH
        requires has { HasOf is_response_loan self.now node number }
        ensures words { PH.words result.now ≡ (message_in self.now node number).user }
    {
        let entry = self.handle(node, number, hint);
        responses_in(&self.words, entry.pool).user_header(entry.slot as usize)
    }
}
