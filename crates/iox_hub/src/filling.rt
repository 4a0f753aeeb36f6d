//! What the holders of loans write into them, piece by piece.
ghost use Rattle.std.specs.Prelude.{◌≡◌, ◌↔◌, ◌<◌, ◌≤◌, IsTrue, false, true};
ghost use Rattle.std.specs.Bool.{OnFalse, OnTrue};
ghost use Rattle.iox_store.specs.Answering.{FillsByAnswers};
ghost use Rattle.iox_store.specs.Stored.{with_user, written_next};
ghost use Rattle.iox_model.specs.Handles.{is_request_loan, is_response_loan};
ghost use Rattle.iox_tables.specs.HubBooks.Handles.{is_loan};
ghost use Rattle.iox_control.specs.Controls.{IsControl};
ghost use Rattle.iox_control_request_copies.specs.Fills.{IsLoan};
ghost use Rattle.iox_hub.specs.Fillings.{FillsLoan, IsFill};
ghost use Rattle.iox_hub.specs.Reads.{HasOf, message_in};

use crate::filled::{
    is_filled_in, known_in, set_request_header_in, set_response_header_in, write_next_request_in,
    write_next_response_in, write_request_from_fn_in, write_response_from_fn_in,
};
use crate::hub::Hub;
use crate::reads::{requests_in, responses_in};
use iox_backpressure::Backpressure;
use iox_control::Control;
use iox_control_request_copies::{Place, fill};
use iox_store::Payload;
use iox_words::Words;

/// The holder of the node's loan fills some of it, or all: where its message is. Its handle is
/// looked for at the hint first.
fn fill_loan(control: &mut Control, node: u64, number: u64, hint: usize, all: bool) -> Place
    requires loan { IsLoan control.old.tables node number }
    requires order { IsControl control.old }
    ensures { IsFill control.old node number all control.new result }
{
    fill(control, node, number, hint, all)
}

impl<Q: Payload, QH: Words, P: Payload, PH: Words, H: Backpressure> Hub<Q, QH, P, PH, H> {
    /// Whether all elements of the loan are filled. Its handle is looked for at the hint first.
    pub fn is_filled(&self, node: u64, number: u64, hint: usize) -> bool
        requires has { HasOf is_loan self.now node number }
        ensures filled { IsTrue result ↔ (message_in self.now node number).filled
            ≡ (message_in self.now node number).elements }
        ensures within { (message_in self.now node number).filled
            ≤ (message_in self.now node number).elements }
    {
        let Some(entry) = self.control.entry(node, number, hint) else {
            unreachable!();
        };
        is_filled_in(&self.words, entry.pool, entry.slot as usize)
    }

    /// Gives a loaned request another user header. Its handle is looked for at the hint first.
    pub fn set_request_header(&mut self, node: u64, number: u64, hint: usize, user: QH)
        requires has { HasOf is_request_loan self.old node number }
        ensures { FillsLoan self.old node number false
            (with_user (message_in self.old node number) (QH.words user)) self.new }
    {
        let place = fill_loan(&mut self.control, node, number, hint, false);
        let slot = place.slot as usize;
        set_request_header_in(&mut self.words, place.pool, slot, user);
        known_in(requests_in(&self.words, place.pool), slot, &self.request);
    }

    /// Gives a loaned response another user header. Its handle is looked for at the hint first.
    pub fn set_response_header(&mut self, node: u64, number: u64, hint: usize, user: PH)
        requires has { HasOf is_response_loan self.old node number }
        ensures { FillsLoan self.old node number false
            (with_user (message_in self.old node number) (PH.words user)) self.new }
    {
        let place = fill_loan(&mut self.control, node, number, hint, false);
        let slot = place.slot as usize;
        set_response_header_in(&mut self.words, place.pool, slot, user);
        known_in(responses_in(&self.words, place.pool), slot, &self.response);
    }

    /// Fills the next element of a loaned request. Its handle is looked for at the hint first.
    pub fn write_next_request(&mut self, node: u64, number: u64, hint: usize, value: Q::Element)
        requires has { HasOf is_request_loan self.old node number }
        requires room { (message_in self.old node number).filled
            < (message_in self.old node number).elements }
        ensures { FillsLoan self.old node number false
            (written_next (message_in self.old node number) (Q.Element.words value)) self.new }
    {
        let place = fill_loan(&mut self.control, node, number, hint, false);
        let slot = place.slot as usize;
        write_next_request_in(&mut self.words, place.pool, slot, value);
        known_in(requests_in(&self.words, place.pool), slot, &self.request);
    }

    /// Fills the next element of a loaned response. Its handle is looked for at the hint first.
    pub fn write_next_response(&mut self, node: u64, number: u64, hint: usize, value: P::Element)
        requires has { HasOf is_response_loan self.old node number }
        requires room { (message_in self.old node number).filled
            < (message_in self.old node number).elements }
        ensures { FillsLoan self.old node number false
            (written_next (message_in self.old node number) (P.Element.words value)) self.new }
    {
        let place = fill_loan(&mut self.control, node, number, hint, false);
        let slot = place.slot as usize;
        write_next_response_in(&mut self.words, place.pool, slot, value);
        known_in(responses_in(&self.words, place.pool), slot, &self.response);
    }

    /// A loaned request is a filled one, if each of its elements is filled: whether that is so. Its
    /// handle is looked for at the hint first.
    pub fn assume_request_init(&mut self, node: u64, number: u64, hint: usize) -> bool
        requires has { HasOf is_request_loan self.old node number }
        ensures all { IsTrue result ↔ (message_in self.old node number).filled
            ≡ (message_in self.old node number).elements }
        ensures filled { OnTrue result
            (FillsLoan self.old node number true (message_in self.old node number) self.new) }
        ensures unchanged { OnFalse result (self.new ≡ self.old) }
    {
        if !self.is_filled(node, number, hint) {
            return false;
        }
        let place = fill_loan(&mut self.control, node, number, hint, true);
        known_in(
            requests_in(&self.words, place.pool),
            place.slot as usize,
            &self.request,
        );
        true
    }

    /// A loaned response is a filled one, if each of its elements is filled: whether that is so.
    /// Its handle is looked for at the hint first.
    pub fn assume_response_init(&mut self, node: u64, number: u64, hint: usize) -> bool
        requires has { HasOf is_response_loan self.old node number }
        ensures all { IsTrue result ↔ (message_in self.old node number).filled
            ≡ (message_in self.old node number).elements }
        ensures filled { OnTrue result
            (FillsLoan self.old node number true (message_in self.old node number) self.new) }
        ensures unchanged { OnFalse result (self.new ≡ self.old) }
    {
        if !self.is_filled(node, number, hint) {
            return false;
        }
        let place = fill_loan(&mut self.control, node, number, hint, true);
        known_in(
            responses_in(&self.words, place.pool),
            place.slot as usize,
            &self.response,
        );
        true
    }

    /// Fills a loaned request, each element with what the closure answers for its index. Its handle
    /// is looked for at the hint first.
    pub fn write_request_from_fn<F: FnMut(usize) -> Q::Element>(
        &mut self,
        node: u64,
        number: u64,
        hint: usize,
        f: F,
    )
        requires has { HasOf is_request_loan self.old node number }
        requires callable { F.IsAlwaysCallable f }
        ensures answered { FillsByAnswers Q.Element.words F.step f (message_in self.old node number)
            (message_in self.new node number) }
        ensures filled { FillsLoan self.old node number true (message_in self.new node number)
            self.new }
    {
        let place = fill_loan(&mut self.control, node, number, hint, true);
        let slot = place.slot as usize;
        write_request_from_fn_in(&mut self.words, place.pool, slot, f);
        known_in(requests_in(&self.words, place.pool), slot, &self.request);
    }

    /// Fills a loaned response, each element with what the closure answers for its index. Its
    /// handle is looked for at the hint first.
    pub fn write_response_from_fn<F: FnMut(usize) -> P::Element>(
        &mut self,
        node: u64,
        number: u64,
        hint: usize,
        f: F,
    )
        requires has { HasOf is_response_loan self.old node number }
        requires callable { F.IsAlwaysCallable f }
        ensures answered { FillsByAnswers P.Element.words F.step f (message_in self.old node number)
            (message_in self.new node number) }
        ensures filled { FillsLoan self.old node number true (message_in self.new node number)
            self.new }
    {
        let place = fill_loan(&mut self.control, node, number, hint, true);
        let slot = place.slot as usize;
        write_response_from_fn_in(&mut self.words, place.pool, slot, f);
        known_in(responses_in(&self.words, place.pool), slot, &self.response);
    }
}
