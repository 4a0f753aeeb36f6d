//! Writes to loans.
ghost use Rattle.std.specs.Prelude.{◌≡◌, ◌∷◌, [], IfSome, None, Some, flat_map, length, true};
ghost use Rattle.iox_model.specs.declared.call.Call.TheVariants.{Write};
ghost use Rattle.iox_model.specs.declared.kind.Kind.TheVariants.{RequestMut, ResponseMut};
ghost use Rattle.iox_model.specs.declared.kind.Role.TheVariants as roles;
ghost use Rattle.iox_model.specs.declared.reply.Reply.TheVariants.{Done};
ghost use Rattle.iox_model.specs.Handles.{filled_kind, is_request_loan, is_response_loan};
ghost use Rattle.iox_model.specs.WholeCalls.{IsWholeCall};
ghost use Rattle.iox_tables.specs.HubStates.States.{Given};
ghost use Rattle.iox_control.specs.Controls.{IsControl};
ghost use Rattle.iox_tables.specs.HubStates.Tables.{HandleState};
ghost use Rattle.iox_tables.specs.HubStates.Wirings.{handle_in};
ghost use Rattle.iox_control_request_copies.specs.Fills.{IsLoan, fits_loan, reply_of_write};
ghost use Rattle.iox_control_request_copies.specs.Written.TheVariants as written;
ghost use Rattle.iox_hub.specs.Hubs.{state_of_hub};
ghost use Rattle.iox_hub.specs.Keeping.{KeepsOthers};
ghost use Rattle.iox_hub.specs.Lending.{HasWritten, IsWrite, IsWritten, LeavesWritten, payload_of};
ghost use Rattle.iox_hub.specs.Reads.{HasOf, message_in};
ghost use Rattle.iox_hub.specs.WriteCalls.{WritesOne};

use crate::contents::{
    write_one_request_in, write_one_response_in, write_request_in, write_response_in,
};
use crate::hub::Hub;
use iox_backpressure::Backpressure;
use iox_control::Control;
use iox_control_request_copies::{Place, Written, write, write_known, write_whole};
use iox_model::kind::Kind;
use iox_store::Payload;
use iox_words::Words;

/// So many elements are written to the node's loan. Its handle is looked for at the hint first.
#[inline(always)]
fn write_loan(control: &mut Control, node: u64, number: u64, hint: usize, count: usize) -> Written
    requires loan { IsLoan control.old.tables node number }
    requires order { IsControl control.old }
    ensures { IsWrite control.old node number count control.new result }
{
    write(control, node, number, hint, Some(count as u64))
}

/// The node's loan of one element is filled in the tables, if its handle is at the hint. It is of
/// that kind then. `None` says that nothing changed.
#[inline(always)]
fn write_one(
    control: &mut Control,
    node: u64,
    number: u64,
    hint: usize,
    kind: Kind,
) -> Option<Place>
    requires loan { IsLoan control.old.tables node number }
    requires order { IsControl control.old }
    requires fits { (h : HandleState) → handle_in control.old.tables.handles node number ≡ Some h
        → fits_loan control.old.tables h (Some 1) ≡ true }
    requires kind { (h : HandleState) → handle_in control.old.tables.handles node number ≡ Some h
        → filled_kind h.kind ≡ kind }
    ensures written { IfSome result (λ place.
        IsWrite control.old node number 1 control.new (written.Done place)) }
    ensures unchanged { result ≡ None → control.new ≡ control.old }
{
    write_whole(control, node, number, hint, kind, 1)
}

/// The same, wherever its handle stands.
#[inline(always)]
fn write_one_far(control: &mut Control, node: u64, number: u64, hint: usize) -> Place
    requires loan { IsLoan control.old.tables node number }
    requires order { IsControl control.old }
    requires fits { (h : HandleState) → handle_in control.old.tables.handles node number ≡ Some h
        → fits_loan control.old.tables h (Some 1) ≡ true }
    ensures { IsWrite control.old node number 1 control.new (written.Done result) }
{
    write_known(control, node, number, hint, 1)
}

/// A loan that was filled, whose handle is looked for at the hint first.
#[derive(Clone, Copy)]
pub struct Filled {
    /// Where its message lies.
    pub place: Place,
    /// Whose it is.
    pub node: u64,
    /// The number of its handle.
    pub number: u64,
    /// Where its handle likely stands. A wrong place is only slower.
    pub hint: usize,
}

impl<Q: Payload, QH: Words, P: Payload, PH: Words, H: Backpressure> Hub<Q, QH, P, PH, H> {
    /// Fills a loaned request with copies of these elements, whatever was filled. Where they are
    /// not as many as the loan has, nothing changes. Its handle is looked for at the hint first.
    pub fn write_request(
        &mut self,
        node: u64,
        number: u64,
        hint: usize,
        values: &[Q::Element],
    ) -> Written
        requires has { HasOf is_request_loan self.old node number }
        ensures left { LeavesWritten self.old (flat_map Q.Element.words values.now) result
            self.new }
        ensures whole { (x : Given) → IsWholeCall (state_of_hub x self.old) node
            (Write number (payload_of roles.Client (length values.now)
            (flat_map Q.Element.words values.now)))
            (reply_of_write result) (state_of_hub x self.new) }
        ensures has { HasWritten self.old node number RequestMut (length values.now)
            (flat_map Q.Element.words values.now) result self.new }
        ensures keeps { KeepsOthers self.old node number self.new }
    {
        let written = write_loan(&mut self.control, node, number, hint, values.len());
        if let Written::Done(place) = written {
            write_request_in(&mut self.words, place.pool, place.slot as usize, values);
        }
        written
    }

    /// Fills a loaned response with copies of these elements, whatever was filled. Where they are
    /// not as many as the loan has, nothing changes. Its handle is looked for at the hint first.
    pub fn write_response(
        &mut self,
        node: u64,
        number: u64,
        hint: usize,
        values: &[P::Element],
    ) -> Written
        requires has { HasOf is_response_loan self.old node number }
        ensures left { LeavesWritten self.old (flat_map P.Element.words values.now) result
            self.new }
        ensures whole { (x : Given) → IsWholeCall (state_of_hub x self.old) node
            (Write number (payload_of roles.Server (length values.now)
            (flat_map P.Element.words values.now)))
            (reply_of_write result) (state_of_hub x self.new) }
        ensures has { HasWritten self.old node number ResponseMut (length values.now)
            (flat_map P.Element.words values.now) result self.new }
        ensures keeps { KeepsOthers self.old node number self.new }
    {
        let written = write_loan(&mut self.control, node, number, hint, values.len());
        if let Written::Done(place) = written {
            write_response_in(&mut self.words, place.pool, place.slot as usize, values);
        }
        written
    }

    /// Fills a loaned request of one element with that element, whatever was filled, and tells
    /// which loan it is and where its message lies. Its handle is looked for at the hint first.
    #[inline(always)]
    pub fn write_one_request(
        &mut self,
        node: u64,
        number: u64,
        hint: usize,
        value: Q::Element,
    ) -> Filled
        requires has { HasOf is_request_loan self.old node number }
        requires one { (message_in self.old node number).elements ≡ 1 }
        ensures left { LeavesWritten self.old (flat_map Q.Element.words (value ∷ []))
            (written.Done result.place) self.new }
        ensures whole { (x : Given) → IsWholeCall (state_of_hub x self.old) node
            (Write number (payload_of roles.Client 1 (flat_map Q.Element.words (value ∷ [])))) Done
            (state_of_hub x self.new) }
        ensures has { IsWritten self.old node number RequestMut 1
            (flat_map Q.Element.words (value ∷ [])) self.new }
        ensures keeps { KeepsOthers self.old node number self.new }
        ensures node { result.node ≡ node }
        ensures number { result.number ≡ number }
    {
        if let Some(place) = self.write_request_usual(node, number, hint, value) {
            return Filled {
                place,
                node,
                number,
                hint,
            };
        }
        // What the call tells is put together anew, so that it stays in registers on the usual way.
        let Filled {
            place,
            node,
            number,
            hint,
        } = self.write_request_far(node, number, hint, value);
        Filled {
            place,
            node,
            number,
            hint,
        }
    }

    /// The same, if its handle is at the hint. `None` says that nothing changed.
    #[inline(always)]
    fn write_request_usual(
        &mut self,
        node: u64,
        number: u64,
        hint: usize,
        value: Q::Element,
    ) -> Option<Place>
        requires has { HasOf is_request_loan self.old node number }
        requires one { (message_in self.old node number).elements ≡ 1 }
        ensures written { IfSome result (λ place. WritesOne self.old node number roles.Client
            RequestMut (flat_map Q.Element.words (value ∷ [])) place self.new) }
        ensures unchanged { result ≡ None → self.new ≡ self.old }
    {
        match write_one(&mut self.control, node, number, hint, Kind::RequestMut) {
            Some(place) => {
                write_one_request_in(&mut self.words, place.pool, place.slot as usize, value);
                Some(place)
            }
            None => None,
        }
    }

    /// The same on any way. A call of its own, so that the other is short.
    #[inline(never)]
    #[cold]
    fn write_request_far(
        &mut self,
        node: u64,
        number: u64,
        hint: usize,
        value: Q::Element,
    ) -> Filled
        requires has { HasOf is_request_loan self.old node number }
        requires one { (message_in self.old node number).elements ≡ 1 }
        ensures written { WritesOne self.old node number roles.Client RequestMut
            (flat_map Q.Element.words (value ∷ [])) result.place self.new }
        ensures node { result.node ≡ node }
        ensures number { result.number ≡ number }
    {
        let place = write_one_far(&mut self.control, node, number, hint);
        write_one_request_in(&mut self.words, place.pool, place.slot as usize, value);
        Filled {
            place,
            node,
            number,
            hint,
        }
    }

    /// Fills a loaned response of one element with that element, whatever was filled, and tells
    /// which loan it is and where its message lies. Its handle is looked for at the hint first.
    #[inline(always)]
    pub fn write_one_response(
        &mut self,
        node: u64,
        number: u64,
        hint: usize,
        value: P::Element,
    ) -> Filled
        requires has { HasOf is_response_loan self.old node number }
        requires one { (message_in self.old node number).elements ≡ 1 }
        ensures left { LeavesWritten self.old (flat_map P.Element.words (value ∷ []))
            (written.Done result.place) self.new }
        ensures whole { (x : Given) → IsWholeCall (state_of_hub x self.old) node
            (Write number (payload_of roles.Server 1 (flat_map P.Element.words (value ∷ [])))) Done
            (state_of_hub x self.new) }
        ensures has { IsWritten self.old node number ResponseMut 1
            (flat_map P.Element.words (value ∷ [])) self.new }
        ensures keeps { KeepsOthers self.old node number self.new }
        ensures node { result.node ≡ node }
        ensures number { result.number ≡ number }
    {
        if let Some(place) = self.write_response_usual(node, number, hint, value) {
            return Filled {
                place,
                node,
                number,
                hint,
            };
        }
        // What the call tells is put together anew, so that it stays in registers on the usual way.
        let Filled {
            place,
            node,
            number,
            hint,
        } = self.write_response_far(node, number, hint, value);
        Filled {
            place,
            node,
            number,
            hint,
        }
    }

    /// The same, if its handle is at the hint. `None` says that nothing changed.
    #[inline(always)]
    fn write_response_usual(
        &mut self,
        node: u64,
        number: u64,
        hint: usize,
        value: P::Element,
    ) -> Option<Place>
        requires has { HasOf is_response_loan self.old node number }
        requires one { (message_in self.old node number).elements ≡ 1 }
        ensures written { IfSome result (λ place. WritesOne self.old node number roles.Server
            ResponseMut (flat_map P.Element.words (value ∷ [])) place self.new) }
        ensures unchanged { result ≡ None → self.new ≡ self.old }
    {
        match write_one(&mut self.control, node, number, hint, Kind::ResponseMut) {
            Some(place) => {
                write_one_response_in(&mut self.words, place.pool, place.slot as usize, value);
                Some(place)
            }
            None => None,
        }
    }

    /// The same on any way. A call of its own, so that the other is short.
    #[inline(never)]
    #[cold]
    fn write_response_far(
        &mut self,
        node: u64,
        number: u64,
        hint: usize,
        value: P::Element,
    ) -> Filled
        requires has { HasOf is_response_loan self.old node number }
        requires one { (message_in self.old node number).elements ≡ 1 }
        ensures written { WritesOne self.old node number roles.Server ResponseMut
            (flat_map P.Element.words (value ∷ [])) result.place self.new }
        ensures node { result.node ≡ node }
        ensures number { result.number ≡ number }
    {
        let place = write_one_far(&mut self.control, node, number, hint);
        write_one_response_in(&mut self.words, place.pool, place.slot as usize, value);
        Filled {
            place,
            node,
            number,
            hint,
        }
    }
}
