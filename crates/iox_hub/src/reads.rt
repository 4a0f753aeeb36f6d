//! What nodes read of the messages of their handles.
ghost use Rattle.std.specs.Prelude.{◌≡◌, ◌++◌, ◌<◌, IfSome, Some, false, flat_map, true};
ghost use Rattle.iox_model.specs.declared.call.Call.TheVariants.{Read};
ghost use Rattle.iox_model.specs.declared.reply.Reply.TheVariants.{Words};
ghost use Rattle.iox_model.specs.WholeCalls.{IsWholeCall};
ghost use Rattle.iox_tables.specs.HubStates.States.{Given};
ghost use Rattle.iox_tables.specs.HubStates.Tables.{HandleState};
ghost use Rattle.iox_tables.specs.HubStates.Wirings.{handle_in};
ghost use Rattle.iox_control.specs.Entries.{handle_state};
ghost use Rattle.iox_hub.specs.Fits.{are_requests_in, carried_in, count_in};
ghost use Rattle.iox_hub.specs.Hubs.{state_of_hub};
ghost use Rattle.iox_hub.specs.Reads.{HasOf, has_request, has_response, message_in};

use crate::all_words::AllWords;
use crate::hub::Hub;
use iox_backpressure::Backpressure;
use iox_handles::Entry;
use iox_store::{Payload, Store};
use iox_words::Words;

/// What the requests carry whose pool is in this place.
#[inline(always)]
pub(crate) fn requests_in<QE: Words, QH: Words, PE: Words, PH: Words>(
    words: &AllWords<QE, QH, PE, PH>,
    pool: usize,
) -> &Store<QE, QH>
    requires requests { are_requests_in words.now.pools pool ≡ true }
    ensures { carried_in words.now.pools pool
        ≡ Some (record { requests = true; contents = result.now }) }
{
    &words.requests[pool]
}

/// What the responses carry whose pool is in this place.
#[inline(always)]
pub(crate) fn responses_in<QE: Words, QH: Words, PE: Words, PH: Words>(
    words: &AllWords<QE, QH, PE, PH>,
    pool: usize,
) -> &Store<PE, PH>
    requires there { 0 < count_in words.now.pools pool }
    requires responses { are_requests_in words.now.pools pool ≡ false }
    ensures { carried_in words.now.pools pool
        ≡ Some (record { requests = false; contents = result.now }) }
{
    &words.responses[pool]
}

impl<Q: Payload, QH: Words, P: Payload, PH: Words, H: Backpressure> Hub<Q, QH, P, PH, H> {
    /// The node's handle of that number, which it has. It is looked for at the hint first.
    pub(crate) fn handle(&self, node: u64, number: u64, hint: usize) -> Entry
        requires has { (h : HandleState)
            × (handle_in self.now.control.tables.handles node number ≡ Some h) }
        ensures { handle_in self.now.control.tables.handles node number
            ≡ Some (handle_state result) }
    {
        let Some(entry) = self.control.entry(node, number, hint) else {
            unreachable!();
        };
        entry
    }

    /// The node's handle of that number, which it has, if it is at the hint.
    #[inline(always)]
    fn near_handle(&self, node: u64, number: u64, hint: usize) -> Option<Entry>
        requires { (h : HandleState)
            × (handle_in self.now.control.tables.handles node number ≡ Some h) }
        ensures { IfSome result (λ entry. handle_in self.now.control.tables.handles node number
            ≡ Some (handle_state entry)) }
    {
        match self.control.near_known(node, number, hint) {
            Some(entry) => Some(entry),
            None => None,
        }
    }

    /// The filled elements of the request that the handle has: an active request, a pending
    /// response or a loaned request. The handle is looked for at the hint first.
    #[inline(always)]
    pub fn request(&self, node: u64, number: u64, hint: usize) -> &[Q::Element]
        requires has { HasOf has_request self.now node number }
        ensures words { flat_map Q.Element.words result.now
            ≡ (message_in self.now node number).payload }
        ensures whole { (x : Given) → IsWholeCall (state_of_hub x self.now) node (Read number)
            (Words ((message_in self.now node number).user ++ flat_map Q.Element.words result.now))
            (state_of_hub x self.now) }
    {
        match self.near_handle(node, number, hint) {
            Some(entry) => requests_in(&self.words, entry.pool).payload(entry.slot as usize),
            None => self.request_far(node, number),
        }
    }

    /// The same, where the handle is not at the hint. A call of its own, so that the others are
    /// short.
    #[inline(never)]
    #[cold]
    fn request_far(&self, node: u64, number: u64) -> &[Q::Element]
        requires has { HasOf has_request self.now node number }
        ensures words { flat_map Q.Element.words result.now
            ≡ (message_in self.now node number).payload }
        ensures whole { (x : Given) → IsWholeCall (state_of_hub x self.now) node (Read number)
            (Words ((message_in self.now node number).user ++ flat_map Q.Element.words result.now))
            (state_of_hub x self.now) }
    {
        let entry = self.handle(node, number, 0);
        requests_in(&self.words, entry.pool).payload(entry.slot as usize)
    }

    /// The user header of the request that the handle has.
    #[inline(always)]
    pub fn request_header(&self, node: u64, number: u64, hint: usize) -> &QH
        requires has { HasOf has_request self.now node number }
        ensures words { QH.words result.now ≡ (message_in self.now node number).user }
        ensures whole { (x : Given) → IsWholeCall (state_of_hub x self.now) node (Read number)
            (Words (QH.words result.now ++ (message_in self.now node number).payload))
            (state_of_hub x self.now) }
    {
        match self.near_handle(node, number, hint) {
            Some(entry) => requests_in(&self.words, entry.pool).user_header(entry.slot as usize),
            None => self.request_header_far(node, number),
        }
    }

    /// The same, where the handle is not at the hint. A call of its own, so that the others are
    /// short.
    #[inline(never)]
    #[cold]
    fn request_header_far(&self, node: u64, number: u64) -> &QH
        requires has { HasOf has_request self.now node number }
        ensures words { QH.words result.now ≡ (message_in self.now node number).user }
        ensures whole { (x : Given) → IsWholeCall (state_of_hub x self.now) node (Read number)
            (Words (QH.words result.now ++ (message_in self.now node number).payload))
            (state_of_hub x self.now) }
    {
        let entry = self.handle(node, number, 0);
        requests_in(&self.words, entry.pool).user_header(entry.slot as usize)
    }

    /// The filled elements of the response that the handle has: one that was received, or a loaned
    /// one. The handle is looked for at the hint first.
    #[inline(always)]
    pub fn response(&self, node: u64, number: u64, hint: usize) -> &[P::Element]
        requires has { HasOf has_response self.now node number }
        ensures words { flat_map P.Element.words result.now
            ≡ (message_in self.now node number).payload }
        ensures whole { (x : Given) → IsWholeCall (state_of_hub x self.now) node (Read number)
            (Words ((message_in self.now node number).user ++ flat_map P.Element.words result.now))
            (state_of_hub x self.now) }
    {
        match self.near_handle(node, number, hint) {
            Some(entry) => responses_in(&self.words, entry.pool).payload(entry.slot as usize),
            None => self.response_far(node, number),
        }
    }

    /// The same, where the handle is not at the hint. A call of its own, so that the others are
    /// short.
    #[inline(never)]
    #[cold]
    fn response_far(&self, node: u64, number: u64) -> &[P::Element]
        requires has { HasOf has_response self.now node number }
        ensures words { flat_map P.Element.words result.now
            ≡ (message_in self.now node number).payload }
        ensures whole { (x : Given) → IsWholeCall (state_of_hub x self.now) node (Read number)
            (Words ((message_in self.now node number).user ++ flat_map P.Element.words result.now))
            (state_of_hub x self.now) }
    {
        let entry = self.handle(node, number, 0);
        responses_in(&self.words, entry.pool).payload(entry.slot as usize)
    }

    /// The user header of the response that the handle has.
    #[inline(always)]
    pub fn response_header(&self, node: u64, number: u64, hint: usize) -> &PH
        requires has { HasOf has_response self.now node number }
        ensures words { PH.words result.now ≡ (message_in self.now node number).user }
        ensures whole { (x : Given) → IsWholeCall (state_of_hub x self.now) node (Read number)
            (Words (PH.words result.now ++ (message_in self.now node number).payload))
            (state_of_hub x self.now) }
    {
        match self.near_handle(node, number, hint) {
            Some(entry) => responses_in(&self.words, entry.pool).user_header(entry.slot as usize),
            None => self.response_header_far(node, number),
        }
    }

    /// The same, where the handle is not at the hint. A call of its own, so that the others are
    /// short.
    #[inline(never)]
    #[cold]
    fn response_header_far(&self, node: u64, number: u64) -> &PH
        requires has { HasOf has_response self.now node number }
        ensures words { PH.words result.now ≡ (message_in self.now node number).user }
        ensures whole { (x : Given) → IsWholeCall (state_of_hub x self.now) node (Read number)
            (Words (PH.words result.now ++ (message_in self.now node number).payload))
            (state_of_hub x self.now) }
    {
        let entry = self.handle(node, number, 0);
        responses_in(&self.words, entry.pool).user_header(entry.slot as usize)
    }
}
