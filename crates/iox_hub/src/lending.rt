//! Loans of clients.
ghost use Rattle.std.specs.Prelude.{◌≡◌, IsSome, Some, false};
ghost use Rattle.iox_model.specs.declared.kind.Kind.TheVariants.{Client};
ghost use Rattle.iox_model.specs.declared.kind.Role.TheVariants as roles;
ghost use Rattle.iox_model.specs.WholeCalls.{IsWholeCall};
ghost use Rattle.iox_tables.specs.HubStates.States.{Given};
ghost use Rattle.iox_tables.specs.HubStates.Tables.{PortState, port_in};
ghost use Rattle.iox_tables.specs.HubLoans.Lenders.{lender_of_request};
ghost use Rattle.iox_tables.specs.HubLoans.Loans.{loan_call};
ghost use Rattle.iox_hub_ports.specs.Ports.{info_in};
ghost use Rattle.iox_control_request_copies.specs.Lends.{reply_of_loan};
ghost use Rattle.iox_control_request_copies.specs.Lent.TheVariants.{Refused};
ghost use Rattle.iox_control_request_copies.specs.LoanRefusal.TheVariants.{WantOfMemory};
ghost use Rattle.iox_hub.specs.Growing.{LoanHasRoom, WantsRoom};
ghost use Rattle.iox_hub.specs.Hubs.{HasValue, state_of_hub};
ghost use Rattle.iox_hub.specs.Keeping.{IsNewLoan, KeepsAll};
ghost use Rattle.iox_hub.specs.Lending.{HasLent, IsAskedFor, LeavesLent};

use crate::contents::lend_request_in;
use crate::growing::let_go;
use crate::hub::Hub;
use crate::known_shape::KnownShape;
use iox_backpressure::Backpressure;
use iox_control_request_copies::{Asked, Lent, LoanRefusal, Loaned, lend_request_of};
use iox_hub_ports::info::PortInfo;
use iox_store::{Payload, Spare, is_length};
use iox_words::Words;

/// What is asked of a loan of such messages.
#[inline(always)]
pub(crate) fn asked_of<Q: Payload, H: Words>(
    shape: &KnownShape<Q::Element, H>,
    elements: usize,
    uninit: bool,
) -> Asked
    ensures { IsAskedFor Q.MANY Q.Element.WORDS Q.Element.words H.words shape.now elements uninit
        result }
{
    Asked {
        elements: elements as u64,
        uninit,
        is_count: is_length::<Q>(elements),
        has_layout: shape.has_layout(elements as u64),
    }
}

impl<Q: Payload, QH: Words, P: Payload, PH: Words, H: Backpressure> Hub<Q, QH, P, PH, H> {
    /// Lends a request of that client, of which this is said, and which is looked for at the hint
    /// first, for so many elements, where its message has room for them: its own, or that which is
    /// given.
    #[inline(always)]
    fn lend_request_in_room(
        &mut self,
        node: u64,
        client: u64,
        at: usize,
        port: PortInfo,
        elements: usize,
        uninit: bool,
        spare: Option<Spare<Q::Element>>,
    ) -> Lent
        requires has { HasValue self.old node client Client }
        requires said { Some port ≡ info_in self.old.control.tables.ports client }
        requires default { uninit ≡ false → IsSome self.old.request.default }
        requires room { (p : PortState) → port_in self.old.control.tables.ports client ≡ Some p
            → LoanHasRoom self.old (lender_of_request p 0) self.old.request elements spare }
        ensures left { LeavesLent self.old self.old.request uninit elements result self.new }
        ensures whole { (x : Given) → IsWholeCall (state_of_hub x self.old) node
            (loan_call uninit client elements) (reply_of_loan result) (state_of_hub x self.new) }
        ensures has { HasLent self.new node roles.Client self.old.request uninit elements result }
        ensures new { IsNewLoan self.old node result }
        ensures keeps { KeepsAll self.old self.new }
        ensures memory { result ≡ Refused WantOfMemory → ⊥ }
    {
        let asked = asked_of::<Q, QH>(&self.request, elements, uninit);
        let lent = lend_request_of(&mut self.control, node, client, at, port, asked);
        if let Lent::Handle(l) = lent {
            let slot = l.slot as usize;
            lend_request_in(
                &mut self.words,
                l.pool,
                slot,
                elements,
                uninit,
                &self.request,
                spare,
            );
        } else {
            let_go(spare);
        }
        lent
    }

    /// The same, of a client of which nothing is said.
    #[inline]
    fn lend_request_with(
        &mut self,
        node: u64,
        client: u64,
        elements: usize,
        uninit: bool,
        spare: Option<Spare<Q::Element>>,
    ) -> Lent
        requires has { HasValue self.old node client Client }
        requires default { uninit ≡ false → IsSome self.old.request.default }
        requires room { (p : PortState) → port_in self.old.control.tables.ports client ≡ Some p
            → LoanHasRoom self.old (lender_of_request p 0) self.old.request elements spare }
        ensures left { LeavesLent self.old self.old.request uninit elements result self.new }
        ensures whole { (x : Given) → IsWholeCall (state_of_hub x self.old) node
            (loan_call uninit client elements) (reply_of_loan result) (state_of_hub x self.new) }
        ensures has { HasLent self.new node roles.Client self.old.request uninit elements result }
        ensures new { IsNewLoan self.old node result }
        ensures keeps { KeepsAll self.old self.new }
        ensures memory { result ≡ Refused WantOfMemory → ⊥ }
    {
        let Some(port) = self.control.ports().find(client) else {
            unreachable!();
        };
        self.lend_request_in_room(node, client, 0, port, elements, uninit, spare)
    }

    /// Lends a request of that client for so many elements, for which its message may have to grow.
    #[inline(never)]
    #[cold]
    fn lend_request_growing(
        &mut self,
        node: u64,
        client: u64,
        elements: usize,
        uninit: bool,
    ) -> Lent
        requires has { HasValue self.old node client Client }
        requires default { uninit ≡ false → IsSome self.old.request.default }
        ensures left { LeavesLent self.old self.old.request uninit elements result self.new }
        ensures whole { (x : Given) → IsWholeCall (state_of_hub x self.old) node
            (loan_call uninit client elements) (reply_of_loan result) (state_of_hub x self.new) }
        ensures has { HasLent self.new node roles.Client self.old.request uninit elements result }
        ensures new { IsNewLoan self.old node result }
        ensures keeps { KeepsAll self.old self.new }
        ensures memory { result ≡ Refused WantOfMemory → (p : PortState)
            → port_in self.old.control.tables.ports client ≡ Some p
            → WantsRoom self.old (lender_of_request p 0) self.old.request elements }
    {
        self.is_in_order();
        match self.room_for_request(node, client, elements) {
            Ok(spare) => self.lend_request_with(node, client, elements, uninit, spare),
            Err(_) => Lent::Refused(LoanRefusal::WantOfMemory),
        }
    }

    /// The same, where it is not known at once that the message has room. What the call tells is put
    /// together anew, so that it stays in registers where it is not called.
    #[inline(always)]
    fn lend_request_other(&mut self, node: u64, client: u64, elements: usize, uninit: bool) -> Lent
        requires has { HasValue self.old node client Client }
        requires default { uninit ≡ false → IsSome self.old.request.default }
        ensures left { LeavesLent self.old self.old.request uninit elements result self.new }
        ensures whole { (x : Given) → IsWholeCall (state_of_hub x self.old) node
            (loan_call uninit client elements) (reply_of_loan result) (state_of_hub x self.new) }
        ensures has { HasLent self.new node roles.Client self.old.request uninit elements result }
        ensures new { IsNewLoan self.old node result }
        ensures keeps { KeepsAll self.old self.new }
        ensures memory { result ≡ Refused WantOfMemory → (p : PortState)
            → port_in self.old.control.tables.ports client ≡ Some p
            → WantsRoom self.old (lender_of_request p 0) self.old.request elements }
    {
        match self.lend_request_growing(node, client, elements, uninit) {
            Lent::Handle(loan) => Lent::Handle(Loaned {
                number: loan.number,
                pool: loan.pool,
                slot: loan.slot,
            }),
            Lent::Refused(refusal) => Lent::Refused(refusal),
            Lent::OutOfMemory => Lent::OutOfMemory,
        }
    }

    /// Lends a request of that client, which is looked for at the hint first, for so many elements,
    /// unfilled or each with its default. Past the greatest length the message grows, where the
    /// client's do, and that takes memory.
    #[inline(always)]
    pub fn lend_request(
        &mut self,
        node: u64,
        client: u64,
        hint: usize,
        elements: usize,
        uninit: bool,
    ) -> Lent
        requires has { HasValue self.old node client Client }
        requires default { uninit ≡ false → IsSome self.old.request.default }
        ensures left { LeavesLent self.old self.old.request uninit elements result self.new }
        ensures whole { (x : Given) → IsWholeCall (state_of_hub x self.old) node
            (loan_call uninit client elements) (reply_of_loan result) (state_of_hub x self.new) }
        ensures has { HasLent self.new node roles.Client self.old.request uninit elements result }
        ensures new { IsNewLoan self.old node result }
        ensures keeps { KeepsAll self.old self.new }
        ensures memory { result ≡ Refused WantOfMemory → (p : PortState)
            → port_in self.old.control.tables.ports client ≡ Some p
            → WantsRoom self.old (lender_of_request p 0) self.old.request elements }
    {
        self.is_in_order();
        if let Some(port) = self.control.ports().near(client, hint) {
            if elements as u64 <= port.longest && self.request.is_few(elements as u64) {
                return self.lend_request_in_room(node, client, hint, port, elements, uninit, None);
            }
        }
        self.lend_request_other(node, client, elements, uninit)
    }
}
