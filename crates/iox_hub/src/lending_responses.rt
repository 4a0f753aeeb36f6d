//! Loans of active requests.
ghost use Rattle.std.specs.Prelude.{◌≡◌, IsSome, Some, false};
ghost use Rattle.iox_model.specs.declared.kind.Kind.TheVariants.{ActiveRequest};
ghost use Rattle.iox_model.specs.declared.kind.Role.TheVariants as roles;
ghost use Rattle.iox_model.specs.WholeCalls.{IsWholeCall};
ghost use Rattle.iox_tables.specs.HubStates.States.{Given};
ghost use Rattle.iox_tables.specs.HubStates.Tables.{HandleState, PortState, port_in};
ghost use Rattle.iox_tables.specs.HubStates.Wirings.{handle_in};
ghost use Rattle.iox_tables.specs.HubLoans.Lenders.{lender_of_response};
ghost use Rattle.iox_tables.specs.HubLoans.Loans.{loan_call};
ghost use Rattle.iox_hub_ports.specs.Ports.{info_in};
ghost use Rattle.iox_control.specs.Entries.{handle_state};
ghost use Rattle.iox_control_request_copies.specs.Lends.{reply_of_loan};
ghost use Rattle.iox_control_request_copies.specs.Lent.TheVariants.{Refused};
ghost use Rattle.iox_control_request_copies.specs.LoanRefusal.TheVariants.{WantOfMemory};
ghost use Rattle.iox_hub.specs.Growing.{LoanHasRoom, WantsRoom};
ghost use Rattle.iox_hub.specs.Hubs.{HasValue, state_of_hub};
ghost use Rattle.iox_hub.specs.Keeping.{IsNewLoan, KeepsAll};
ghost use Rattle.iox_hub.specs.Lending.{HasLent, LeavesLent};

use crate::contents::lend_response_in;
use crate::growing::let_go;
use crate::hub::Hub;
use crate::lending::asked_of;
use iox_backpressure::Backpressure;
use iox_control_request_copies::{Lent, LoanRefusal, Loaned, lend_response_of};
use iox_handles::Entry;
use iox_hub_ports::info::PortInfo;
use iox_store::{Payload, Spare};
use iox_words::Words;

impl<Q: Payload, QH: Words, P: Payload, PH: Words, H: Backpressure> Hub<Q, QH, P, PH, H> {
    /// Lends a response to that active request, of whose handle and of whose port this is said, for
    /// so many elements, where its message has room for them: its own, or that which is given.
    #[inline(always)]
    fn lend_response_in_room(
        &mut self,
        node: u64,
        number: u64,
        entry: Entry,
        at: usize,
        port: PortInfo,
        elements: usize,
        uninit: bool,
        spare: Option<Spare<P::Element>>,
    ) -> Lent
        requires has { HasValue self.old node number ActiveRequest }
        requires entry { Some (handle_state entry)
            ≡ handle_in self.old.control.tables.handles node number }
        requires said { Some port ≡ info_in self.old.control.tables.ports entry.port }
        requires default { uninit ≡ false → IsSome self.old.response.default }
        requires room { (h : HandleState) (p : PortState)
            → handle_in self.old.control.tables.handles node number ≡ Some h
            → port_in self.old.control.tables.ports h.port ≡ Some p
            → LoanHasRoom self.old (lender_of_response self.old.control.tables h p)
            self.old.response elements spare }
        ensures left { LeavesLent self.old self.old.response uninit elements result self.new }
        ensures whole { (x : Given) → IsWholeCall (state_of_hub x self.old) node
            (loan_call uninit number elements) (reply_of_loan result) (state_of_hub x self.new) }
        ensures has { HasLent self.new node roles.Server self.old.response uninit elements result }
        ensures new { IsNewLoan self.old node result }
        ensures keeps { KeepsAll self.old self.new }
        ensures memory { result ≡ Refused WantOfMemory → ⊥ }
    {
        let asked = asked_of::<P, PH>(&self.response, elements, uninit);
        let lent = lend_response_of(&mut self.control, node, number, entry, at, port, asked);
        if let Lent::Handle(l) = lent {
            let slot = l.slot as usize;
            lend_response_in(
                &mut self.words,
                l.pool,
                slot,
                elements,
                uninit,
                &self.response,
                spare,
            );
        } else {
            let_go(spare);
        }
        lent
    }

    /// The same, of an active request whose handle is looked for at the hint first.
    #[inline]
    fn lend_response_with(
        &mut self,
        node: u64,
        number: u64,
        hint: usize,
        elements: usize,
        uninit: bool,
        spare: Option<Spare<P::Element>>,
    ) -> Lent
        requires has { HasValue self.old node number ActiveRequest }
        requires default { uninit ≡ false → IsSome self.old.response.default }
        requires room { (h : HandleState) (p : PortState)
            → handle_in self.old.control.tables.handles node number ≡ Some h
            → port_in self.old.control.tables.ports h.port ≡ Some p
            → LoanHasRoom self.old (lender_of_response self.old.control.tables h p)
            self.old.response elements spare }
        ensures left { LeavesLent self.old self.old.response uninit elements result self.new }
        ensures whole { (x : Given) → IsWholeCall (state_of_hub x self.old) node
            (loan_call uninit number elements) (reply_of_loan result) (state_of_hub x self.new) }
        ensures has { HasLent self.new node roles.Server self.old.response uninit elements result }
        ensures new { IsNewLoan self.old node result }
        ensures keeps { KeepsAll self.old self.new }
        ensures memory { result ≡ Refused WantOfMemory → ⊥ }
    {
        let Some(entry) = self.control.entry(node, number, hint) else {
            unreachable!();
        };
        let Some(port) = self.control.ports().find(entry.port) else {
            unreachable!();
        };
        self.lend_response_in_room(node, number, entry, 0, port, elements, uninit, spare)
    }

    /// Lends a response to that active request for so many elements, for which its message may have
    /// to grow. The handle of the request is looked for at the hint first.
    #[inline(never)]
    #[cold]
    fn lend_response_growing(
        &mut self,
        node: u64,
        number: u64,
        hint: usize,
        elements: usize,
        uninit: bool,
    ) -> Lent
        requires has { HasValue self.old node number ActiveRequest }
        requires default { uninit ≡ false → IsSome self.old.response.default }
        ensures left { LeavesLent self.old self.old.response uninit elements result self.new }
        ensures whole { (x : Given) → IsWholeCall (state_of_hub x self.old) node
            (loan_call uninit number elements) (reply_of_loan result) (state_of_hub x self.new) }
        ensures has { HasLent self.new node roles.Server self.old.response uninit elements result }
        ensures new { IsNewLoan self.old node result }
        ensures keeps { KeepsAll self.old self.new }
        ensures memory { result ≡ Refused WantOfMemory → (h : HandleState) (p : PortState)
            → handle_in self.old.control.tables.handles node number ≡ Some h
            → port_in self.old.control.tables.ports h.port ≡ Some p
            → WantsRoom self.old (lender_of_response self.old.control.tables h p)
            self.old.response elements }
    {
        self.is_in_order();
        match self.room_for_response(node, number, hint, elements) {
            Ok(spare) => self.lend_response_with(node, number, hint, elements, uninit, spare),
            Err(_) => Lent::Refused(LoanRefusal::WantOfMemory),
        }
    }

    /// The same, where it is not known at once that the message has room. What the call tells is put
    /// together anew, so that it stays in registers where it is not called.
    #[inline(always)]
    fn lend_response_other(
        &mut self,
        node: u64,
        number: u64,
        hint: usize,
        elements: usize,
        uninit: bool,
    ) -> Lent
        requires has { HasValue self.old node number ActiveRequest }
        requires default { uninit ≡ false → IsSome self.old.response.default }
        ensures left { LeavesLent self.old self.old.response uninit elements result self.new }
        ensures whole { (x : Given) → IsWholeCall (state_of_hub x self.old) node
            (loan_call uninit number elements) (reply_of_loan result) (state_of_hub x self.new) }
        ensures has { HasLent self.new node roles.Server self.old.response uninit elements result }
        ensures new { IsNewLoan self.old node result }
        ensures keeps { KeepsAll self.old self.new }
        ensures memory { result ≡ Refused WantOfMemory → (h : HandleState) (p : PortState)
            → handle_in self.old.control.tables.handles node number ≡ Some h
            → port_in self.old.control.tables.ports h.port ≡ Some p
            → WantsRoom self.old (lender_of_response self.old.control.tables h p)
            self.old.response elements }
    {
        match self.lend_response_growing(node, number, hint, elements, uninit) {
            Lent::Handle(loan) => Lent::Handle(Loaned {
                number: loan.number,
                pool: loan.pool,
                slot: loan.slot,
            }),
            Lent::Refused(refusal) => Lent::Refused(refusal),
            Lent::OutOfMemory => Lent::OutOfMemory,
        }
    }

    /// Lends a response to that active request for so many elements, unfilled or each with its
    /// default. The handle of the request is looked for at the hint first. Past the greatest length
    /// the message grows, where the server's do, and that takes memory.
    #[inline(always)]
    pub fn lend_response(
        &mut self,
        node: u64,
        number: u64,
        hint: usize,
        elements: usize,
        uninit: bool,
    ) -> Lent
        requires has { HasValue self.old node number ActiveRequest }
        requires default { uninit ≡ false → IsSome self.old.response.default }
        ensures left { LeavesLent self.old self.old.response uninit elements result self.new }
        ensures whole { (x : Given) → IsWholeCall (state_of_hub x self.old) node
            (loan_call uninit number elements) (reply_of_loan result) (state_of_hub x self.new) }
        ensures has { HasLent self.new node roles.Server self.old.response uninit elements result }
        ensures new { IsNewLoan self.old node result }
        ensures keeps { KeepsAll self.old self.new }
        ensures memory { result ≡ Refused WantOfMemory → (h : HandleState) (p : PortState)
            → handle_in self.old.control.tables.handles node number ≡ Some h
            → port_in self.old.control.tables.ports h.port ≡ Some p
            → WantsRoom self.old (lender_of_response self.old.control.tables h p)
            self.old.response elements }
    {
        self.is_in_order();
        if let Some(entry) = self.control.near_known(node, number, hint) {
            let at = entry.at as usize;
            if let Some(port) = self.control.ports().near(entry.port, at) {
                if port.longest >= elements as u64 && self.response.is_few(elements as u64) {
                    return self.lend_response_in_room(
                        node, number, entry, at, port, elements, uninit, None,
                    );
                }
            }
        }
        self.lend_response_other(node, number, hint, elements, uninit)
    }
}
