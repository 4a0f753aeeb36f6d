//! Loans of clients and of active requests, by their numbers.
ghost use Rattle.std.specs.Prelude.{◌≡◌, ◌≢◌, Err, IfErr, IfOk, IsOk, IsSome, OnErr, OnOk, false};
ghost use Rattle.iox_model.specs.declared.kind.Kind.TheVariants as kinds;
ghost use Rattle.iox_model.specs.declared.kind.Role.TheVariants as roles;
ghost use Rattle.iox_model.specs.Handles.{is_request_loan, is_response_loan};
ghost use Rattle.iox_model.specs.WholeCalls.{IsWholeCall};
ghost use Rattle.iox_tables.specs.HubLoans.Loans.{loan_call};
ghost use Rattle.iox_tables.specs.HubStates.States.{Given};
ghost use Rattle.iox_hub_laws.specs.Hubs.{HasValue, state_of_hub, with_control};
ghost use Rattle.iox_hub_laws.specs.Keeping.{HaveSameShapes, KeepsAll};
ghost use Rattle.iox_hub_laws.specs.Lending.{IsFresh};
ghost use Rattle.iox_hub_laws.specs.Reads.{HasOf, message_in};
ghost use Rattle.iox_hub_laws.specs.Sending.{HasNothing};
ghost use Rattle.iox_hub_laws.specs.Sends.{NothingComes};
ghost use Rattle.iox_hub_laws.specs.Waiting.{client_in};
ghost use Rattle.iceoryx2_ports.specs.Asking.{AnswersAs, LendsQuietly};
ghost use Rattle.iceoryx2_ports.specs.Keeping.{KeepsAsking};
ghost use Rattle.iceoryx2_ports.specs.LoanLimits.{CanLend, CanRespond, HasAllLoans};
ghost use Rattle.iceoryx2_ports.specs.LoanLimits.{HasAllResponses, LendsAtMostLongest};
ghost use Rattle.iceoryx2_ports.specs.LoanLimits.{LendsOneMore, RespondsAtMostLongest};
ghost use Rattle.iceoryx2_ports.specs.LoanLimits.{RespondsOneMore};
ghost use Rattle.iceoryx2_ports.specs.Loans.{reply_of_loan};
ghost use Rattle.iceoryx2_ports.specs.Opens.{KeepsRequests};
ghost use Rattle.iceoryx2_ports.specs.Reaching.{KeepsRoom};
ghost use Rattle.iceoryx2_ports.specs.declared.errors.LoanError.TheVariants.{ExceedsMaxLoans};
ghost use Rattle.iceoryx2_ports.specs.declared.errors.LoanError.TheVariants.{OutOfMemory};
ghost use Rattle.iceoryx2_ports.specs.declared.errors.LoanError.TheVariants.{WantOfMemory};

use crate::errors::LoanError;
use iox_hub_laws::{Backpressure, Hub, Lent, LoanRefusal};
use iox_store::{One, Payload};
use iox_words::Words;

/// Loans a request of that client, and tells its number.
#[inline(always)]
pub(crate) fn lend_request<Q: Payload, QH: Words, P: Payload, PH: Words, H: Backpressure>(
    hub: &mut Hub<Q, QH, P, PH, H>,
    node: u64,
    client: u64,
    place: usize,
    elements: usize,
    uninit: bool,
) -> Result<u64, LoanError>
    requires has { HasValue hub.old node client kinds.Client }
    requires default { uninit ≡ false → IsSome hub.old.request.default }
    ensures whole { (x : Given) → IsWholeCall (state_of_hub x hub.old) node
        (loan_call uninit client elements) (reply_of_loan (λ n. n) result)
        (state_of_hub x hub.new) }
    ensures fresh { IfOk result (λ n.
        IsFresh hub.new node n roles.Client hub.old.request uninit elements) }
    ensures comes { NothingComes hub.old hub.new }
    ensures new { IfOk result (λ n. HasNothing hub.old node n) }
    ensures keeps { KeepsAll hub.old hub.new }
    ensures shapes { HaveSameShapes hub.old hub.new }
    ensures asks { KeepsAsking hub.old hub.new }
    ensures room { KeepsRoom hub.old hub.new }
    ensures requests { KeepsRequests hub.old hub.new }
    ensures quiet { IfOk result (λ n. LendsQuietly hub.old client hub.new node n) }
    ensures asker { IfOk result (λ n. (client_in hub.new node n).port ≡ client) }
    ensures counted { OnOk result (LendsOneMore hub.old client elements hub.new) }
    ensures past { HasAllLoans hub.old client elements → result ≡ Err ExceedsMaxLoans }
    ensures within { CanLend hub.old node client elements → IsOk result }
    ensures never { IfErr result (λ error.
        LendsAtMostLongest hub.old client elements → error ≢ WantOfMemory) }
    ensures unchanged { IfErr result (λ error. error ≢ OutOfMemory → hub.new ≡ hub.old) }
    ensures left { OnErr result (hub.new ≡ with_control hub.old hub.new.control) }
{
    hub.is_in_order();
    match iox_hub_laws::lend_request(hub, node, client, place, elements, uninit) {
        Lent::Handle(loan) => {
            hub.is_in_order();
            Ok(loan.number)
        }
        Lent::Refused(LoanRefusal::CallsSpent) => Err(LoanError::CallsSpent),
        Lent::Refused(LoanRefusal::WrongLength) => Err(LoanError::WrongLength),
        Lent::Refused(LoanRefusal::ExceedsMaxLoanSize) => Err(LoanError::ExceedsMaxLoanSize),
        Lent::Refused(LoanRefusal::ExceedsMaxLoans) => Err(LoanError::ExceedsMaxLoans),
        Lent::Refused(LoanRefusal::WantOfMemory) => Err(LoanError::WantOfMemory),
        Lent::OutOfMemory => Err(LoanError::OutOfMemory),
    }
}

/// Loans a response to that active request, and tells its number.
#[inline(always)]
pub(crate) fn lend_response<Q: Payload, QH: Words, P: Payload, PH: Words, H: Backpressure>(
    hub: &mut Hub<Q, QH, P, PH, H>,
    node: u64,
    number: u64,
    hint: usize,
    elements: usize,
    uninit: bool,
) -> Result<u64, LoanError>
    requires has { HasValue hub.old node number kinds.ActiveRequest }
    requires default { uninit ≡ false → IsSome hub.old.response.default }
    ensures whole { (x : Given) → IsWholeCall (state_of_hub x hub.old) node
        (loan_call uninit number elements) (reply_of_loan (λ n. n) result)
        (state_of_hub x hub.new) }
    ensures fresh { IfOk result (λ n.
        IsFresh hub.new node n roles.Server hub.old.response uninit elements) }
    ensures comes { NothingComes hub.old hub.new }
    ensures new { IfOk result (λ n. HasNothing hub.old node n) }
    ensures keeps { KeepsAll hub.old hub.new }
    ensures shapes { HaveSameShapes hub.old hub.new }
    ensures asks { KeepsAsking hub.old hub.new }
    ensures room { KeepsRoom hub.old hub.new }
    ensures requests { KeepsRequests hub.old hub.new }
    ensures answers { IfOk result (λ n. AnswersAs hub.old node number hub.new node n) }
    ensures counted { OnOk result (RespondsOneMore hub.old node number elements hub.new) }
    ensures past { HasAllResponses hub.old node number elements → result ≡ Err ExceedsMaxLoans }
    ensures within { CanRespond hub.old node number elements → IsOk result }
    ensures never { IfErr result (λ error.
        RespondsAtMostLongest hub.old node number elements → error ≢ WantOfMemory) }
    ensures unchanged { IfErr result (λ error. error ≢ OutOfMemory → hub.new ≡ hub.old) }
    ensures left { OnErr result (hub.new ≡ with_control hub.old hub.new.control) }
{
    hub.is_in_order();
    match iox_hub_laws::lend_response(hub, node, number, hint, elements, uninit) {
        Lent::Handle(loan) => Ok(loan.number),
        Lent::Refused(LoanRefusal::CallsSpent) => Err(LoanError::CallsSpent),
        Lent::Refused(LoanRefusal::WrongLength) => Err(LoanError::WrongLength),
        Lent::Refused(LoanRefusal::ExceedsMaxLoanSize) => Err(LoanError::ExceedsMaxLoanSize),
        Lent::Refused(LoanRefusal::ExceedsMaxLoans) => Err(LoanError::ExceedsMaxLoans),
        Lent::Refused(LoanRefusal::WantOfMemory) => Err(LoanError::WantOfMemory),
        Lent::OutOfMemory => Err(LoanError::OutOfMemory),
    }
}

/// A loaned request of one element has one. This does nothing: it is there for its contract.
#[inline]
pub(crate) fn request_has_one<E: Words, QH: Words, P: Payload, PH: Words, H: Backpressure>(
    hub: &Hub<One<E>, QH, P, PH, H>,
    _node: u64,
    _number: u64,
)
    requires has { HasOf is_request_loan hub.now _node _number }
    ensures { (message_in hub.now _node _number).elements ≡ 1 }
{
    hub.is_in_order();
    hub.is_of_its_types();
}

/// A loaned response of one element has one. This does nothing: it is there for its contract.
#[inline]
pub(crate) fn response_has_one<Q: Payload, QH: Words, E: Words, PH: Words, H: Backpressure>(
    hub: &Hub<Q, QH, One<E>, PH, H>,
    _node: u64,
    _number: u64,
)
    requires has { HasOf is_response_loan hub.now _node _number }
    ensures { (message_in hub.now _node _number).elements ≡ 1 }
{
    hub.is_in_order();
    hub.is_of_its_types();
}
