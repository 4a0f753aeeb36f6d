//! A client.
ghost use Rattle.std.specs.Prelude.{◌≡◌, ◌≢◌, ◌↔◌, Err, IfErr, IfOk, IsOk, IsSome, IsTrue, OnErr};
ghost use Rattle.std.specs.Prelude.{OnOk, Some, false, true};
ghost use Rattle.std.specs.Option.{option_map};
ghost use Rattle.iox_model.specs.declared.call.Call.TheVariants as calls;
ghost use Rattle.iox_model.specs.declared.kind.Kind.TheVariants as kinds;
ghost use Rattle.iox_model.specs.declared.kind.Role.TheVariants as roles;
ghost use Rattle.iox_model.specs.Peers.{port_at};
ghost use Rattle.iox_model.specs.WholeCalls.{IsWholeCall};
ghost use Rattle.iox_tables.specs.HubStates.States.{Given};
ghost use Rattle.iox_hub_laws.specs.Headers.{IsIdShown, id_in};
ghost use Rattle.iox_hub_laws.specs.Hubs.{HasValue, state_of_hub, with_control};
ghost use Rattle.iox_hub_laws.specs.Keeping.{HaveSameShapes, KeepsAll};
ghost use Rattle.iox_hub_laws.specs.Lending.{IsFresh};
ghost use Rattle.iox_hub_laws.specs.Sending.{HasNothing};
ghost use Rattle.iox_hub_laws.specs.Sends.{NothingComes};
ghost use Rattle.iox_hub_laws.specs.Waiting.{client_in};
ghost use Rattle.iceoryx2_ports.specs.Asking.{LendsQuietly};
ghost use Rattle.iceoryx2_ports.specs.Keeping.{KeepsAsking};
ghost use Rattle.iceoryx2_ports.specs.LoanLimits.{CanLend, HasAllLoans, LendsAtMostLongest};
ghost use Rattle.iceoryx2_ports.specs.LoanLimits.{LendsOneMore};
ghost use Rattle.iceoryx2_ports.specs.Loans.{reply_of_loan};
ghost use Rattle.iceoryx2_ports.specs.Makings.{port_shown};
ghost use Rattle.iceoryx2_ports.specs.Opens.{KeepsRequests};
ghost use Rattle.iceoryx2_ports.specs.Reaching.{KeepsRoom};
ghost use Rattle.iceoryx2_ports.specs.Releases.{IsReleased};
ghost use Rattle.iceoryx2_ports.specs.declared.errors.LoanError.TheVariants.{ExceedsMaxLoans};
ghost use Rattle.iceoryx2_ports.specs.declared.errors.LoanError.TheVariants.{OutOfMemory};
ghost use Rattle.iceoryx2_ports.specs.declared.errors.LoanError.TheVariants.{WantOfMemory};

use crate::errors::{ConnectionFailure, LoanError};
use crate::loans::lend_request;
use crate::releases::release_port;
use crate::request_mut::{RequestMut, RequestMutUninit};
use iox_hub_laws::{Backpressure, Hub};
use iox_model::kind::Kind;
use iox_store::{Many, One, Payload};
use iox_types::BackpressureStrategy;
use iox_types::identifiers::UniqueClientId;
use iox_words::Words;
use std::marker::PhantomData;

mod send_copy;

/// A client of a node: it sends requests.
pub struct Client<Q, QH, P, PH> {
    node: u64,
    number: u64,
    // Where the hub looks for it first. A wrong place is only slower.
    place: usize,
    of: PhantomData<(Q, QH, P, PH)>,
}

impl<Q: Payload, QH: Words, P: Payload, PH: Words> Client<Q, QH, P, PH> {
    /// The node's client of that number.
    pub(crate) fn new(node: u64, number: u64, place: usize) -> Self
        ensures node { result.node ≡ node }
        ensures number { result.number ≡ number }
    {
        Client {
            node,
            number,
            place,
            of: PhantomData,
        }
    }

    /// Its id.
    pub fn id<H: Backpressure>(&self, hub: &Hub<Q, QH, P, PH, H>) -> UniqueClientId
        requires has { HasValue hub.now self.now.node self.now.number kinds.Client }
        ensures id { result ≡ id_in hub.now self.now.number }
        ensures shown { IsIdShown hub.now self.now.number }
    {
        UniqueClientId::new(hub.port_id(self.node, self.number))
    }

    /// What it does at a full server.
    pub fn backpressure_strategy<H: Backpressure>(
        &self,
        hub: &Hub<Q, QH, P, PH, H>,
    ) -> BackpressureStrategy
        requires has { HasValue hub.now self.now.node self.now.number kinds.Client }
        ensures machine { (x : Given) → option_map (λ p. p.strategy)
            (port_at (state_of_hub x hub.now).fixed self.now.number) ≡ Some result }
        ensures told { option_map (λ p. p.strategy) (port_shown hub.now self.now.number)
            ≡ Some result }
    {
        hub.port_strategy(self.node, self.number)
    }

    /// The greatest length of its requests.
    pub fn initial_max_slice_len<H: Backpressure>(&self, hub: &Hub<Q, QH, P, PH, H>) -> u64
        requires has { HasValue hub.now self.now.node self.now.number kinds.Client }
        ensures machine { (x : Given) → option_map (λ p. p.longest)
            (port_at (state_of_hub x hub.now).fixed self.now.number) ≡ Some result }
        ensures told { option_map (λ p. p.longest) (port_shown hub.now self.now.number)
            ≡ Some result }
    {
        hub.port_longest(self.node, self.number)
    }

    /// Does nothing: ports are connected as they are made.
    pub fn update_connections<H: Backpressure>(
        &self,
        _hub: &Hub<Q, QH, P, PH, H>,
    ) -> Result<(), ConnectionFailure>
        requires has { HasValue _hub.now self.now.node self.now.number kinds.Client }
        ensures { IsOk result }
    {
        Ok(())
    }

    /// Whether the hub still has it.
    #[inline(always)]
    pub fn exists<H: Backpressure>(&self, hub: &Hub<Q, QH, P, PH, H>) -> bool
        ensures { IsTrue result ↔ HasValue hub.now self.now.node self.now.number kinds.Client }
    {
        hub.has(self.node, self.number, Kind::Client, self.place)
    }

    /// Gives it up. Where the hub no longer has it, nothing changes.
    pub fn release<H: Backpressure>(self, hub: &mut Hub<Q, QH, P, PH, H>)
        ensures { IsReleased hub.old self.node self.number kinds.Client hub.new }
    {
        let Client {
            node,
            number,
            place: _,
            of: _,
        } = self;
        release_port(hub, node, number, Kind::Client);
    }
}

impl<E: Words, QH: Words, P: Payload, PH: Words> Client<One<E>, QH, P, PH> {
    /// Loans a request that is not filled yet.
    pub fn loan_uninit<H: Backpressure>(
        &self,
        hub: &mut Hub<One<E>, QH, P, PH, H>,
    ) -> Result<RequestMutUninit<One<E>, QH, P, PH>, LoanError>
        requires has { HasValue hub.old self.now.node self.now.number kinds.Client }
        ensures whole { (x : Given) → IsWholeCall (state_of_hub x hub.old) self.now.node
            (calls.LoanUninit self.now.number 1) (reply_of_loan (λ loan. loan.number) result)
            (state_of_hub x hub.new) }
        ensures fresh { IfOk result (λ loan.
            IsFresh hub.new loan.node loan.number roles.Client hub.old.request true 1) }
        ensures node { IfOk result (λ loan. loan.node ≡ self.now.node) }
        ensures comes { NothingComes hub.old hub.new }
        ensures new { IfOk result (λ loan. HasNothing hub.old self.now.node loan.number) }
        ensures keeps { KeepsAll hub.old hub.new }
        ensures shapes { HaveSameShapes hub.old hub.new }
        ensures asks { KeepsAsking hub.old hub.new }
        ensures room { KeepsRoom hub.old hub.new }
        ensures requests { KeepsRequests hub.old hub.new }
        ensures quiet { IfOk result (λ loan.
            LendsQuietly hub.old self.now.number hub.new loan.node loan.number) }
        ensures asker { IfOk result (λ loan.
            (client_in hub.new loan.node loan.number).port ≡ self.now.number) }
        ensures counted { OnOk result
            (LendsOneMore hub.old self.now.number 1 hub.new) }
        ensures past { HasAllLoans hub.old self.now.number 1
            → result ≡ Err ExceedsMaxLoans }
        ensures within { CanLend hub.old self.now.node self.now.number 1 → IsOk result }
        ensures never { IfErr result (λ error.
            LendsAtMostLongest hub.old self.now.number 1 → error ≢ WantOfMemory) }
        ensures unchanged { IfErr result (λ error. error ≢ OutOfMemory → hub.new ≡ hub.old) }
        ensures left { OnErr result (hub.new ≡ with_control hub.old hub.new.control) }
    {
        match lend_request(hub, self.node, self.number, self.place, 1, true) {
            Ok(number) => Ok(RequestMutUninit::new(self.node, number, hub.last_place())),
            Err(error) => Err(error),
        }
    }

    /// Loans a request that is filled with the default.
    pub fn loan<H: Backpressure>(
        &self,
        hub: &mut Hub<One<E>, QH, P, PH, H>,
    ) -> Result<RequestMut<One<E>, QH, P, PH>, LoanError>
        requires has { HasValue hub.old self.now.node self.now.number kinds.Client }
        requires default { IsSome hub.old.request.default }
        ensures whole { (x : Given) → IsWholeCall (state_of_hub x hub.old) self.now.node
            (calls.Loan self.now.number 1) (reply_of_loan (λ loan. loan.number) result)
            (state_of_hub x hub.new) }
        ensures fresh { IfOk result (λ loan.
            IsFresh hub.new loan.node loan.number roles.Client hub.old.request false 1) }
        ensures node { IfOk result (λ loan. loan.node ≡ self.now.node) }
        ensures comes { NothingComes hub.old hub.new }
        ensures new { IfOk result (λ loan. HasNothing hub.old self.now.node loan.number) }
        ensures keeps { KeepsAll hub.old hub.new }
        ensures shapes { HaveSameShapes hub.old hub.new }
        ensures asks { KeepsAsking hub.old hub.new }
        ensures room { KeepsRoom hub.old hub.new }
        ensures requests { KeepsRequests hub.old hub.new }
        ensures quiet { IfOk result (λ loan.
            LendsQuietly hub.old self.now.number hub.new loan.node loan.number) }
        ensures asker { IfOk result (λ loan.
            (client_in hub.new loan.node loan.number).port ≡ self.now.number) }
        ensures counted { OnOk result
            (LendsOneMore hub.old self.now.number 1 hub.new) }
        ensures past { HasAllLoans hub.old self.now.number 1
            → result ≡ Err ExceedsMaxLoans }
        ensures within { CanLend hub.old self.now.node self.now.number 1 → IsOk result }
        ensures never { IfErr result (λ error.
            LendsAtMostLongest hub.old self.now.number 1 → error ≢ WantOfMemory) }
        ensures unchanged { IfErr result (λ error. error ≢ OutOfMemory → hub.new ≡ hub.old) }
        ensures left { OnErr result (hub.new ≡ with_control hub.old hub.new.control) }
    {
        match lend_request(hub, self.node, self.number, self.place, 1, false) {
            Ok(number) => Ok(RequestMut::new(self.node, number, hub.last_place())),
            Err(error) => Err(error),
        }
    }
}

impl<E: Words, QH: Words, P: Payload, PH: Words> Client<Many<E>, QH, P, PH> {
    /// Loans a request for so many elements, none of which is filled yet.
    pub fn loan_slice_uninit<H: Backpressure>(
        &self,
        hub: &mut Hub<Many<E>, QH, P, PH, H>,
        elements: usize,
    ) -> Result<RequestMutUninit<Many<E>, QH, P, PH>, LoanError>
        requires has { HasValue hub.old self.now.node self.now.number kinds.Client }
        ensures whole { (x : Given) → IsWholeCall (state_of_hub x hub.old) self.now.node
            (calls.LoanUninit self.now.number elements) (reply_of_loan (λ loan. loan.number) result)
            (state_of_hub x hub.new) }
        ensures fresh { IfOk result (λ loan.
            IsFresh hub.new loan.node loan.number roles.Client hub.old.request true elements) }
        ensures node { IfOk result (λ loan. loan.node ≡ self.now.node) }
        ensures comes { NothingComes hub.old hub.new }
        ensures new { IfOk result (λ loan. HasNothing hub.old self.now.node loan.number) }
        ensures keeps { KeepsAll hub.old hub.new }
        ensures shapes { HaveSameShapes hub.old hub.new }
        ensures asks { KeepsAsking hub.old hub.new }
        ensures room { KeepsRoom hub.old hub.new }
        ensures requests { KeepsRequests hub.old hub.new }
        ensures quiet { IfOk result (λ loan.
            LendsQuietly hub.old self.now.number hub.new loan.node loan.number) }
        ensures asker { IfOk result (λ loan.
            (client_in hub.new loan.node loan.number).port ≡ self.now.number) }
        ensures counted { OnOk result
            (LendsOneMore hub.old self.now.number elements hub.new) }
        ensures past { HasAllLoans hub.old self.now.number elements
            → result ≡ Err ExceedsMaxLoans }
        ensures within { CanLend hub.old self.now.node self.now.number elements → IsOk result }
        ensures never { IfErr result (λ error.
            LendsAtMostLongest hub.old self.now.number elements → error ≢ WantOfMemory) }
        ensures unchanged { IfErr result (λ error. error ≢ OutOfMemory → hub.new ≡ hub.old) }
        ensures left { OnErr result (hub.new ≡ with_control hub.old hub.new.control) }
    {
        match lend_request(hub, self.node, self.number, self.place, elements, true) {
            Ok(number) => Ok(RequestMutUninit::new(self.node, number, hub.last_place())),
            Err(error) => Err(error),
        }
    }

    /// Loans a request of so many elements, each filled with the default.
    pub fn loan_slice<H: Backpressure>(
        &self,
        hub: &mut Hub<Many<E>, QH, P, PH, H>,
        elements: usize,
    ) -> Result<RequestMut<Many<E>, QH, P, PH>, LoanError>
        requires has { HasValue hub.old self.now.node self.now.number kinds.Client }
        requires default { IsSome hub.old.request.default }
        ensures whole { (x : Given) → IsWholeCall (state_of_hub x hub.old) self.now.node
            (calls.Loan self.now.number elements) (reply_of_loan (λ loan. loan.number) result)
            (state_of_hub x hub.new) }
        ensures fresh { IfOk result (λ loan.
            IsFresh hub.new loan.node loan.number roles.Client hub.old.request false elements) }
        ensures node { IfOk result (λ loan. loan.node ≡ self.now.node) }
        ensures comes { NothingComes hub.old hub.new }
        ensures new { IfOk result (λ loan. HasNothing hub.old self.now.node loan.number) }
        ensures keeps { KeepsAll hub.old hub.new }
        ensures shapes { HaveSameShapes hub.old hub.new }
        ensures asks { KeepsAsking hub.old hub.new }
        ensures room { KeepsRoom hub.old hub.new }
        ensures requests { KeepsRequests hub.old hub.new }
        ensures quiet { IfOk result (λ loan.
            LendsQuietly hub.old self.now.number hub.new loan.node loan.number) }
        ensures asker { IfOk result (λ loan.
            (client_in hub.new loan.node loan.number).port ≡ self.now.number) }
        ensures counted { OnOk result
            (LendsOneMore hub.old self.now.number elements hub.new) }
        ensures past { HasAllLoans hub.old self.now.number elements
            → result ≡ Err ExceedsMaxLoans }
        ensures within { CanLend hub.old self.now.node self.now.number elements → IsOk result }
        ensures never { IfErr result (λ error.
            LendsAtMostLongest hub.old self.now.number elements → error ≢ WantOfMemory) }
        ensures unchanged { IfErr result (λ error. error ≢ OutOfMemory → hub.new ≡ hub.old) }
        ensures left { OnErr result (hub.new ≡ with_control hub.old hub.new.control) }
    {
        match lend_request(hub, self.node, self.number, self.place, elements, false) {
            Ok(number) => Ok(RequestMut::new(self.node, number, hub.last_place())),
            Err(error) => Err(error),
        }
    }
}
