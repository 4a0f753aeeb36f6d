//! Wires where each limit is 1, with a client on node 0 and a server on node 1.
ghost use Rattle.std.specs.Prelude.{◌≡◌, IfOk};
ghost use Rattle.iox_rows_whole_wire.specs.Ones.{AreTermsOfOnes, IsPlanOfOnes, IsPortOfOnes};
ghost use Rattle.iox_rows_whole_wire.specs.Ones.{HasOneWord, IsMessageOfOnes, limits_of_ones};

use iox_model::kind::Role;
use iox_types::{MessageTypeDetails, RequestHeader, ResponseHeader, TypeVariant};
use iox_wire::Wire;
use iox_wire_lenders::{MessageTerms, PortTerms, WireTerms};
use iox_word_places::{PlanLimits, PlanPort, WirePlan};
use std::alloc::Global;
use std::test::Fail;

/// What such a service allows.
#[derive(Clone, Copy)]
pub(super) struct Service {
    /// Whether a full queue of requests gives up its oldest one.
    pub(super) request_overflow: bool,
    pub(super) response_overflow: bool,
    pub(super) fire_and_forget: bool,
}

/// Nothing overflows.
pub(super) const NO_OVERFLOW: Service = Service {
    request_overflow: false,
    response_overflow: false,
    fire_and_forget: true,
};

/// Both overflow.
pub(super) const OVERFLOW: Service = Service {
    request_overflow: true,
    response_overflow: true,
    fire_and_forget: true,
};

/// Requests are dropped once their clients gave them up.
pub(super) const NO_FIRE_AND_FORGET: Service = Service {
    request_overflow: false,
    response_overflow: false,
    fire_and_forget: false,
};

const CLIENT: PlanPort = PlanPort {
    number: 0,
    node: 0,
    role: Role::Client,
    pool: 4,
    longest: 1,
    slot_words: 10,
};

const SERVER: PlanPort = PlanPort {
    number: 1,
    node: 1,
    role: Role::Server,
    pool: 9,
    longest: 1,
    slot_words: 9,
};

/// Each limit is 1.
pub(super) fn limits(service: Service) -> PlanLimits
    ensures { result ≡ limits_of_ones service.request_overflow service.response_overflow }
{
    PlanLimits {
        active_requests: 1,
        response_buffer: 1,
        borrowed_responses: 1,
        request_overflow: service.request_overflow,
        response_overflow: service.response_overflow,
    }
}

/// Requests of a header of 7 words and one word.
pub(super) fn request() -> Result<MessageTypeDetails, Fail>
    ensures { IfOk result (λ details. HasOneWord details 56) }
{
    let details = MessageTypeDetails::from::<RequestHeader, (), u64>(TypeVariant::FixedSize)?;
    Ok(details)
}

/// Responses of a header of 6 words and one word.
pub(super) fn response() -> Result<MessageTypeDetails, Fail>
    ensures { IfOk result (λ details. HasOneWord details 48) }
{
    let details = MessageTypeDetails::from::<ResponseHeader, (), u64>(TypeVariant::FixedSize)?;
    Ok(details)
}

/// Requests of 10 words, and responses of 9.
pub(super) fn plan(alloc: Global, service: Service) -> Result<WirePlan, Fail>
    ensures { IfOk result (IsPlanOfOnes service.request_overflow service.response_overflow) }
{
    let ports = vec![in alloc; CLIENT, SERVER]?;
    Ok(WirePlan {
        ports,
        limits: limits(service),
        request: request()?,
        response: response()?,
    })
}

/// The terms of a port with that number, of a node whose identifier has that first word.
pub(super) fn port(alloc: Global, process: u64, number: u64) -> Result<PortTerms, Fail>
    ensures { IfOk result (IsPortOfOnes process number) }
{
    Ok(PortTerms {
        ids: vec![in alloc; process, 0, process, number]?,
        loaned_responses: 1,
        fails: true,
    })
}

/// Messages of any number of elements, with no user header.
pub(super) fn message(alloc: Global) -> MessageTerms
    ensures { IsMessageOfOnes result }
{
    MessageTerms {
        many: true,
        user: Vec::new(alloc),
    }
}

/// The terms of that plan.
pub(super) fn terms(alloc: Global, service: Service) -> Result<WireTerms, Fail>
    ensures { IfOk result (AreTermsOfOnes service.fire_and_forget) }
{
    let client = port(alloc, 4_294_967_296, 0)?;
    let server = port(alloc, 8_589_934_592, 1)?;
    Ok(WireTerms {
        ports: vec![in alloc; client, server]?,
        request: message(alloc),
        response: message(alloc),
        clients: 1,
        loaned_requests: 1,
        fire_and_forget: service.fire_and_forget,
        first_number: 2,
    })
}

/// A wire of that service, whose nodes live.
pub(super) fn open(alloc: Global, service: Service) -> Result<Wire, Fail> {
    let plan = plan(alloc, service)?;
    let terms = terms(alloc, service)?;
    Ok(Wire::new(alloc, plan, terms, &[0, 1])?)
}
