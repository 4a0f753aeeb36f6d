//! Wires of four ports where each limit of a port is 1: client 0 on node 0, server 1 on node 1, and
//! server 2 and client 3 on node 2.
ghost use Rattle.std.specs.Prelude.{◌≡◌, IfOk};
ghost use Rattle.iox_rows_whole_wire.specs.Fours.{AreTermsOfFour, IsPlanOfFour};
ghost use Rattle.iox_rows_whole_wire.specs.Fours.{client_of, server_of};

use super::settings::{Service, limits, message, port, request, response};
use iox_model::kind::Role;
use iox_wire::Wire;
use iox_wire_lenders::WireTerms;
use iox_word_places::{PlanPort, WirePlan};
use std::alloc::Global;
use std::test::Fail;

/// A client of that number, on that node.
const fn client(number: u64, node: u64) -> PlanPort
    ensures { result ≡ client_of number node }
{
    PlanPort {
        number,
        node,
        role: Role::Client,
        pool: 6,
        longest: 1,
        slot_words: 10,
    }
}

/// A server of that number, on that node.
const fn server(number: u64, node: u64) -> PlanPort
    ensures { result ≡ server_of number node }
{
    PlanPort {
        number,
        node,
        role: Role::Server,
        pool: 26,
        longest: 1,
        slot_words: 9,
    }
}

/// Requests of 10 words, and responses of 9.
fn plan(alloc: Global, service: Service) -> Result<WirePlan, Fail>
    ensures { IfOk result (IsPlanOfFour service.request_overflow service.response_overflow) }
{
    let ports = vec![in alloc; client(0, 0), server(1, 1), server(2, 2), client(3, 2)]?;
    Ok(WirePlan {
        ports,
        limits: limits(service),
        request: request()?,
        response: response()?,
    })
}

/// The terms of that plan.
fn terms(alloc: Global, service: Service) -> Result<WireTerms, Fail>
    ensures { IfOk result (AreTermsOfFour service.fire_and_forget) }
{
    let first = port(alloc, 4_294_967_296, 0)?;
    let second = port(alloc, 8_589_934_592, 1)?;
    let third = port(alloc, 12_884_901_888, 2)?;
    let fourth = port(alloc, 12_884_901_888, 3)?;
    Ok(WireTerms {
        ports: vec![in alloc; first, second, third, fourth]?,
        request: message(alloc),
        response: message(alloc),
        clients: 2,
        loaned_requests: 1,
        fire_and_forget: service.fire_and_forget,
        first_number: 4,
    })
}

/// A wire of that service, whose nodes live.
pub(super) fn open(alloc: Global, service: Service) -> Result<Wire, Fail> {
    let plan = plan(alloc, service)?;
    let terms = terms(alloc, service)?;
    Ok(Wire::new(alloc, plan, terms, &[0, 1, 2])?)
}
