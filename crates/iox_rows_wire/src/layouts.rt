//! Plans that make sense, and plans with one fault each.

use iox_model::kind::Role;
use iox_types::{MessageTypeDetails, RequestHeader, ResponseHeader, TypeVariant};
use iox_wire_layouts::uses::map_if_it_makes_sense;
use iox_wire_nodes::{PlanLimits, PlanPort, WirePlan, is_plan};
use std::alloc::Global;
use std::test::Fail;

const CLIENT: PlanPort = PlanPort {
    number: 0,
    node: 0,
    role: Role::Client,
    pool: 4,
    longest: 1,
    slot_words: 10,
};

const SERVER: PlanPort = PlanPort {
    number: 1,
    node: 1,
    role: Role::Server,
    pool: 9,
    longest: 1,
    slot_words: 9,
};

/// A plan of these two ports, for requests and responses of one word.
fn plan_of(alloc: Global, first: PlanPort, second: PlanPort) -> Result<WirePlan, Fail> {
    let request = MessageTypeDetails::from::<RequestHeader, (), u64>(TypeVariant::FixedSize)?;
    let response = MessageTypeDetails::from::<ResponseHeader, (), u64>(TypeVariant::FixedSize)?;
    let ports = vec![in alloc; first, second]?;
    Ok(WirePlan {
        ports,
        limits: PlanLimits {
            active_requests: 1,
            response_buffer: 1,
            borrowed_responses: 1,
            request_overflow: false,
            response_overflow: false,
        },
        request,
        response,
    })
}

#[test]
fn a_client_and_a_server_make_sense(rt: HostRuntime) -> Result<(), Fail> {
    assert!(rt; is_plan(&plan_of(rt.alloc(), CLIENT, SERVER)?));
    let map = map_if_it_makes_sense(rt.alloc(), plan_of(rt.alloc(), CLIENT, SERVER)?);
    assert!(rt; map.is_some());
    Ok(())
}

#[test]
fn two_ports_have_two_numbers(rt: HostRuntime) -> Result<(), Fail> {
    let same = PlanPort {
        number: 0,
        ..SERVER
    };
    assert!(rt; !is_plan(&plan_of(rt.alloc(), CLIENT, same)?));
    Ok(())
}

#[test]
fn a_slot_has_neither_more_nor_fewer_words_than_its_message(rt: HostRuntime) -> Result<(), Fail> {
    let more = PlanPort {
        slot_words: 11,
        ..CLIENT
    };
    let fewer = PlanPort {
        slot_words: 8,
        ..SERVER
    };
    assert!(rt; !is_plan(&plan_of(rt.alloc(), more, SERVER)?));
    assert!(rt; !is_plan(&plan_of(rt.alloc(), CLIENT, fewer)?));
    Ok(())
}

#[test]
fn slots_past_a_usize_of_bytes_are_told_apart(rt: HostRuntime) -> Result<(), Fail> {
    let longest = 1 << 61;
    let long = PlanPort {
        longest,
        slot_words: longest + 9,
        ..CLIENT
    };
    let short = PlanPort {
        longest,
        slot_words: 9,
        ..CLIENT
    };
    assert!(rt; is_plan(&plan_of(rt.alloc(), long, SERVER)?));
    assert!(rt; !is_plan(&plan_of(rt.alloc(), short, SERVER)?));
    Ok(())
}
