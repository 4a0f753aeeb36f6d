//! Maps of small wires, against places that were counted by hand.
ghost use Rattle.std.specs.Prelude.{◌≡◌, [], ◌∷◌, IfOk};
ghost use Rattle.iox_wire_nodes.specs.Plans.{IsPlan};

use iox_model::kind::Role;
use iox_types::{MessageTypeDetails, RequestHeader, ResponseHeader, TypeVariant};
use iox_wire_nodes::{PlanLimits, PlanPort, WayIndex, WirePlan, WordMap, WordMapNewError};
use iox_word_map::MessagePart;
use std::alloc::Global;
use std::test::Fail;

const CLIENT: PlanPort = PlanPort {
    number: 0,
    node: 0,
    role: Role::Client,
    pool: 4,
    longest: 1,
    slot_words: 10,
};

const SERVER: PlanPort = PlanPort {
    number: 1,
    node: 1,
    role: Role::Server,
    pool: 9,
    longest: 1,
    slot_words: 9,
};

/// A client and a server where each setting is 1: requests of 10 words, responses of 9.
fn all_ones(alloc: Global, waiting: usize) -> Result<WirePlan, Fail>
    ensures plan { IfOk result (λ plan. IsPlan plan) }
    ensures ports { IfOk result (λ plan. plan.ports.items ≡ CLIENT ∷ SERVER ∷ []) }
{
    let request = MessageTypeDetails::from::<RequestHeader, (), u64>(TypeVariant::FixedSize)?;
    let response = MessageTypeDetails::from::<ResponseHeader, (), u64>(TypeVariant::FixedSize)?;
    let ports = vec![in alloc; CLIENT, SERVER]?;
    Ok(WirePlan {
        ports,
        limits: PlanLimits {
            active_requests: 1,
            response_buffer: waiting,
            borrowed_responses: 1,
            request_overflow: false,
            response_overflow: false,
        },
        request,
        response,
    })
}

#[test]
fn all_ones_take_165_words(rt: HostRuntime) -> Result<(), Fail> {
    let map = WordMap::new(rt.alloc(), all_ones(rt.alloc(), 1)?)?;
    assert_eq!(rt; map.total(), 165);
    Ok(())
}

#[test]
fn endless_buffers_are_too_many_words(rt: HostRuntime) -> Result<(), Fail> {
    let plan = all_ones(rt.alloc(), usize::MAX)?;
    assert_eq!(rt;
        plan_refusal(rt.alloc(), plan),
        Some(WordMapNewError::TooManyWords)
    );
    Ok(())
}

/// Why no map of the plan is made, if none is.
fn plan_refusal(alloc: Global, plan: WirePlan) -> Option<WordMapNewError>
    requires { IsPlan plan }
{
    WordMap::new(alloc, plan).err()
}

/// Where the pieces of a wire of one client and one server begin, in their order.
fn places(map: &WordMap) -> [usize; 10]
    requires { map.now.ports.items ≡ CLIENT ∷ SERVER ∷ [] }
{
    let requests = WayIndex::Requests {
        client: 0,
        server: 1,
    };
    let responses = WayIndex::Responses {
        client: 0,
        server: 1,
        lane: 0,
    };
    [
        map.region(0),
        map.region(1),
        map.slot(1, 2),
        map.part(1, 2, MessagePart::Payload),
        map.message_queue(requests).base,
        map.returning_queue(requests).base,
        map.message_queue(responses).base,
        map.returning_queue(responses).base,
        map.state(0, 1, 0),
        map.state(0, 1, 3),
    ]
}

#[test]
fn pieces_stand_one_behind_the_other(rt: HostRuntime) -> Result<(), Fail> {
    let map = WordMap::new(rt.alloc(), all_ones(rt.alloc(), 1)?)?;
    assert_eq!(rt; places(&map), [0, 40, 58, 64, 121, 124, 129, 132, 137, 164]);
    Ok(())
}
