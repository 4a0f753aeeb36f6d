//! A hub of numbers with the first limits: a client of node 0 has the number 0, and a server of
//! node 1 the number 1.
ghost use Rattle.std.specs.Prelude.{IfOk};
ghost use Rattle.iox_port_commands.specs.Applying.{HaveDefaults};

use super::answering::AnswersAt;
use super::{Row, goes};
use iox_control::Settings;
use iox_port_commands::{Hub, MessageShape, Part};
use iox_store::Many;
use iox_types::{AllocationStrategy, BackpressureStrategy};
use std::alloc::{AllocError, Global};
use std::process::Abort;

/// Messages are any number of numbers, with no user header.
type Numbers = Hub<Many<u64>, (), Many<u64>, (), AnswersAt>;

/// The first limits. A full receiver is passed over, and nothing is kept of ports that are gone.
pub const FIRST: Settings = Settings {
    clients: 8,
    servers: 2,
    nodes: 20,
    active_requests: 4,
    loaned_requests: 2,
    response_buffer: 2,
    borrowed_responses: 2,
    loaned_responses: 2,
    client_expired: 0,
    server_expired: 0,
    request_overflow: true,
    response_overflow: true,
    fire_and_forget: true,
    client_strategy: BackpressureStrategy::DiscardData,
    server_strategy: BackpressureStrategy::DiscardData,
    client_allocation: AllocationStrategy::Static,
    server_allocation: AllocationStrategy::Static,
};

const WORD: Part = Part {
    size: 8,
    alignment: 8,
};

/// A hub with these settings, in which no port was made.
fn hub_with(alloc: Global, settings: Settings) -> Result<Numbers, AllocError>
    ensures { IfOk result (λ h. HaveDefaults h) }
{
    let request: MessageShape<u64, ()> = MessageShape {
        default: Some(0),
        user_header: (),
        header_part: WORD,
        user_part: WORD,
        element_part: WORD,
    };
    let response: MessageShape<u64, ()> = MessageShape {
        default: Some(0),
        user_header: (),
        header_part: WORD,
        user_part: WORD,
        element_part: WORD,
    };
    Hub::new(alloc, settings, request, response)
}

/// Plays a list in a new hub with these settings.
pub fn plays_with(rt: &impl Abort, alloc: Global, settings: &Settings, list: &[Row]) {
    let mut hub = hub_with(alloc, *settings).expect(rt, "a hub");
    goes(rt, &mut hub, alloc, list);
}
