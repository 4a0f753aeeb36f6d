//! How many messages a port needs, and who chooses fewer.
ghost use Rattle.std.specs.Prelude.{◌≡◌};

use super::{Deed, goes};
use crate::expected::equal;
use iox_control::Settings;
use iox_control_lending::LoanRefusal;
use iox_control_making::NotMade;
use iox_model::kind::Role;
use iox_port_commands::{
    Hub, MessageShape, Options, PreallocatedRequestsOverride, PreallocatedResponseOverride,
    default_settings,
};
use iox_store::One;
use iox_types::AllocationStrategy;
use std::alloc::{AllocError, Global};
use std::process::Abort;

type TheHub = Hub<One<u64>, (), One<u64>, ()>;

const OPTIONS: Options = Options {
    max_slice_len: 1,
    pool: None,
    strategy: None,
    allocation: None,
    loaned_responses: None,
};

/// One response may be on loan for each request.
const ONE: Options = Options {
    loaned_responses: Some(1),
    ..OPTIONS
};

/// 2^62 of them may be.
const FAR: Options = Options {
    loaned_responses: Some(1 << 62),
    ..OPTIONS
};

fn hub(alloc: Global, settings: Settings) -> Result<TheHub, AllocError> {
    let request = MessageShape::of_requests(None, ());
    let response = MessageShape::of_responses(None, ());
    Hub::new(alloc, settings, request, response)
}

/// Does all of a list with a new hub of these settings.
fn plays(rt: &impl Abort, alloc: Global, settings: &Settings, list: &[Deed]) {
    let mut hub = hub(alloc, *settings).expect(rt, "a hub");
    goes(rt, alloc, &mut hub, list);
}

/// A closure that answers 0 chooses one message.
pub(super) fn chooses_one(needed: usize) -> usize
    ensures { result ≡ 1 }
{
    PreallocatedRequestsOverride::new(|_needed: usize| 0).pool(needed)
}

/// What a closure answers that chooses half, and what is made of it.
fn half(needed: usize) -> (usize, usize) {
    let half = PreallocatedRequestsOverride::new(|needed: usize| needed / 2);
    (half.call(needed), half.pool(needed))
}

/// The same of one that chooses 1000.
fn many(needed: usize) -> (usize, usize) {
    let many = PreallocatedResponseOverride::new(|_needed: usize| 1000);
    (many.call(needed), many.pool(needed))
}

#[test]
fn what_a_closure_answers_is_raised_to_1_and_lowered_to_what_is_needed(rt: HostRuntime) {
    equal(&rt, half(22), (11, 11));
    equal(&rt, half(1), (0, 1));
    equal(&rt, chooses_one(22), 1);
    equal(&rt, many(768), (1000, 768));
}

#[test]
fn a_port_needs_messages_for_all_at_once(rt: HostRuntime) {
    plays(
        &rt,
        rt.alloc(),
        &default_settings(),
        &[
            // 2 on loan, 4 active, and at each of 2 servers 4 that wait and 4 that were received.
            Deed::Worst(Role::Client, OPTIONS, Some(22)),
            // 2 on loan for each of 4 requests of 8 clients, and 4 on each of 22 lanes of theirs.
            Deed::Worst(Role::Server, OPTIONS, Some(768)),
            Deed::Worst(Role::Server, ONE, Some(736)),
            Deed::Worst(Role::Server, FAR, None),
        ],
    );
}

#[test]
fn a_client_whose_pool_is_chosen_has_that_many_messages(rt: HostRuntime) {
    const MOST: Options = Options {
        pool: Some(u64::MAX),
        ..OPTIONS
    };
    plays(
        &rt,
        rt.alloc(),
        &default_settings(),
        &[
            Deed::MakesLeast(OPTIONS, Ok(0)),
            Deed::Lends(0, 1, Some(Ok(1))),
            Deed::Lends(0, 1, None),
            // It asks for as many as there are numbers.
            Deed::Makes(0, Role::Client, MOST, Ok(2)),
            Deed::Lends(2, 1, Some(Ok(3))),
            Deed::Lends(2, 1, Some(Ok(4))),
        ],
    );
}

#[test]
fn without_memory_a_port_lacks_its_data_segment(rt: HostRuntime) {
    plays(
        &rt,
        rt.alloc(),
        &default_settings(),
        &[
            Deed::WithoutMemory(NotMade::DataSegment),
            Deed::Makes(0, Role::Server, FAR, Err(NotMade::DataSegment)),
        ],
    );
}

/// Messages are to grow.
fn growing() -> Settings {
    Settings {
        client_allocation: AllocationStrategy::BestFit,
        server_allocation: AllocationStrategy::PowerOfTwo,
        ..default_settings()
    }
}

#[test]
fn a_message_of_one_element_never_grows(rt: HostRuntime) {
    const REFUSED: LoanRefusal = LoanRefusal::WrongLength;
    plays(
        &rt,
        rt.alloc(),
        &growing(),
        &[
            Deed::Makes(0, Role::Client, OPTIONS, Ok(0)),
            Deed::Makes(0, Role::Server, OPTIONS, Ok(1)),
            Deed::Lends(0, 33, Some(Err(REFUSED))),
            Deed::Lends(0, 0, Some(Err(REFUSED))),
            Deed::Lends(0, 1, Some(Ok(2))),
        ],
    );
}
