//! Services to begin with.
use super::{TheRefusal, TheService};
use crate::expected::holds;
use iceoryx2_wire::{
    AllocationStrategy, AttributeKey, AttributeSpecifier, AttributeValue, Backpressure,
    BackpressureStrategy, Defaults, MessageTypes, ServiceDescription, ServiceIdentity, ServiceName,
    Settings, UniqueSystemId,
};
use std::alloc::Global;
use std::process::Abort;

/// The defaults.
pub(super) const SETTINGS: Settings = Settings {
    clients: 8,
    servers: 2,
    nodes: 20,
    active_requests: 4,
    loaned_requests: 2,
    response_buffer: 2,
    borrowed_responses: 2,
    loaned_responses: 2,
    client_expired: 128,
    server_expired: 128,
    request_overflow: true,
    response_overflow: true,
    fire_and_forget: true,
    client_strategy: BackpressureStrategy::RetryUntilDelivered,
    server_strategy: BackpressureStrategy::RetryUntilDelivered,
    client_allocation: AllocationStrategy::Static,
    server_allocation: AllocationStrategy::Static,
};

/// The id N 0 0 0.
pub(super) fn id(process: u32) -> UniqueSystemId {
    UniqueSystemId {
        process,
        seconds: 0,
        nanoseconds: 0,
        counter: 0,
    }
}

/// The attribute is defined.
fn define(rt: &impl Abort, attributes: &mut AttributeSpecifier, key: &str, value: &str) {
    let key = AttributeKey::new(key).expect(rt, "a key");
    let value = AttributeValue::new(value).expect(rt, "a value");
    holds(rt, attributes.try_define(&key, &value).is_ok());
}

/// The attributes (a, 1) and (b, 2).
fn attributes(rt: &impl Abort) -> AttributeSpecifier {
    let mut attributes = AttributeSpecifier::new();
    define(rt, &mut attributes, "a", "1");
    define(rt, &mut attributes, "b", "2");
    attributes
}

/// What a message holds at first.
const DEFAULTS: Defaults<u64, ()> = Defaults {
    element: 7,
    user_header: (),
};

/// The service a/b, with number 7.
pub(super) fn identity(rt: &impl Abort) -> ServiceIdentity {
    let name = ServiceName::new("a/b").expect(rt, "a name");
    ServiceIdentity { name, number: 7 }
}

/// A service with that description, or why it is refused.
pub(super) fn new<H: Backpressure>(
    alloc: Global,
    settings: &Settings,
    identity: ServiceIdentity,
    description: ServiceDescription,
    id: UniqueSystemId,
) -> Result<TheService<H>, TheRefusal<'static>> {
    TheService::create(
        alloc,
        *settings,
        identity,
        description,
        DEFAULTS,
        DEFAULTS,
        id,
    )
}

/// The description of a service of these types, with the attributes (a, 1) and (b, 2).
pub(super) fn description(rt: &impl Abort, types: MessageTypes) -> ServiceDescription {
    ServiceDescription {
        types,
        attributes: attributes(rt),
    }
}

/// A service that is described so, whose first node has the id 1 0 0 0.
pub(super) fn described<H: Backpressure>(
    rt: &impl Abort,
    alloc: Global,
    settings: &Settings,
    types: MessageTypes,
) -> TheService<H> {
    let description = description(rt, types);
    new(alloc, settings, identity(rt), description, id(1)).expect(rt, "a service")
}

/// The service's own types.
pub(super) fn own_types(rt: &impl Abort) -> MessageTypes {
    TheService::<()>::own_types().expect(rt, "types")
}

/// The same with the service's own types.
pub(super) fn first<H: Backpressure>(
    rt: &impl Abort,
    alloc: Global,
    settings: &Settings,
) -> TheService<H> {
    described(rt, alloc, settings, own_types(rt))
}
