//! A service that tells how long a text is.
use iceoryx2_wire::{
    AllocationStrategy, AttributeKey, AttributeSpecifier, AttributeValue, AttributeVerifier,
    BackpressureStrategy, Defaults, Many, One, Opener, Service, ServiceDescription,
    ServiceIdentity, ServiceName, Settings, UniqueSystemId,
};
use std::alloc::Global;

/// A request is a text, and a response is one number.
pub type Lengths = Service<Many<u8>, (), One<u64>, ()>;

const SETTINGS: Settings = Settings {
    clients: 8,
    servers: 2,
    nodes: 20,
    active_requests: 4,
    loaned_requests: 2,
    response_buffer: 2,
    borrowed_responses: 2,
    loaned_responses: 2,
    client_expired: 128,
    server_expired: 128,
    request_overflow: true,
    response_overflow: true,
    fire_and_forget: true,
    client_strategy: BackpressureStrategy::DiscardData,
    server_strategy: BackpressureStrategy::DiscardData,
    client_allocation: AllocationStrategy::Static,
    server_allocation: AllocationStrategy::Static,
};

/// The id of a node that is alone in its process.
pub fn id(process: u32) -> UniqueSystemId {
    UniqueSystemId {
        process,
        seconds: 0,
        nanoseconds: 0,
        counter: 0,
    }
}

/// A service that counts bytes. Its first node has number 0.
pub fn service(alloc: Global) -> Option<Lengths> {
    let mut attributes = AttributeSpecifier::new();
    let (unit, bytes) = (AttributeKey::new("unit"), AttributeValue::new("bytes"));
    attributes.try_define(&unit.ok()?, &bytes.ok()?).ok()?;
    let types = Lengths::own_types().ok()?;
    let description = ServiceDescription { types, attributes };
    let text = Defaults {
        element: b' ',
        user_header: (),
    };
    let number = Defaults {
        element: 0,
        user_header: (),
    };
    let name = ServiceName::new("lengths").ok()?;
    let identity = ServiceIdentity { name, number: 0 };
    Lengths::create(alloc, SETTINGS, identity, description, text, number, id(1)).ok()
}

/// Who opens a service of texts and numbers that counts in this unit.
pub fn opener(unit: &str) -> Option<Opener> {
    let mut verifier = AttributeVerifier::new();
    let (key, value) = (AttributeKey::new("unit"), AttributeValue::new(unit));
    verifier.try_require(&key.ok()?, &value.ok()?).ok()?;
    let types = Lengths::own_types().ok()?;
    Some(Opener { types, verifier })
}
