//! Descriptions of services: what no clause says, and each function once.
mod callers;
mod descriptions;
mod services;

use iceoryx2_service::attribute::AttributeSpecifier;
use iceoryx2_service::identifiers::{UniqueServiceId, UniqueSystemId};
use std::process::Abort;

const MAKER: UniqueSystemId = UniqueSystemId {
    process: 1,
    seconds: 2,
    nanoseconds: 3,
    counter: 4,
};

/// The id of a service.
fn id() -> UniqueServiceId {
    UniqueServiceId::new(MAKER)
}

/// The attribute of a service.
fn specifier(rt: &impl Abort) -> AttributeSpecifier {
    crate::attributes::specifier(rt, &[("unit", "metre")])
}
