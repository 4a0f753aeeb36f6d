//! A program over descriptions of services: what a service says of itself, what is required, and
//! what is registered with it.
#![tactic(auto)]

mod servers;

use iceoryx2_service::attribute::{
    AttributeKey, AttributeSpecifier, AttributeValue, AttributeVerifier,
};
use iceoryx2_service::dynamic_config::request_response::DynamicConfig;
use iceoryx2_service::service_name::ServiceName;
use servers::{come_and_go, server_of};
use std::io;

fn main(rt: HostRuntime) -> io::Result<()> {
    let (Ok(unit), Ok(metre)) = (AttributeKey::new("unit"), AttributeValue::new("metre")) else {
        return println!(rt; "no such attribute");
    };
    let Ok(required) = AttributeVerifier::new().require(&unit, &metre) else {
        return println!(rt; "too many attributes");
    };
    let Ok(name) = ServiceName::new("distances") else {
        return println!(rt; "no such name");
    };
    match required.verify_requirements(AttributeSpecifier::new().attributes()) {
        Ok(()) => println!(rt; "{name} has all that is required")?,
        Err(error) => println!(rt; "{name} is refused: {error}")?,
    }
    let Ok(server) = server_of(1) else {
        return println!(rt; "no such node");
    };
    let Ok(mut ports) = DynamicConfig::new(rt.alloc(), 1, 1, 1) else {
        return println!(rt; "no memory");
    };
    match come_and_go(&mut ports, server) {
        Some(visit) => println!(rt;
            "servers listed: {}, afterwards: {}",
            visit.listed,
            ports.number_of_servers()
        ),
        None => println!(rt; "no room for a server"),
    }
}
