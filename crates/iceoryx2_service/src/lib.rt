//! Descriptions of services: names, attributes, identifiers, types, layouts, configurations and
//! what is registered, at the paths of their modules. The crates below hold all but what a service
//! itself is made with.
#![tactic(auto)]

pub mod attribute;
pub mod channel_state;
pub mod config;
pub mod dynamic_config;
pub mod event_id;
pub mod header;
pub mod identifiers;
pub mod laws;
pub mod messaging_pattern;
pub mod service_hash;
pub mod service_name;
pub mod service_settings;
pub mod static_config;
