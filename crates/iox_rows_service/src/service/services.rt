//! Services of the other patterns.
use super::{id, specifier};
use crate::expected::{equal, holds};
use iceoryx2_service::static_config::{
    MessagingPattern, StaticConfig, blackboard, event, publish_subscribe,
};
use iox_configs::config::{Blackboard, Event, PublishSubscribe};
use iox_names::{MessagingPattern as Kind, ServiceHash, ServiceName};
use iox_types::{MessageTypeDetails, TypeDetail, TypeVariant};
use std::process::Abort;

fn name(rt: &impl Abort) -> ServiceName {
    ServiceName::new("23").expect(rt, "a name")
}

/// The hash of a publish-subscribe service.
fn hash_of_samples(rt: &impl Abort) -> ServiceHash {
    let details = MessageTypeDetails::from::<(), (), u16>(TypeVariant::FixedSize);
    let samples = publish_subscribe::StaticConfig::new(
        details.expect(rt, "types"),
        PublishSubscribe::default(),
    );
    let config = StaticConfig::new_publish_subscribe(name(rt), samples, specifier(rt), id());
    equal(rt, config.publish_subscribe().max_publishers(), 2);
    equal(
        rt,
        config.messaging_pattern().kind(),
        Kind::PublishSubscribe,
    );
    *config.service_hash()
}

/// That of an event service.
fn hash_of_events(rt: &impl Abort) -> ServiceHash {
    let events = event::StaticConfig::new(Event::default());
    let config = StaticConfig::new_event(name(rt), events, specifier(rt), id());
    equal(rt, config.event().max_nodes(), 36);
    equal(rt, config.messaging_pattern().kind(), Kind::Event);
    *config.service_hash()
}

/// That of a blackboard service.
fn hash_of_board(rt: &impl Abort) -> ServiceHash {
    let keys = TypeDetail::new::<u8>(TypeVariant::FixedSize).expect(rt, "a type");
    let board = blackboard::StaticConfig::new(keys, Blackboard::default());
    let config = StaticConfig::new_blackboard(name(rt), board, specifier(rt), id());
    equal(rt, config.blackboard().max_readers(), 8);
    holds(
        rt,
        matches!(config.messaging_pattern(), MessagingPattern::Blackboard(_)),
    );
    *config.service_hash()
}

#[test]
fn services_of_other_patterns_have_other_hashes(rt: HostRuntime) {
    let (samples, events) = (hash_of_samples(&rt), hash_of_events(&rt));
    equal(&rt, samples == events, false);
    equal(&rt, events == hash_of_board(&rt), false);
}
