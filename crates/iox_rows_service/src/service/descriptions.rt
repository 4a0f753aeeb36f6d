//! By the paths of `iceoryx2_service` alone.
use super::callers::suits;
use super::{MAKER, id, specifier};
use crate::expected::equal;
use iceoryx2_service::attribute::{
    AttributeKey, AttributeSpecifier, AttributeValue, AttributeVerificationError,
    AttributeVerifier, DefinitionRefusal,
};
use iceoryx2_service::channel_state::RequestId;
use iceoryx2_service::config::{BackpressureStrategy, RequestResonse};
use iceoryx2_service::header::{RequestHeader, ResponseHeader};
use iceoryx2_service::identifiers::{UniqueId, kind};
use iceoryx2_service::messaging_pattern::MessagingPattern;
use iceoryx2_service::service_name::ServiceName;
use iceoryx2_service::service_settings;
use iceoryx2_service::static_config::message_type_details::{MessageTypeDetails, TypeVariant};
use iceoryx2_service::static_config::{ServiceSettings, StaticConfig};
use std::process::Abort;

/// What the service 23 of these limits is asked to be.
fn settings(rt: &impl Abort, limits: RequestResonse) -> service_settings::ServiceSettings {
    ServiceSettings {
        name: ServiceName::new("23").expect(rt, "a name"),
        limits,
    }
}

/// The request-response service 23 of these limits.
fn service(rt: &impl Abort, limits: RequestResonse) -> StaticConfig {
    let settings = settings(rt, limits);
    let request = MessageTypeDetails::from::<RequestHeader, (), u64>(TypeVariant::Dynamic);
    let response = MessageTypeDetails::from::<ResponseHeader, (), u64>(TypeVariant::Dynamic);
    let config = StaticConfig::new_request_response(
        &settings,
        request.expect(rt, "types"),
        response.expect(rt, "types"),
        specifier(rt),
        id(),
    );
    equal(rt, config.request_response().settings(), &settings.limits);
    config
}

/// Ends the test where a service is told otherwise.
fn is_told(rt: &impl Abort, config: &StaticConfig) {
    let hash = config.service_hash();
    equal(
        rt,
        hash.as_str(),
        "40bd001563085fc35165329ea1ff5c5ecbdbbeef",
    );
    equal(rt, config.name().as_str(), "23");
    equal(
        rt,
        (
            config.unique_service_id(),
            config.attributes().number_of_attributes(),
            config.messaging_pattern().kind(),
        ),
        (id(), 1, MessagingPattern::RequestResponse),
    );
}

/// Ends the test where a service with the unit metre does not suit those who require nothing, or
/// suits those who require the foot.
fn suits_some(rt: &impl Abort, config: &StaticConfig) {
    let unit = AttributeKey::new("unit").expect(rt, "a key");
    let foot = AttributeValue::new("foot").expect(rt, "a value");
    equal(rt, suits(config, &AttributeVerifier::new()), Ok(()));
    let verifier = AttributeVerifier::new()
        .require(&unit, &foot)
        .expect(rt, "room");
    let error = AttributeVerificationError::IncompatibleAttribute(&unit, &foot);
    equal(rt, suits(config, &verifier), Err(error));
}

#[test]
fn a_service_is_described_by_its_paths(rt: HostRuntime) {
    let config = service(&rt, RequestResonse::default());
    is_told(&rt, &config);
    suits_some(&rt, &config);
}

/// The specifier with an attribute more, as a user's function would hand it on.
fn with_more(
    specifier: AttributeSpecifier,
    key: &AttributeKey,
    value: &AttributeValue,
) -> Result<AttributeSpecifier, DefinitionRefusal<AttributeSpecifier>> {
    specifier.define(key, value)?.define(key, value)
}

/// How many attributes there are then.
fn number_with_more(rt: &impl Abort) -> usize {
    let key = AttributeKey::new("unit").expect(rt, "a key");
    let value = AttributeValue::new("metre").expect(rt, "a value");
    let specifier = with_more(AttributeSpecifier::new(), &key, &value);
    specifier
        .expect(rt, "room")
        .attributes()
        .number_of_attributes()
}

#[test]
fn a_user_can_name_what_calls_take_and_answer(rt: HostRuntime) {
    equal(&rt, number_with_more(&rt), 2);
    let server: UniqueId<kind::Server> = UniqueId::new(MAKER);
    equal(&rt, server.pid(), 1);
    let request = RequestId::new(7).expect(&rt, "a number of a request");
    equal(&rt, request.value(), 7);
    equal(
        &rt,
        RequestResonse::default().server_backpressure_strategy,
        BackpressureStrategy::RetryUntilDelivered,
    );
}
