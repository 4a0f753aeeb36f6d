use super::{BLACKBOARD, REQUESTS, SAMPLES};
use crate::expected::equal;
use iox_configs::config::{Event, PublishSubscribe, RequestResonse};
use iox_configs::event_id::EventId;
use iox_configs::static_config::{blackboard, event, publish_subscribe, request_response};
use iox_types::{MessageTypeDetails, RequestHeader, ResponseHeader, TypeDetail, TypeVariant};
use std::process::Abort;
use std::time::Duration;

/// A service with these settings, whose requests are slices of `u64` and whose responses are `u32`.
fn requests(rt: &impl Abort, settings: &RequestResonse) -> request_response::StaticConfig {
    let request = MessageTypeDetails::from::<RequestHeader, (), u64>(TypeVariant::Dynamic);
    let response = MessageTypeDetails::from::<ResponseHeader, (), u32>(TypeVariant::FixedSize);
    request_response::StaticConfig::new(
        request.expect(rt, "types"),
        response.expect(rt, "types"),
        *settings,
    )
}

/// Ends the test where a service does not show the first settings.
fn shows_requests(rt: &impl Abort, config: &request_response::StaticConfig) {
    equal(rt, config.settings(), &REQUESTS);
    equal(
        rt,
        [
            config.max_clients(),
            config.max_servers(),
            config.max_nodes(),
            config.max_active_requests_per_client(),
            config.max_loaned_requests(),
            config.max_response_buffer_size(),
            config.max_borrowed_responses_per_pending_response(),
        ],
        [8, 2, 20, 4, 2, 2, 2],
    );
    equal(
        rt,
        [
            config.has_safe_overflow_for_requests(),
            config.has_safe_overflow_for_responses(),
            config.does_support_fire_and_forget_requests(),
        ],
        [true; 3],
    );
}

#[test]
fn a_request_response_service_shows_its_settings(rt: HostRuntime) {
    let config = requests(&rt, &REQUESTS);
    shows_requests(&rt, &config);
    let request = config.request_message_type_details();
    equal(&rt, request.payload.type_name(), "u64");
    let response = config.response_message_type_details();
    equal(&rt, response.payload.type_name(), "u32");
}

/// Who has a pool that lends so many messages at once.
enum Pool {
    Client(usize),
    Server(usize),
}

/// Ends the test where a pool has another number of messages.
fn has_pool(rt: &impl Abort, settings: &RequestResonse, pool: &Pool, wanted: Option<usize>) {
    let config = requests(rt, settings);
    let number = match pool {
        Pool::Client(loans) => config.required_amount_of_chunks_per_client_data_segment(*loans),
        Pool::Server(loans) => config.required_amount_of_chunks_per_server_data_segment(*loans),
    };
    equal(rt, number, wanted);
}

/// The pools of the first settings have 22 and 768 messages, and one past the greatest number is
/// none.
#[test]
fn pools_have_as_many_messages_as_the_settings_ask_for(rt: HostRuntime) {
    const MANY_SERVERS: RequestResonse = RequestResonse {
        max_servers: usize::MAX,
        ..REQUESTS
    };
    const NO_CLIENTS: RequestResonse = RequestResonse {
        max_clients: 0,
        ..MANY_SERVERS
    };
    const NEITHER: RequestResonse = RequestResonse {
        max_servers: 0,
        ..NO_CLIENTS
    };
    const POOLS: &[(RequestResonse, Pool, Option<usize>)] = &[
        (REQUESTS, Pool::Client(2), Some(22)),
        (REQUESTS, Pool::Server(2), Some(768)),
        (MANY_SERVERS, Pool::Client(2), None),
        (MANY_SERVERS, Pool::Server(2), None),
        (NO_CLIENTS, Pool::Server(2), Some(0)),
        (NEITHER, Pool::Client(usize::MAX - 4), Some(usize::MAX)),
        (NEITHER, Pool::Client(usize::MAX - 3), None),
    ];
    for (settings, pool, wanted) in POOLS {
        has_pool(&rt, settings, pool, *wanted);
    }
}

/// Ends the test where a service does not show its settings.
fn shows_samples(rt: &impl Abort, config: &publish_subscribe::StaticConfig) {
    equal(
        rt,
        [
            config.max_publishers(),
            config.max_subscribers(),
            config.max_nodes(),
            config.history_size(),
            config.subscriber_max_buffer_size(),
            config.subscriber_max_borrowed_samples(),
        ],
        [2, 8, 20, 5, 2, 2],
    );
    equal(rt, config.has_safe_overflow(), true);
    equal(
        rt,
        [
            config.required_amount_of_samples_per_data_segment(3),
            config.required_amount_of_samples_per_data_segment(usize::MAX),
        ],
        [Some(40), None],
    );
}

#[test]
fn a_publish_subscribe_service_shows_its_settings(rt: HostRuntime) {
    const SETTINGS: PublishSubscribe = PublishSubscribe {
        publisher_history_size: 5,
        ..SAMPLES
    };
    let details = MessageTypeDetails::from::<(), (), u16>(TypeVariant::FixedSize);
    let config = publish_subscribe::StaticConfig::new(details.expect(&rt, "types"), SETTINGS);
    equal(
        &rt,
        config.message_type_details().payload.type_name(),
        "u16",
    );
    equal(&rt, config.settings(), &SETTINGS);
    shows_samples(&rt, &config);
}

/// The first settings, with a deadline, and an event of each kind that notifiers report.
fn events() -> Event {
    let mut settings = Event::default();
    settings.deadline = Some(Duration::from_millis(7));
    settings.notifier_created_event = Some(EventId::new(1));
    settings.notifier_dropped_event = Some(EventId::new(2));
    settings.notifier_dead_event = Some(EventId::new(3));
    settings
}

/// Ends the test where a service does not show its settings.
fn shows_events(rt: &impl Abort, config: &event::StaticConfig) {
    equal(
        rt,
        [
            config.max_notifiers(),
            config.max_listeners(),
            config.max_nodes(),
            config.event_id_max_value(),
        ],
        [16, 16, 36, 255],
    );
    equal(rt, config.deadline(), Some(Duration::from_millis(7)));
    equal(
        rt,
        [
            config.notifier_created_event(),
            config.notifier_dropped_event(),
            config.notifier_dead_event(),
        ],
        [
            Some(EventId::new(1)),
            Some(EventId::new(2)),
            Some(EventId::new(3)),
        ],
    );
}

#[test]
fn an_event_service_shows_its_settings(rt: HostRuntime) {
    let settings = events();
    let config = event::StaticConfig::new(settings);
    equal(&rt, config.settings(), &settings);
    shows_events(&rt, &config);
    equal(&rt, EventId::new(3).as_value(), 3);
}

#[test]
fn a_blackboard_service_shows_its_settings(rt: HostRuntime) {
    let details = TypeDetail::new::<u8>(TypeVariant::FixedSize).expect(&rt, "a type");
    let config = blackboard::StaticConfig::new(details, BLACKBOARD);
    equal(&rt, config.type_details().type_name(), "u8");
    equal(&rt, config.settings(), &BLACKBOARD);
    equal(&rt, [config.max_readers(), config.max_nodes()], [8, 20]);
}
