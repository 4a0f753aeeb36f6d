//! Details of ports.
use super::Port;
use iox_registry::details::{
    ClientDetails, DataSegmentType, ListenerDetails, NotifierDetails, PublisherDetails,
    ReaderDetails, ServerDetails, SubscriberDetails, WriterDetails,
};
use iox_types::identifiers::UniqueId;

/// What is known about a client.
pub fn client(port: &Port) -> ClientDetails {
    ClientDetails {
        client_id: UniqueId::new(port.id),
        node_id: port.node,
        number_of_requests: 2,
        response_buffer_size: 3,
        max_slice_len: 4,
        data_segment_type: DataSegmentType::Static,
        max_number_of_segments: 6,
    }
}

/// What is known about a server.
pub fn server(port: &Port) -> ServerDetails {
    ServerDetails {
        server_id: UniqueId::new(port.id),
        node_id: port.node,
        request_buffer_size: 2,
        number_of_responses: 3,
        max_slice_len: 4,
        data_segment_type: DataSegmentType::Static,
        max_number_of_segments: 6,
    }
}

/// What is known about a publisher.
pub fn publisher(port: &Port) -> PublisherDetails {
    PublisherDetails {
        publisher_id: UniqueId::new(port.id),
        node_id: port.node,
        number_of_samples: 2,
        max_slice_len: 3,
        data_segment_type: DataSegmentType::Static,
        max_number_of_segments: 5,
    }
}

/// What is known about a subscriber.
pub fn subscriber(port: &Port) -> SubscriberDetails {
    SubscriberDetails {
        subscriber_id: UniqueId::new(port.id),
        node_id: port.node,
        buffer_size: 2,
    }
}

/// What is known about a notifier.
pub fn notifier(port: &Port) -> NotifierDetails {
    NotifierDetails {
        notifier_id: UniqueId::new(port.id),
        node_id: port.node,
    }
}

/// What is known about a listener.
pub fn listener(port: &Port) -> ListenerDetails {
    ListenerDetails {
        listener_id: UniqueId::new(port.id),
        node_id: port.node,
    }
}

/// What is known about a reader.
pub fn reader(port: &Port) -> ReaderDetails {
    ReaderDetails {
        reader_id: UniqueId::new(port.id),
        node_id: port.node,
    }
}

/// What is known about a writer.
pub fn writer(port: &Port) -> WriterDetails {
    WriterDetails {
        writer_id: UniqueId::new(port.id),
        node_id: port.node,
    }
}
