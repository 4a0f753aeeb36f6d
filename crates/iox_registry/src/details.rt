//! What is known about the ports that are registered with a service.
use crate::has_node::HasNode;
use iox_types::identifiers::{
    UniqueClientId, UniqueListenerId, UniqueNodeId, UniqueNotifierId, UniquePublisherId,
    UniqueReaderId, UniqueServerId, UniqueSubscriberId, UniqueWriterId,
};

/// Whether the data segment of a port grows.
#[derive(Clone, Copy, Debug, PartialEq, Eq)]
pub enum DataSegmentType {
    /// It stays as it was made.
    Static,
    /// It grows as longer payloads come.
    Dynamic,
}

/// What is known about a client.
#[derive(Clone, Copy, Debug, PartialEq, Eq)]
pub struct ClientDetails {
    /// The id of the client.
    pub client_id: UniqueClientId,
    /// The node that it belongs to.
    pub node_id: UniqueNodeId,
    /// How many requests its data segment has.
    pub number_of_requests: usize,
    /// The most responses of a server that wait for one request.
    pub response_buffer_size: usize,
    /// The greatest length of a payload.
    pub max_slice_len: usize,
    /// Whether its data segment grows.
    pub data_segment_type: DataSegmentType,
    /// How many segments it has at most.
    pub max_number_of_segments: usize,
}

/// What is known about a server.
#[derive(Clone, Copy, Debug, PartialEq, Eq)]
pub struct ServerDetails {
    /// The id of the server.
    pub server_id: UniqueServerId,
    /// The node that it belongs to.
    pub node_id: UniqueNodeId,
    /// The most requests of a client that wait.
    pub request_buffer_size: usize,
    /// How many responses its data segment has.
    pub number_of_responses: usize,
    /// The greatest length of a payload.
    pub max_slice_len: usize,
    /// Whether its data segment grows.
    pub data_segment_type: DataSegmentType,
    /// How many segments it has at most.
    pub max_number_of_segments: usize,
}

/// What is known about a publisher.
#[derive(Clone, Copy, Debug, PartialEq, Eq)]
pub struct PublisherDetails {
    /// The id of the publisher.
    pub publisher_id: UniquePublisherId,
    /// The node that it belongs to.
    pub node_id: UniqueNodeId,
    /// How many samples its data segment has.
    pub number_of_samples: usize,
    /// The greatest length of a payload.
    pub max_slice_len: usize,
    /// Whether its data segment grows.
    pub data_segment_type: DataSegmentType,
    /// How many segments it has at most.
    pub max_number_of_segments: usize,
}

/// What is known about a subscriber.
#[derive(Clone, Copy, Debug, PartialEq, Eq)]
pub struct SubscriberDetails {
    /// The id of the subscriber.
    pub subscriber_id: UniqueSubscriberId,
    /// The node that it belongs to.
    pub node_id: UniqueNodeId,
    /// The most samples that wait.
    pub buffer_size: usize,
}

/// What is known about a notifier.
#[derive(Clone, Copy, Debug, PartialEq, Eq)]
pub struct NotifierDetails {
    /// The id of the notifier.
    pub notifier_id: UniqueNotifierId,
    /// The node that it belongs to.
    pub node_id: UniqueNodeId,
}

/// What is known about a listener.
#[derive(Clone, Copy, Debug, PartialEq, Eq)]
pub struct ListenerDetails {
    /// The id of the listener.
    pub listener_id: UniqueListenerId,
    /// The node that it belongs to.
    pub node_id: UniqueNodeId,
}

/// What is known about a reader.
#[derive(Clone, Copy, Debug, PartialEq, Eq)]
pub struct ReaderDetails {
    /// The id of the reader.
    pub reader_id: UniqueReaderId,
    /// The node that it belongs to.
    pub node_id: UniqueNodeId,
}

/// What is known about a writer.
#[derive(Clone, Copy, Debug, PartialEq, Eq)]
pub struct WriterDetails {
    /// The id of the writer.
    pub writer_id: UniqueWriterId,
    /// The node that it belongs to.
    pub node_id: UniqueNodeId,
}

impl HasNode for ClientDetails {
    ghost node = { λ details. details.node_id };

    fn node_id(&self) -> UniqueNodeId {
        self.node_id
    }
}

impl HasNode for ServerDetails {
    ghost node = { λ details. details.node_id };

    fn node_id(&self) -> UniqueNodeId {
        self.node_id
    }
}

impl HasNode for PublisherDetails {
    ghost node = { λ details. details.node_id };

    fn node_id(&self) -> UniqueNodeId {
        self.node_id
    }
}

impl HasNode for SubscriberDetails {
    ghost node = { λ details. details.node_id };

    fn node_id(&self) -> UniqueNodeId {
        self.node_id
    }
}

impl HasNode for NotifierDetails {
    ghost node = { λ details. details.node_id };

    fn node_id(&self) -> UniqueNodeId {
        self.node_id
    }
}

impl HasNode for ListenerDetails {
    ghost node = { λ details. details.node_id };

    fn node_id(&self) -> UniqueNodeId {
        self.node_id
    }
}

impl HasNode for ReaderDetails {
    ghost node = { λ details. details.node_id };

    fn node_id(&self) -> UniqueNodeId {
        self.node_id
    }
}

impl HasNode for WriterDetails {
    ghost node = { λ details. details.node_id };

    fn node_id(&self) -> UniqueNodeId {
        self.node_id
    }
}
