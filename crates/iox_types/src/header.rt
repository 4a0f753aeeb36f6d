//! What stands before the user header of a request and of a response.
ghost use Rattle.std.specs.Prelude.{◌≡◌, codes, refl};

use crate::channel_state::RequestId;
use crate::identifiers::{UniqueClientId, UniqueNodeId, UniqueServerId};
use iox_names::{Words, ZeroCopySend};

/// The header of a request.
#[derive(Clone, Copy, Debug, PartialEq, Eq)]
pub struct RequestHeader {
    /// The node of the client that sent the request.
    pub node_id: UniqueNodeId,
    /// The client that sent the request.
    pub client_id: UniqueClientId,
    /// The lane on which the client waits for the responses.
    pub channel_id: u64,
    /// The number of the request, below 2^62, as its client counts.
    pub request_id: RequestId,
    /// How many elements the payload has.
    pub number_of_elements: u64,
}

impl RequestHeader {
    /// The client that sent the request.
    pub fn client_id(&self) -> UniqueClientId
        ensures { result ≡ self.now.client_id }
    {
        self.client_id
    }

    /// The node of the client that sent the request.
    pub fn node_id(&self) -> UniqueNodeId
        ensures { result ≡ self.now.node_id }
    {
        self.node_id
    }

    /// How many elements the payload has.
    pub fn number_of_elements(&self) -> u64
        ensures { result ≡ self.now.number_of_elements }
    {
        self.number_of_elements
    }
}

impl Words for RequestHeader {
    ghost use Rattle.iox_types.specs.Headers.{IsRequestHeader, IsRequestHeaderWords};
    ghost use Rattle.iox_types.specs.Headers.{request_header_of_words, request_header_words};
    ghost use Rattle.iox_types.specs.HeaderLaws.{seven_words_are_a_request_header};

    ghost WORDS = { 7 };

    const WORDS: usize = 7;

    ghost is_value = { IsRequestHeader };

    ghost words = { request_header_words };

    ghost is_words = { IsRequestHeaderWords };

    ghost of_words = { request_header_of_words };

    fn known(self) {}

    fn word(&self, index: usize) -> u64 {
        match index {
            0 | 1 => self.node_id.word(index),
            2 | 3 => self.client_id.word(index - 2),
            4 => self.channel_id,
            5 => self.request_id.value(),
            _ => self.number_of_elements,
        }
    }

    fn of_words(list: &[u64]) -> Option<RequestHeader> {
        match list {
            [
                node_high,
                node_low,
                client_high,
                client_low,
                channel_id,
                request_id,
                number_of_elements,
            ] => {
                Some(RequestHeader {
                    node_id: UniqueNodeId::of_words(&[*node_high, *node_low])?,
                    client_id: UniqueClientId::of_words(&[*client_high, *client_low])?,
                    channel_id: *channel_id,
                    request_id: RequestId::new(*request_id)?,
                    number_of_elements: *number_of_elements,
                })
            }
            _ => None,
        }
    }

    ghost laws = { seven_words_are_a_request_header };
}

impl ZeroCopySend for RequestHeader {
    ghost SIZE = { 56 };

    const SIZE: usize = 56;

    ghost ALIGNMENT = { 8 };

    const ALIGNMENT: usize = 8;

    ghost name = { codes "RequestHeader" };

    fn name() -> &'static str {
        "RequestHeader"
    }

    ghost sized = { refl };

    ghost aligned = { (3, refl) };

    ghost named = { refl };
}

/// The header of a response.
#[derive(Clone, Copy, Debug, PartialEq, Eq)]
pub struct ResponseHeader {
    /// The node of the server that sent the response.
    pub node_id: UniqueNodeId,
    /// The server that sent the response.
    pub server_id: UniqueServerId,
    /// The request that it answers.
    pub request_id: RequestId,
    /// How many elements the payload has.
    pub number_of_elements: u64,
}

impl ResponseHeader {
    /// The server that sent the response.
    pub fn server_id(&self) -> UniqueServerId
        ensures { result ≡ self.now.server_id }
    {
        self.server_id
    }

    /// The node of the server that sent the response.
    pub fn node_id(&self) -> UniqueNodeId
        ensures { result ≡ self.now.node_id }
    {
        self.node_id
    }

    /// How many elements the payload has.
    pub fn number_of_elements(&self) -> u64
        ensures { result ≡ self.now.number_of_elements }
    {
        self.number_of_elements
    }
}

impl Words for ResponseHeader {
    ghost use Rattle.iox_types.specs.Headers.{IsResponseHeader, IsResponseHeaderWords};
    ghost use Rattle.iox_types.specs.Headers.{response_header_of_words, response_header_words};
    ghost use Rattle.iox_types.specs.HeaderLaws.{six_words_are_a_response_header};

    ghost WORDS = { 6 };

    const WORDS: usize = 6;

    ghost is_value = { IsResponseHeader };

    ghost words = { response_header_words };

    ghost is_words = { IsResponseHeaderWords };

    ghost of_words = { response_header_of_words };

    fn known(self) {}

    fn word(&self, index: usize) -> u64 {
        match index {
            0 | 1 => self.node_id.word(index),
            2 | 3 => self.server_id.word(index - 2),
            4 => self.request_id.value(),
            _ => self.number_of_elements,
        }
    }

    fn of_words(list: &[u64]) -> Option<ResponseHeader> {
        match list {
            [
                node_high,
                node_low,
                server_high,
                server_low,
                request_id,
                number_of_elements,
            ] => {
                Some(ResponseHeader {
                    node_id: UniqueNodeId::of_words(&[*node_high, *node_low])?,
                    server_id: UniqueServerId::of_words(&[*server_high, *server_low])?,
                    request_id: RequestId::new(*request_id)?,
                    number_of_elements: *number_of_elements,
                })
            }
            _ => None,
        }
    }

    ghost laws = { six_words_are_a_response_header };
}

impl ZeroCopySend for ResponseHeader {
    ghost SIZE = { 48 };

    const SIZE: usize = 48;

    ghost ALIGNMENT = { 8 };

    const ALIGNMENT: usize = 8;

    ghost name = { codes "ResponseHeader" };

    fn name() -> &'static str {
        "ResponseHeader"
    }

    ghost sized = { refl };

    ghost aligned = { (3, refl) };

    ghost named = { refl };
}
