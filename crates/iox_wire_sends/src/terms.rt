//! What the send of a response is told about the wire.
use iox_steps::Site;

/// What the send of a response is told about its way, and of its client.
#[derive(Clone, Copy)]
pub struct ResponseTerms {
    /// The queue in which responses wait for the client.
    pub messages: Site,
    /// The queue in which the client gives them back.
    pub returning: Site,
    /// Where the request state stands.
    pub state: usize,
    /// Whether a full queue gives up its oldest message.
    pub overflow: bool,
    /// Whether the send fails where the client is full.
    pub fails: bool,
    /// The client's node.
    pub node: u64,
}
