//! The parts of a message.

/// A part of a message.
#[derive(Clone, Copy, Debug, PartialEq, Eq)]
pub enum MessagePart {
    /// Node, port, request and number of elements.
    Header,
    /// The words of the user header.
    UserHeader,
    /// The words of the elements.
    Payload,
}
