//! The elements of messages, in commands.

/// The elements of a message, by the role of the port that sends it.
#[derive(Debug, Drop)]
pub enum Elements<Q, P> {
    /// Those of a request, which a client sends.
    Requests(Vec<Q>),
    /// Those of a response, which a server sends.
    Responses(Vec<P>),
}
