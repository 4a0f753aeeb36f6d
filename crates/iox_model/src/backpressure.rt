//! What a handler says where a receiver has no room.

/// What a handler answers for a full receiver.
#[derive(Clone, Copy, Debug, PartialEq, Eq)]
pub enum BackpressureAction {
    /// The sender's strategy decides.
    FollowBackpressureStrategy,
    /// The receiver is passed over, and the send continues.
    DiscardData,
    /// The send is refused.
    DiscardDataAndFail,
}
