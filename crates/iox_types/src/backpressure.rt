//! What a sender does where a receiver has no room, or a message is longer than was foreseen.

/// What happens to a message for a full receiver.
#[derive(Clone, Copy, Debug, PartialEq, Eq)]
pub enum BackpressureStrategy {
    /// That receiver does not get it.
    DiscardData,
    /// The whole send is refused, before anybody gets it.
    RetryUntilDelivered,
}

/// Whether a port's messages may grow past its greatest length.
#[derive(Clone, Copy, Debug, PartialEq, Eq)]
pub enum AllocationStrategy {
    /// None grows: a loan past the greatest length is refused.
    Static,
    /// They grow, if there is memory. How far is not visible, so it acts as `PowerOfTwo` does.
    BestFit,
    /// They grow, if there is memory. How far is not visible, so it acts as `BestFit` does.
    PowerOfTwo,
}
