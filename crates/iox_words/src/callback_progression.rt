//! Whether a visit continues.

/// What a callback answers that is called with one item after the other.
#[derive(Clone, Copy, Debug, PartialEq, Eq)]
pub enum CallbackProgression {
    /// It is called with the next item, if there is one.
    Continue,
    /// The callback is not called again.
    Stop,
}
