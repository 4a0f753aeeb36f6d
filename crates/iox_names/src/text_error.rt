//! Why bytes are no text.

/// Why bytes are no text of bounded length.
#[derive(Clone, Copy, Debug, PartialEq, Eq)]
pub enum TextError {
    /// There are too many.
    ExceedsMaximumLength,
    /// One of them is 0 or past 127.
    InvalidContent,
}
