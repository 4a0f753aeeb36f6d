//! What messages hold at first.

/// What a message holds before it is filled: the default of an element, and that of the user
/// header.
#[derive(Clone, Copy, Debug, PartialEq, Eq)]
pub struct Defaults<E, H> {
    /// What each element holds.
    pub element: E,
    /// What the user header holds.
    pub user_header: H,
}
