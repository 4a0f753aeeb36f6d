//! What is known of a message that one less has.

use iox_tables::wanted::Label;

/// What is known of a message that one less has.
#[derive(Clone, Copy, Debug, PartialEq, Eq, Drop)]
pub struct Left {
    /// Which request it is or answers.
    pub label: Label,
    /// The port whose pool it is in.
    pub owner: u64,
    /// Where that port likely stands among the ports. A wrong place is only slower.
    pub at: usize,
    /// Whether nobody has a message of that pool any more.
    pub idle: bool,
}
