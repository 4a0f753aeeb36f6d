//! What a receiver looks for, and what tells whether a message is it.
ghost use Rattle.std.specs.Prelude.{◌≡◌, ℕ};
ghost use Rattle.iox_lanes.specs.declared.wanted.Label.{Label};

/// What a receiver looks for.
#[derive(Clone, Copy, Debug, PartialEq, Eq, Drop)]
pub enum Wanted {
    /// Any message.
    Any,
    /// A request that the state of its lane still names.
    Named,
    /// What answers this request.
    Of(u64),
}

/// Which request a message is or answers, and the lane of its responses.
#[derive(Clone, Copy, Debug, PartialEq, Eq, Drop)]
pub struct Label {
    /// The lane of its responses.
    pub lane: u64,
    /// The number of the request.
    pub request: u64,
}

/// Where the label of a message is read.
pub trait Labels {
    ghost label_of: { Self → ℕ → ℕ → Label };

    /// The label of the message in this place of a pool.
    fn label(&self, pool: usize, place: u64) -> Label
        ensures { result ≡ label_of self.now pool place };
}
