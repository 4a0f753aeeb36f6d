//! Numbers of events.
ghost use Rattle.std.specs.Prelude.{◌≡◌};

use std::marker::Model;

/// The number by which listeners tell events apart.
#[derive(Clone, Copy, Debug, PartialEq, Eq, PartialOrd, Ord, Hash)]
pub struct EventId {
    value: usize,
}

impl Model for EventId {
    ghost use Rattle.std.specs.Prelude.{ℕ};

    ghost Value = { ℕ };

    ghost view = { λ it. it.value };

    ghost inverse = { λ n. record { value = n } };
}

impl EventId {
    /// The event of that number.
    pub fn new(value: usize) -> EventId
        ensures { result ≡ value }
    {
        EventId { value }
    }

    /// The event's number.
    pub fn as_value(&self) -> usize
        ensures { result ≡ self.now }
    {
        self.value
    }
}
