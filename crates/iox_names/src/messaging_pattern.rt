//! How a service exchanges messages.
ghost use Rattle.std.specs.Prelude.{Some};

use std::fmt;

/// How a service exchanges messages.
#[derive(Clone, Copy, Debug, PartialEq, Eq, PartialOrd, Ord, Hash)]
pub enum MessagingPattern {
    /// Clients send requests, to which servers respond.
    RequestResponse,
    /// Publishers send samples to all subscribers.
    PublishSubscribe,
    /// Notifiers wake listeners.
    Event,
    /// One writer keeps values that readers look at.
    Blackboard,
}

impl fmt::Display for MessagingPattern {
    ghost use Rattle.iox_names.specs.PatternTexts.{pattern_text};

    ghost output = { λ it. Some (pattern_text it) };

    fn fmt<W: fmt::Write>(&self, f: &mut fmt::Formatter<W>) -> fmt::Result {
        f.pad(match self {
            MessagingPattern::RequestResponse => "RequestResponse",
            MessagingPattern::PublishSubscribe => "PublishSubscribe",
            MessagingPattern::Event => "Event",
            MessagingPattern::Blackboard => "Blackboard",
        })
    }
}
