//! Why no wire is made.
ghost use Rattle.std.specs.Prelude.{◌≡◌, Some};
ghost use Rattle.iox_wire.specs.declared.new_error.WireNewError.TheVariants.{WantOfMemory};

use std::alloc::AllocError;
use std::error::Error;
use std::fmt;

/// Why no wire is made. The first that applies is told.
#[derive(Clone, Copy, Debug, PartialEq, Eq)]
pub enum WireNewError {
    /// The wire has 2^63 words or more: lower the limits of its service, or have fewer ports.
    TooManyWords,
    /// The first handle of each node would have the number 2^63 or a later one: open the wire
    /// before its service gave as many numbers.
    NumbersSpent,
    /// A node is listed twice: one of the two could never be named.
    DuplicateNode,
    /// A port of the plan is of a node that is not listed.
    UnknownNode,
    /// A port of the plan has the number of the first handle, or a later one.
    NumberTaken,
    /// The header of a request or of a response has another size than the wire's own: 7 words for
    /// a request, and 6 for a response.
    WrongHeader,
    /// A part of a message is aligned to less than a word, 8 bytes.
    UnsuitableAlignment,
    /// A limit is 0, of the plan, of the terms, or of the terms of a port: no service has such a
    /// limit, since it raises each to 1.
    LimitOfZero,
    /// A port comes behind one of its own number, or of a later one. A service lists its ports in
    /// the order of their numbers.
    PortsOutOfOrder,
    /// The plan has more clients than the terms allow.
    TooManyClients,
    /// A port has a pool of more than 2^24 - 2 messages: no service makes such a port.
    PoolTooLarge,
    /// A message of a port has another length than 1, though messages of its role have one
    /// element.
    UnsuitableLength,
    /// There is no memory for the wire.
    WantOfMemory,
}

impl fmt::Display for WireNewError {
    ghost use Rattle.iox_wire.specs.NewRefusals.{new_error_text};

    ghost output = { λ it. Some (new_error_text it) };

    fn fmt<W: fmt::Write>(&self, f: &mut fmt::Formatter<W>) -> fmt::Result {
        f.write_str(match self {
            WireNewError::TooManyWords => "WireNewError::TooManyWords",
            WireNewError::NumbersSpent => "WireNewError::NumbersSpent",
            WireNewError::DuplicateNode => "WireNewError::DuplicateNode",
            WireNewError::UnknownNode => "WireNewError::UnknownNode",
            WireNewError::NumberTaken => "WireNewError::NumberTaken",
            WireNewError::WrongHeader => "WireNewError::WrongHeader",
            WireNewError::UnsuitableAlignment => "WireNewError::UnsuitableAlignment",
            WireNewError::LimitOfZero => "WireNewError::LimitOfZero",
            WireNewError::PortsOutOfOrder => "WireNewError::PortsOutOfOrder",
            WireNewError::TooManyClients => "WireNewError::TooManyClients",
            WireNewError::PoolTooLarge => "WireNewError::PoolTooLarge",
            WireNewError::UnsuitableLength => "WireNewError::UnsuitableLength",
            WireNewError::WantOfMemory => "WireNewError::WantOfMemory",
        })
    }
}

impl Error for WireNewError {}

impl From<AllocError> for WireNewError {
    ghost from_gives = { λ _ error. error ≡ WantOfMemory };

    fn from(_error: AllocError) -> WireNewError {
        WireNewError::WantOfMemory
    }
}
