//! The first line of some bytes.
ghost use Rattle.std.specs.Prelude.{MatchOption};
ghost use Rattle.iox_run.specs.Cuts.{HasNoLineFeed, IsCut};

use memchr::memchr;

/// The bytes before the first line feed and those behind it, if there is one.
pub(super) fn first_line(bytes: &[u8]) -> Option<(&[u8], &[u8])>
    ensures { MatchOption result (HasNoLineFeed bytes.now)
        (λ parts. IsCut bytes.now parts.0.now parts.1.now) }
{
    let at = memchr(b'\n', bytes)?;
    Some((&bytes[..at], &bytes[at + 1..]))
}
