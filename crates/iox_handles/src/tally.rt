//! How many handles of some kinds ports have, by remainders of the ports' numbers.
ghost use Rattle.std.specs.Prelude.{◌≡◌, ◌<◌, ◌+◌, ◌-◌, ◌^◌, ℕ, length, nat_lt, slice_index_or, slice_set};
ghost use Rattle.iox_handles.specs.Tables.{group_of};
ghost use Rattle.iox_handles.specs.Tallies.{is_counted_at, tally_place};

use crate::entry::Entry;
use iox_model::kind::Kind;

/// By so many remainders of ports' numbers handles are counted.
const REMAINDERS: usize = 64;

/// The groups of kinds that are counted, each by those remainders.
const PLACES: usize = 3 * REMAINDERS;

/// How many handles there are, by groups of kinds and by remainders of ports' numbers.
#[derive(Drop)]
pub struct Tally {
    /// Loaned requests, loaned responses and pending responses: 64 counts each, by the remainder
    /// of the port's number.
    pub counts: [usize; PLACES],
}

/// Loaned requests are counted together, loaned responses, pending responses, and the others.
#[inline]
fn group(kind: Kind) -> usize
    ensures { result ≡ group_of kind }
{
    match kind {
        Kind::RequestMutUninit => 0,
        Kind::RequestMut => 0,
        Kind::ResponseMutUninit => 1,
        Kind::ResponseMut => 1,
        Kind::PendingResponse => 2,
        Kind::Client => 3,
        Kind::Server => 3,
        Kind::ActiveRequest => 3,
        Kind::Response => 3,
    }
}

/// Whether handles of that kind are counted.
#[inline(always)]
pub fn is_tallied(kind: Kind) -> bool
    ensures { result ≡ nat_lt (group_of kind) 3 }
{
    group(kind) < 3
}

/// Where handles of that port and kind are counted, or would be.
#[inline]
fn place(port: u64, kind: Kind) -> usize
    ensures place { result ≡ tally_place port kind }
    ensures within { group_of kind < 3 → result < 192 }
{
    group(kind) * REMAINDERS + (port % REMAINDERS as u64) as usize
}

/// Whether a handle is counted where those of that port and kind are, or would be.
pub fn is_alike(entry: Entry, port: u64, kind: Kind) -> bool
    ensures { result ≡ is_counted_at (tally_place port kind) entry }
{
    place(entry.port, entry.kind) == place(port, kind)
}

impl Tally {
    /// No handle is counted.
    pub fn new() -> Tally
        ensures size { length result.counts ≡ 192 }
        ensures none { (i : ℕ) → slice_index_or result.counts i 0 ≡ 0 }
    {
        Tally {
            counts: [0; PLACES],
        }
    }

    /// Counts a handle of that port and kind, if handles of the kind are counted: else it has no
    /// place among the counts.
    #[inline]
    pub fn count(&mut self, port: u64, kind: Kind)
        requires { slice_index_or self.old.counts (tally_place port kind) 0 + 1 < 2 ^ 64 }
        ensures { self.new.counts ≡ slice_set self.old.counts (tally_place port kind)
            (slice_index_or self.old.counts (tally_place port kind) 0 + 1) }
    {
        if is_tallied(kind) {
            let at = place(port, kind);
            self.counts[at] += 1;
        }
    }

    /// Counts one less.
    #[inline(always)]
    pub fn discount(&mut self, port: u64, kind: Kind)
        requires { group_of kind < 3
            → 0 < slice_index_or self.old.counts (tally_place port kind) 0 }
        ensures { self.new.counts ≡ slice_set self.old.counts (tally_place port kind)
            (slice_index_or self.old.counts (tally_place port kind) 0 - 1) }
    {
        if is_tallied(kind) {
            let at = place(port, kind);
            self.counts[at] -= 1;
        }
    }

    /// How many handles are counted where those of that port and kind are.
    #[inline]
    pub fn at_most(&self, port: u64, kind: Kind) -> usize
        requires { group_of kind < 3 }
        ensures { result ≡ slice_index_or self.now.counts (tally_place port kind) 0 }
    {
        self.counts[place(port, kind)]
    }
}
