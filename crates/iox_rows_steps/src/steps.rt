//! Where queues stand, as calls answer it.
use crate::expected::holds;
use iox_steps::{QueueKind, Site};
use std::rt::HostRuntime;

#[test]
fn a_site_is_within_as_many_words_as_it_has(rt: HostRuntime) {
    let index = Site {
        kind: QueueKind::Index,
        base: 3,
        capacity: 4,
    };
    holds(
        &rt,
        !index.is_within(8) && index.is_within(9) && index.is_within(10),
    );
    let overflowing = Site {
        kind: QueueKind::Overflowing,
        base: 3,
        capacity: 4,
    };
    holds(&rt, !overflowing.is_within(9) && overflowing.is_within(10));
    let vast = Site {
        kind: QueueKind::Overflowing,
        base: usize::MAX,
        capacity: usize::MAX,
    };
    holds(&rt, !vast.is_within(0) && !vast.is_within(usize::MAX));
}
