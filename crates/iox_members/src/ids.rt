//! Ids of nodes.
ghost use Rattle.std.specs.Prelude.{◌≡◌};
ghost use Rattle.iox_model.specs.Joins.{same_id};

use iox_types::identifiers::UniqueSystemId;

/// Whether two ids agree in all four numbers.
pub(crate) fn is_same_id(a: UniqueSystemId, b: UniqueSystemId) -> bool
    ensures { result ≡ same_id a b }
{
    a.process == b.process
        && a.seconds == b.seconds
        && (a.nanoseconds == b.nanoseconds && a.counter == b.counter)
}
