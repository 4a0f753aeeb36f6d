//! How many elements the payload of a call has.
ghost use Rattle.std.specs.Prelude.{ℕ, ◌≡◌, ◌*◌, ◌/◌, Some, length};
ghost use Rattle.iox_wire_begins.specs.Plans.{details_of};
ghost use Rattle.iox_wire_nodes.specs.Calls.{planned_elements};

use iox_model::kind::Role;
use iox_wire_begins::{WireTerms, WordMap, elements_of};

/// How many elements these words are of messages that a role sends.
pub(super) fn elements_in(
    map: &WordMap,
    terms: &WireTerms,
    role: Role,
    words: &[u64],
) -> Option<u64>
    ensures elements { result ≡ planned_elements map.now terms.now role words.now }
    ensures whole { (k : ℕ) → result ≡ Some k
        → length words.now ≡ k * ((details_of map.now role).payload.size / 8) }
{
    let many = terms.messages(role).many;
    let details = map.plan().details(role);
    elements_of(many, details.payload.size() / 8, words.len())
}
