//! What a slot of a register has.
ghost use Rattle.std.specs.Prelude.{◌≡◌, ◌≢◌, ◌-◌, ◌^◌, IfNone, IfSome, length};
ghost use Rattle.iox_registry.specs.Registers.{details_in};
ghost use Rattle.iox_registry.specs.Standing.{HasNoOwner, HasOwner, IsOwnerFor, kept_without, kept_without_node, shown_slots};

use crate::has_node::HasNode;
use iox_sets::mpmc::robust_unique_index_set::OwnerId;
use iox_types::identifiers::UniqueNodeId;

/// Details with the ticket under which they came, and the number of their node in the container.
#[derive(Clone, Copy, Debug)]
pub(crate) struct Registered<D> {
    pub(crate) details: D,
    pub(crate) owner: OwnerId,
    pub(crate) ticket: u64,
}

/// The owner's number of a node that has something in these slots, of which so many have something.
/// It looks no further than the last of these.
pub(crate) fn owner_of<D: HasNode>(
    slots: &[Option<Registered<D>>],
    entries: usize,
    id: UniqueNodeId,
) -> Option<OwnerId>
    requires { entries ≡ length (details_in (shown_slots slots.now)) }
    ensures found { IfSome result (λ owner. HasOwner D.node slots.now id owner) }
    ensures none { IfNone result (HasNoOwner D.node slots.now id) }
{
    let mut rest = slots;
    let mut left = entries;
    while let Some((first, later)) = rest.split_first() {
        if left == 0 {
            return None;
        }
        rest = later;
        let Some(kept) = first else {
            continue;
        };
        if kept.details.node_id() == id {
            return Some(kept.owner);
        }
        left -= 1;
    }
    None
}

/// Empties the slots that have something of a node.
pub(crate) fn forget<D: HasNode>(slots: &mut [Option<Registered<D>>], id: UniqueNodeId)
    ensures { slots.new ≡ kept_without D.node id slots.old }
{
    for slot in slots.iter_mut() {
        *slot = without_node(*slot, id);
    }
}

/// What a slot has without what is of a node.
fn without_node<D: HasNode>(slot: Option<Registered<D>>, id: UniqueNodeId) -> Option<Registered<D>>
    ensures { result ≡ kept_without_node D.node id slot }
{
    match slot {
        Some(kept) if kept.details.node_id() == id => None,
        _ => slot,
    }
}

/// The owner's number of a node: that of what it has in these slots, of which so many have
/// something, else the one that none has yet.
pub(crate) fn owner_for<D: HasNode>(
    slots: &[Option<Registered<D>>],
    entries: usize,
    id: UniqueNodeId,
    fresh: u64,
) -> OwnerId
    requires entries { entries ≡ length (details_in (shown_slots slots.now)) }
    requires fresh { fresh ≢ 2 ^ 64 - 1 }
    ensures { IsOwnerFor D.node slots.now id fresh result }
{
    match owner_of(slots, entries, id) {
        Some(owner) => owner,
        None => OwnerId::new(fresh).unwrap(),
    }
}
