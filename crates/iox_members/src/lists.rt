//! Searches in the list of nodes, and changes of it.
ghost use Rattle.std.specs.Prelude.{◌≡◌, ◌==◌, IfOk, filter, find, map, not};
ghost use Rattle.std.specs.Fn.{CalledAt};
ghost use Rattle.std.specs.List.{list_any};
ghost use Rattle.iox_attributes.specs.Visits.{VisitsInOrder};
ghost use Rattle.iox_model.specs.Joins.{same_id};
ghost use Rattle.iox_model.specs.Maps.{AreDistinct};
ghost use Rattle.iox_members.specs.Nodes.{killed};

use crate::ids::is_same_id;
use crate::member::Member;
use iox_types::identifiers::{UniqueNodeId, UniqueSystemId};
use iox_words::CallbackProgression;
use std::alloc::{AllocError, Global};

/// The numbers of these nodes.
pub(crate) fn numbers_of(nodes: &[Member], alloc: Global) -> Result<Vec<u64>, AllocError>
    ensures { IfOk result (λ numbers. numbers.items ≡ map (λ m. m.number) nodes.now) }
{
    nodes.iter().map(|member| member.number).collect(alloc)
}

/// Calls `callback` with the id of each of these nodes, as far as it says `Continue`.
pub(crate) fn list_ids<F: FnMut(&UniqueNodeId) -> CallbackProgression>(
    nodes: &[Member],
    mut callback: F,
)
    requires { F.IsAlwaysCallable callback }
    ensures { VisitsInOrder (CalledAt F.FnMut) callback (map (λ m. m.id) nodes.now) }
{
    let mut rest = nodes;
    while let Some((first, later)) = rest.split_first() {
        rest = later;
        if callback(&first.id) == CallbackProgression::Stop {
            return;
        }
    }
}

/// The node of that number. Each stands in the place of its number while no node before it left,
/// so it is looked for there first.
pub(crate) fn find(nodes: &[Member], node: u64) -> Option<Member>
    requires { AreDistinct (map (λ m. m.number) nodes.now) }
    ensures { result ≡ find (λ m. m.number == node) nodes.now }
{
    let place = node as usize;
    if place < nodes.len() && nodes[place].number == node {
        return Some(nodes[place]);
    }
    find_among(nodes, node)
}

/// The node of that number, wherever it stands.
#[cold]
#[inline(never)]
fn find_among(nodes: &[Member], node: u64) -> Option<Member>
    ensures { result ≡ find (λ m. m.number == node) nodes.now }
{
    nodes.iter().copied().find(|member| member.number == node)
}

/// Whether a node has that id.
pub(crate) fn has_id(nodes: &[Member], id: UniqueSystemId) -> bool
    ensures { result ≡ list_any (λ m. same_id m.id id) nodes.now }
{
    nodes
        .iter()
        .any(|member| is_same_id(member.id.system_id(), id))
}

/// Makes the node of that number dead.
pub(crate) fn kill(nodes: &mut [Member], node: u64)
    ensures { nodes.new ≡ map (killed node) nodes.old }
{
    for member in nodes.iter_mut() {
        *member = killed(*member, node);
    }
}

/// The node, dead if it has this number.
fn killed(member: Member, node: u64) -> Member
    ensures { result ≡ killed node member }
{
    if member.number == node {
        return Member {
            alive: false,
            ..member
        };
    }
    member
}

/// Removes the node of that number.
pub(crate) fn remove(nodes: &mut Vec<Member>, node: u64)
    ensures { nodes.new.items ≡ filter (λ m. not (m.number == node)) nodes.old.items }
{
    nodes.retain(|member| member.number != node);
}
