//! The numbers of a node's handles, and where those are.
ghost use Rattle.std.specs.List.{Contains};
ghost use Rattle.std.specs.Prelude.{◌≡◌, ◌≤◌, ◌<◌, ◌==◌, ◌&&◌, [], ℕ, IfSome, None, false, length, slice_index_or, true, vec_capacity};
ghost use Rattle.iox_handles.specs.NodeLists.{AreListed, has_listed};
ghost use Rattle.iox_handles.specs.Places.{handles_there, number_for};

use crate::entry::Entry;
use crate::least::number_for;
use crate::vacant::handle_in;

/// A number, and where its handle is looked for first.
#[derive(Clone, Copy, Debug, PartialEq, Eq)]
pub struct Numbered {
    /// The number of the handle.
    pub number: u64,
    /// Where it is looked for first among the places of handles.
    pub place: usize,
}

/// Lists the node's handles, place by place. There is memory for as many as there are places.
pub fn list_in(places: &[Entry], node: u64, list: &mut Vec<Numbered>)
    requires empty { list.old.items ≡ [] }
    requires room { length places.now ≤ vec_capacity list.old }
    ensures listed { AreListed node (handles_there places.now) list.new.items }
    ensures room { vec_capacity list.new ≡ vec_capacity list.old }
{
    for place in 0..places.len() {
        if let Some(number) = number_for(handle_in(places[place]), node) {
            list.push_reserved(Numbered { number, place });
        }
    }
}

/// Whether the node's handle that is listed so is there.
#[inline]
fn is_listed_there(places: &[Entry], node: u64, listed: Numbered) -> bool
    ensures { result ≡ has_listed node (handles_there places.now) listed }
{
    if listed.place >= places.len() {
        return false;
    }
    match handle_in(places[listed.place]) {
        Some(entry) => entry.node == node && entry.number == listed.number,
        None => false,
    }
}

/// From there on, where the first of those listed is whose handle is there.
pub fn first_there(places: &[Entry], node: u64, list: &[Numbered], from: usize) -> Option<usize>
    ensures within { IfSome result (λ at. at < length list.now) }
    ensures there { IfSome result (λ at. (v : Numbered)
        → v ≡ slice_index_or list.now at v → has_listed node (handles_there places.now) v ≡ true) }
    ensures gone { IfSome result (λ at. (i : ℕ) (v : Numbered) → from ≤ i → i < at
        → v ≡ slice_index_or list.now i v
        → has_listed node (handles_there places.now) v ≡ false) }
    ensures none { result ≡ None → (i : ℕ) (v : Numbered) → from ≤ i → i < length list.now
        → v ≡ slice_index_or list.now i v
        → has_listed node (handles_there places.now) v ≡ false }
{
    for at in from..list.len() {
        if is_listed_there(places, node, list[at]) {
            return Some(at);
        }
    }
    None
}
