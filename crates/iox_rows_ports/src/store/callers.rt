//! Callers of a store, proved only from its clauses.
ghost use Rattle.std.specs.Prelude.{◌≡◌, ◌≢◌, ◌<◌, ◌≤◌, IfOk, false, flat_map, length, true};
ghost use Rattle.iox_store.specs.Stored.{stored_at};

use iox_store::{Many, One, Store, is_length};
use iox_words::Words;
use std::alloc::{AllocError, Global};

/// What is written is read.
pub fn written_and_read(store: &mut Store<u64, u32>, user: u32, value: u64) -> u64
    requires there { 0 < length store.old.messages }
    requires room { 1 ≤ (stored_at store.old 0).room }
    ensures { result ≡ value }
{
    store.lend_uninit(0, 1, user, None);
    store.write_next(0, value);
    store.element(0, 0)
}

/// What is copied from a slice is read as its words.
pub fn copied_and_read<'a, E: Words, H: Words>(
    store: &'a mut Store<E, H>,
    place: usize,
    user: H,
    values: &[E],
) -> &'a [E]
    requires there { place < length store.old.messages }
    requires room { length values.now ≤ (stored_at store.old place).room }
    ensures { flat_map E.words result.now ≡ flat_map E.words values.now }
{
    store.lend_uninit(place, values.len(), user, None);
    store.write_from_slice(place, values);
    store.payload(place)
}

/// What was written stays where another message is lent and filled.
pub fn kept_beside_another(store: &mut Store<u64, u32>, user: u32, value: u64)
    requires there { 1 < length store.old.messages }
    requires room { 1 ≤ (stored_at store.old 1).room }
    ensures { stored_at store.new 0 ≡ stored_at store.old 0 }
{
    store.lend(1, 1, user, 7, None);
    store.write_payload(1, value);
}

/// A message that a closure filled is filled.
pub fn filled_by_a_closure(store: &mut Store<u64, u32>, place: usize) -> bool
    requires { place < length store.old.messages }
    ensures { result ≡ true }
{
    store.write_from_fn(place, |index| index as u64);
    store.is_filled(place)
}

/// A message is lent for any length for which there is memory.
pub fn lent_longer(
    store: &mut Store<u64, u32>,
    place: usize,
    elements: usize,
    user: u32,
) -> Result<(), AllocError>
    requires { place < length store.old.messages }
    ensures { IfOk result (λ _. (stored_at store.new place).elements ≡ elements) }
{
    let spare = store.spare(elements)?;
    store.lend_uninit(place, elements, user, Some(spare));
    Ok(())
}

/// In a new store every message may be lent for the greatest length, with no test.
pub fn lent_from_the_start(alloc: Global, user: u32) -> Result<Store<u64, u32>, AllocError> {
    let mut store = Store::new(alloc, 3, 5, user)?;
    store.lend_uninit(2, 5, user, None);
    store.write_next(2, 1);
    Ok(store)
}

/// One element is not two.
pub fn one_is_not_two() -> bool
    ensures { result ≡ false }
{
    is_length::<One<u64>>(2)
}

/// Many may be none.
pub fn many_may_be_none() -> bool
    ensures { result ≡ true }
{
    is_length::<Many<u64>>(0)
}
