//! A store. A test is a list of what is done to its messages and of what has to come of it, which
//! one function plays: what is known of each call would else stand in the proof of all that come
//! after.
ghost use Rattle.std.specs.Prelude.{◌<◌, length};

use crate::expected::{equal, holds, is_so};
use iox_store::Store;
use iox_words::Words;
use std::alloc::Global;
use std::fmt::Debug;
use std::process::Abort;

/// An element that an index tells.
trait Indexed: Words {
    fn at(index: usize) -> Self;
}

impl Indexed for u64 {
    fn at(index: usize) -> u64 {
        index as u64
    }
}

/// The index and 2^64.
impl Indexed for u128 {
    fn at(index: usize) -> u128 {
        (index as u128) + (1 << 64)
    }
}

impl Indexed for () {
    fn at(_index: usize) {}
}

/// What is done to a message or asked of it, and what has to come of it.
enum Deed<'a, E, H> {
    /// It is lent for so many elements.
    LendsUninit(usize, H),
    Lends(usize, H, E),
    /// It is lent for more elements than it has room for.
    Grows(usize, H, E),
    /// There is no memory for so many elements.
    LacksRoom(usize),
    WritesNext(E),
    WritesPayload(E),
    WritesSlice(&'a [E]),
    /// Each element is what its index tells.
    WritesIndices,
    SetsElement(usize, E),
    SetsHeader(H),
    Element(usize, E),
    /// How many elements it has, and how many of them are filled.
    Lengths((usize, usize)),
    Room(usize),
    /// Its elements, and whether all are filled.
    Has(&'a [E], bool),
    Header(H),
    /// How many messages the store has, and how many elements each may have.
    Counts((usize, usize)),
}

/// The place of a message, and what is done.
type Row<'a, E, H> = (usize, Deed<'a, E, H>);

/// Lends or fills the message.
fn writes<E: Indexed + PartialEq + Debug, H: Words + PartialEq + Debug>(
    rt: &impl Abort,
    store: &mut Store<E, H>,
    place: usize,
    deed: &Deed<'_, E, H>,
) {
    is_so(rt, place < store.len());
    match deed {
        Deed::LendsUninit(elements, user) => {
            is_so(rt, *elements <= store.room(place));
            store.lend_uninit(place, *elements, *user, None);
        }
        Deed::Lends(elements, user, value) => {
            is_so(rt, *elements <= store.room(place));
            store.lend(place, *elements, *user, *value, None);
        }
        Deed::Grows(elements, user, value) => {
            let spare = store.spare(*elements).expect(rt, "room");
            store.lend(place, *elements, *user, *value, Some(spare));
        }
        Deed::WritesNext(value) => {
            is_so(rt, store.filled(place) < store.elements(place));
            store.write_next(place, *value);
        }
        Deed::WritesPayload(value) => {
            is_so(rt, store.elements(place) == 1);
            store.write_payload(place, *value);
        }
        Deed::WritesSlice(values) => {
            is_so(rt, values.len() == store.elements(place));
            store.write_from_slice(place, *values);
        }
        _ => sets(rt, store, place, deed),
    }
}

/// Changes the message, or ends the test if it is other than it has to be.
fn sets<E: Indexed + PartialEq + Debug, H: Words + PartialEq + Debug>(
    rt: &impl Abort,
    store: &mut Store<E, H>,
    place: usize,
    deed: &Deed<'_, E, H>,
)
    requires { place < length store.old.messages }
{
    match deed {
        Deed::WritesIndices => store.write_from_fn(place, |index| E::at(index)),
        Deed::SetsElement(index, value) => {
            is_so(rt, *index < store.filled(place));
            store.set_element(place, *index, *value);
        }
        Deed::SetsHeader(user) => store.set_user_header(place, *user),
        Deed::LacksRoom(elements) => holds(rt, store.spare(*elements).is_err()),
        Deed::Element(index, wanted) => {
            is_so(rt, *index < store.filled(place));
            equal(rt, store.element(place, *index), *wanted);
        }
        Deed::Lengths(wanted) => {
            equal(rt, (store.elements(place), store.filled(place)), *wanted);
        }
        Deed::Has(elements, is_filled) => {
            equal(rt, store.payload(place), *elements);
            equal(rt, store.is_filled(place), *is_filled);
        }
        Deed::Room(wanted) => equal(rt, store.room(place), *wanted),
        Deed::Header(wanted) => equal(rt, *store.user_header(place), *wanted),
        Deed::Counts(wanted) => equal(rt, (store.len(), store.longest()), *wanted),
        _ => holds(rt, false),
    }
}

/// Does all of it.
fn goes<E: Indexed + PartialEq + Debug, H: Words + PartialEq + Debug>(
    rt: &impl Abort,
    store: &mut Store<E, H>,
    list: &[Row<'_, E, H>],
) {
    for (place, deed) in list {
        writes(rt, store, *place, deed);
    }
}

/// Does all of it to a new store of so many messages of so many elements, with these user headers.
fn plays<E: Indexed + PartialEq + Debug, H: Words + PartialEq + Debug>(
    rt: &impl Abort,
    alloc: Global,
    (count, longest): (usize, usize),
    user: H,
    list: &[Row<'_, E, H>],
) {
    let mut store = Store::<E, H>::new(alloc, count, longest, user).expect(rt, "a store");
    goes(rt, &mut store, list);
}

#[test]
fn each_message_has_what_was_written_into_it(rt: HostRuntime) {
    const LIST: &[Row<'static, u64, u32>] = &[
        (0, Deed::Counts((2, 3))),
        (1, Deed::Room(3)),
        (0, Deed::Header(9)),
        (1, Deed::Header(9)),
        (0, Deed::LendsUninit(3, 1)),
        (1, Deed::Lends(2, 4, 8)),
        (0, Deed::WritesNext(5)),
        (0, Deed::Has(&[5], false)),
        (1, Deed::Has(&[8, 8], true)),
        (1, Deed::SetsElement(1, 6)),
        (1, Deed::Element(0, 8)),
        (1, Deed::Element(1, 6)),
        (0, Deed::Counts((2, 3))),
        (1, Deed::SetsHeader(2)),
        (0, Deed::Counts((2, 3))),
        (0, Deed::Header(1)),
        (1, Deed::Header(2)),
        (0, Deed::Lengths((3, 1))),
    ];
    plays(&rt, rt.alloc(), (2, 3), 9, LIST);
}

#[test]
fn what_is_filled_at_once_replaces_what_was_filled(rt: HostRuntime) {
    const LIST: &[Row<'static, u128, ()>] = &[
        (0, Deed::LendsUninit(2, ())),
        (0, Deed::WritesNext(1 << 100)),
        (0, Deed::WritesIndices),
        (0, Deed::Has(&[1 << 64, (1 << 64) + 1], true)),
        (0, Deed::WritesSlice(&[3, 4])),
        (0, Deed::Has(&[3, 4], true)),
        (0, Deed::Lends(1, (), 7)),
        (0, Deed::WritesPayload(5)),
        (0, Deed::Has(&[5], true)),
        (0, Deed::LendsUninit(0, ())),
        (0, Deed::Has(&[], true)),
    ];
    plays(&rt, rt.alloc(), (1, 2), (), LIST);
}

#[test]
fn elements_without_words_are_counted(rt: HostRuntime) {
    const LIST: &[Row<'static, (), ()>] = &[
        (0, Deed::LendsUninit(4, ())),
        (0, Deed::WritesNext(())),
        (0, Deed::WritesNext(())),
        (0, Deed::Lengths((4, 2))),
        (0, Deed::Has(&[(), ()], false)),
        (0, Deed::WritesIndices),
        (0, Deed::Has(&[(), (), (), ()], true)),
    ];
    plays(&rt, rt.alloc(), (1, 4), (), LIST);
}

#[test]
fn a_message_grows_where_there_is_memory(rt: HostRuntime) {
    const LIST: &[Row<'static, u64, ()>] = &[
        (1, Deed::Lends(1, (), 7)),
        (0, Deed::Grows(3, (), 5)),
        (0, Deed::Has(&[5, 5, 5], true)),
        (0, Deed::LacksRoom(usize::MAX)),
        (0, Deed::Has(&[5, 5, 5], true)),
        (0, Deed::Grows(2, (), 8)),
        (0, Deed::Has(&[8, 8], true)),
        (1, Deed::Grows(2, (), 9)),
        (1, Deed::Has(&[9, 9], true)),
        (0, Deed::Room(1)),
    ];
    plays(&rt, rt.alloc(), (2, 1), (), LIST);
}

/// Ends the test unless there is no memory for such a store.
fn lacks_memory(rt: &impl Abort, alloc: Global, count: usize, longest: usize) {
    holds(
        rt,
        Store::<u64, ()>::new(alloc, count, longest, ()).is_err(),
    );
}

#[test]
fn a_store_past_the_memory_is_refused(rt: HostRuntime) {
    lacks_memory(&rt, rt.alloc(), 1, usize::MAX);
    lacks_memory(&rt, rt.alloc(), usize::MAX, 1);
}
