//! How a table is searched.
ghost use Rattle.std.specs.List.{list_any};
ghost use Rattle.std.specs.Prelude.{◌≡◌, ◌<◌, ◌-◌, ◌%◌, ◌^◌, IfSome, IsTrue, None, count_by, is_some, position, true};
ghost use Rattle.iox_handles.specs.Places.{handle_in, handles_there, has_at, has_number_at, in_places, is_there_of, passes};
ghost use Rattle.iox_handles.specs.Tables.{has_that, is_of};
ghost use Rattle.iox_handles.specs.Tallies.{is_counted_at, tally_place};
ghost use Rattle.iox_model.specs.Handles.{kind_code, same_kind};

use crate::entry::Entry;
use crate::entry_test::EntryTest;
use crate::tally::is_alike;
use crate::vacant::{NOBODY, handle_in};
use iox_model::kind::Kind;

/// By so many remainders of their numbers it is kept where handles are.
pub const REMAINDERS: usize = 256;

/// The remainder of a handle's number.
#[inline(always)]
pub fn remainder(number: u64) -> usize
    ensures { result ≡ number % 256 }
{
    (number % REMAINDERS as u64) as usize
}

/// Whether that number stands in the place.
#[inline(always)]
pub fn is_there(places: &[Entry], place: usize, number: u64) -> bool
    ensures { result ≡ has_number_at number places.now place }
{
    place < places.len() && places[place].number == number
}

/// Whether the handle of that number stands in the place.
#[inline(always)]
pub fn has_handle(places: &[Entry], place: usize, number: u64) -> bool
    ensures { IsTrue result → has_at number (handles_there places.now) place ≡ true }
{
    if number == NOBODY {
        return false;
    }
    is_there(places, place, number)
}

/// The place of the handle of that number. It is looked for at the hint first, then in the likely
/// place, then in each.
#[inline(always)]
pub fn place_of(
    places: &[Entry],
    number: u64,
    likely: &[usize; REMAINDERS],
    hint: usize,
) -> Option<usize>
    ensures found { IfSome result (λ place.
        has_at number (handles_there places.now) place ≡ true) }
    ensures missing { result ≡ None → in_places (handles_there places.now) number ≡ None }
{
    if number == NOBODY {
        return None;
    }
    if is_there(places, hint, number) {
        return Some(hint);
    }
    place_in(places, number, likely)
}

/// The place of the handle of that number, which is there. It is looked for at the hint first, then
/// in the likely place, then in each.
#[inline(always)]
pub fn known_place(places: &[Entry], number: u64, likely: &[usize; REMAINDERS], at: usize) -> usize
    requires low { number < 2 ^ 64 - 1 }
    requires there { is_some (in_places (handles_there places.now) number) ≡ true }
    ensures { has_at number (handles_there places.now) result ≡ true }
{
    if is_there(places, at, number) {
        return at;
    }
    match place_in(places, number, likely) {
        Some(place) => place,
        None => unreachable!(),
    }
}

/// The same, where it is not at the hint.
#[inline(never)]
#[cold]
fn place_in(places: &[Entry], number: u64, likely: &[usize; REMAINDERS]) -> Option<usize>
    requires { number < 2 ^ 64 - 1 }
    ensures found { IfSome result (λ place.
        has_at number (handles_there places.now) place ≡ true) }
    ensures missing { result ≡ None → in_places (handles_there places.now) number ≡ None }
{
    let guess = likely[remainder(number)];
    if is_there(places, guess, number) {
        return Some(guess);
    }
    first_of(places, number)
}

/// The first place in which that number stands.
fn first_of(places: &[Entry], number: u64) -> Option<usize>
    ensures { result ≡ position (has_that number) places.now }
{
    places.iter().position(|place| place.number == number)
}

/// Whether there is a handle of that port.
#[inline]
fn is_of_port(place: Entry, port: u64) -> bool
    ensures { result ≡ is_there_of port place }
{
    match handle_in(place) {
        Some(entry) => entry.port == port,
        None => false,
    }
}

/// The first place from that one on with a handle of that port.
fn next_of_port(places: &[Entry], port: u64, from: usize) -> Option<usize>
    ensures { IfSome result (λ _. list_any (is_there_of port) places.now ≡ true) }
{
    for place in from..places.len() {
        if is_of_port(places[place], port) {
            return Some(place);
        }
    }
    None
}

/// The first place with a handle of that port.
fn first_of_port(places: &[Entry], port: u64) -> Option<usize>
    ensures { result ≡ position (is_there_of port) places.now }
{
    places.iter().position(|place| is_of_port(*place, port))
}

/// A place with a handle of that port: the first from the hint on, or else the first of all.
pub fn place_of_port(places: &[Entry], port: u64, hint: usize) -> Option<usize>
    ensures { is_some result ≡ list_any (is_there_of port) places.now }
{
    if let Some(place) = next_of_port(places, port, hint) {
        return Some(place);
    }
    first_of_port(places, port)
}

/// Whether two kinds are one.
#[inline]
fn is_same_kind(kind: Kind, other: Kind) -> bool
    ensures { result ≡ same_kind kind other }
{
    code(kind) == code(other)
}

/// A number for each kind.
fn code(kind: Kind) -> u64
    ensures { result ≡ kind_code kind }
{
    match kind {
        Kind::Client => 0,
        Kind::Server => 1,
        Kind::RequestMutUninit => 2,
        Kind::RequestMut => 3,
        Kind::ResponseMutUninit => 4,
        Kind::ResponseMut => 5,
        Kind::PendingResponse => 6,
        Kind::ActiveRequest => 7,
        Kind::Response => 8,
    }
}

/// Whether there is a handle of that port and kind.
fn is_counted(place: Entry, port: u64, kind: Kind) -> bool
    ensures { result ≡ passes (is_of port kind) (handle_in place) }
{
    let Some(entry) = handle_in(place) else {
        return false;
    };
    entry.port == port && is_same_kind(entry.kind, kind)
}

/// Whether there is a handle, and it passes the test.
fn does_pass<T: EntryTest>(place: Entry, test: &T) -> bool
    ensures { result ≡ passes (T.passes test.now) (handle_in place) }
{
    let Some(entry) = handle_in(place) else {
        return false;
    };
    test.passes(entry)
}

/// How many places have handles that pass the test.
pub fn count_if_in<T: EntryTest>(places: &[Entry], test: &T) -> usize
    ensures { result ≡ count_by (λ h. passes (T.passes test.now) (handle_in h)) places.now }
{
    places
        .iter()
        .filter(|place| does_pass(**place, test))
        .count()
}

/// How many places have handles of that port and kind.
pub fn count_in(places: &[Entry], port: u64, kind: Kind) -> usize
    ensures { result ≡ count_by (λ h. passes (is_of port kind) (handle_in h)) places.now }
{
    places
        .iter()
        .filter(|place| is_counted(**place, port, kind))
        .count()
}

/// Whether there is a handle that is counted where those of that port and kind are.
fn is_counted_alike(place: Entry, port: u64, kind: Kind) -> bool
    ensures { result ≡ passes (is_counted_at (tally_place port kind)) (handle_in place) }
{
    let Some(entry) = handle_in(place) else {
        return false;
    };
    is_alike(entry, port, kind)
}

/// How many places have handles that are counted where those of that port and kind are.
pub fn count_alike_in(places: &[Entry], port: u64, kind: Kind) -> usize
    ensures { result
        ≡ count_by (λ h. passes (is_counted_at (tally_place port kind)) (handle_in h)) places.now }
{
    places
        .iter()
        .filter(|place| is_counted_alike(**place, port, kind))
        .count()
}
