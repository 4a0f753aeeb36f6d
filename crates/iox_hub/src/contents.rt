//! What is lent and written in the pools of a hub.
ghost use Rattle.std.specs.Prelude.{◌≡◌, ◌<◌, ◌≤◌, ◌∷◌, [], Bool, IsSome, false, flat_map, length, true};
ghost use Rattle.iox_store.specs.Stored.{filled_with, lent_uninit, room_with, stored_at, with_stored};
ghost use Rattle.iox_hub.specs.Fits.{are_requests_in, count_in, longest_in};
ghost use Rattle.iox_hub.specs.Lending.{first_stored, with_message};
ghost use Rattle.iox_hub.specs.Shapes.{shape_of};
ghost use Rattle.iox_hub.specs.Words.{stored_in};

use crate::all_words::AllWords;
use crate::known_shape::KnownShape;
use iox_store::{Spare, Store};
use iox_words::Words;

/// Lends the message in that slot for so many elements, none of which is filled. Where it has no
/// room for them, it takes the room that is given.
#[inline(always)]
fn lend_unfilled<E: Words, H: Words>(
    store: &mut Store<E, H>,
    slot: usize,
    elements: usize,
    user: H,
    spare: Option<Spare<E>>,
)
    requires there { slot < length store.old.messages }
    requires room { elements ≤ room_with store.old.longest spare }
    ensures { store.new ≡ with_stored store.old slot
        (lent_uninit (stored_at store.old slot) elements (H.words user)) }
{
    if spare.is_none() {
        store.lend_own(slot, elements, user);
        return;
    }
    let _room = store.room(slot);
    store.lend_uninit(slot, elements, user, spare);
}

/// Lends the message in that slot for so many elements: unfilled, or each filled with its default.
/// Where it has no room for them, it takes the room that is given.
#[inline(always)]
fn lend_in<E: Words, H: Words>(
    store: &mut Store<E, H>,
    slot: usize,
    elements: usize,
    uninit: bool,
    shape: &KnownShape<E, H>,
    spare: Option<Spare<E>>,
)
    requires there { slot < length store.old.messages }
    requires room { elements ≤ room_with store.old.longest spare }
    requires default { uninit ≡ false → IsSome shape.now.default }
    ensures { (many : Bool) → store.new ≡ with_stored store.old slot
        (first_stored (shape_of many E.WORDS E.words H.words shape.now) uninit elements
        (stored_at store.old slot)) }
{
    if uninit {
        lend_unfilled(store, slot, elements, shape.user_header(), spare);
        return;
    }
    let _room = store.room(slot);
    let Some(value) = shape.default() else {
        unreachable!();
    };
    store.lend(slot, elements, shape.user_header(), value, spare);
}

/// Lends the request in that slot of the pool in this place. Where it has no room for so many
/// elements, it takes the room that is given.
#[inline(always)]
pub(crate) fn lend_request_in<QE: Words, QH: Words, PE: Words, PH: Words>(
    words: &mut AllWords<QE, QH, PE, PH>,
    pool: usize,
    slot: usize,
    elements: usize,
    uninit: bool,
    shape: &KnownShape<QE, QH>,
    spare: Option<Spare<QE>>,
)
    requires requests { are_requests_in words.old.pools pool ≡ true }
    requires there { slot < count_in words.old.pools pool }
    requires room { elements ≤ room_with (longest_in words.old.pools pool) spare }
    requires default { uninit ≡ false → IsSome shape.now.default }
    ensures { (many : Bool) → words.new.pools ≡ with_message words.old.pools pool slot
        (first_stored (shape_of many QE.WORDS QE.words QH.words shape.now) uninit elements
        (stored_in words.old.pools pool slot)) }
{
    let requests = &mut words.requests[pool];
    lend_in(requests, slot, elements, uninit, shape, spare);
}

/// Lends the response in that slot of the pool in this place. Where it has no room for so many
/// elements, it takes the room that is given.
#[inline(always)]
pub(crate) fn lend_response_in<QE: Words, QH: Words, PE: Words, PH: Words>(
    words: &mut AllWords<QE, QH, PE, PH>,
    pool: usize,
    slot: usize,
    elements: usize,
    uninit: bool,
    shape: &KnownShape<PE, PH>,
    spare: Option<Spare<PE>>,
)
    requires responses { are_requests_in words.old.pools pool ≡ false }
    requires there { slot < count_in words.old.pools pool }
    requires room { elements ≤ room_with (longest_in words.old.pools pool) spare }
    requires default { uninit ≡ false → IsSome shape.now.default }
    ensures { (many : Bool) → words.new.pools ≡ with_message words.old.pools pool slot
        (first_stored (shape_of many PE.WORDS PE.words PH.words shape.now) uninit elements
        (stored_in words.old.pools pool slot)) }
{
    let responses = &mut words.responses[pool];
    lend_in(responses, slot, elements, uninit, shape, spare);
}

/// Fills the request in that slot with copies of these elements.
pub(crate) fn write_request_in<QE: Words, QH: Words, PE: Words, PH: Words>(
    words: &mut AllWords<QE, QH, PE, PH>,
    pool: usize,
    slot: usize,
    values: &[QE],
)
    requires requests { are_requests_in words.old.pools pool ≡ true }
    requires there { slot < count_in words.old.pools pool }
    requires equal { length values.now ≡ (stored_in words.old.pools pool slot).elements }
    ensures { words.new.pools ≡ with_message words.old.pools pool slot
        (filled_with (stored_in words.old.pools pool slot) (flat_map QE.words values.now)) }
{
    let requests = &mut words.requests[pool];
    requests.write_from_slice(slot, values);
}

/// Fills the response in that slot with copies of these elements.
pub(crate) fn write_response_in<QE: Words, QH: Words, PE: Words, PH: Words>(
    words: &mut AllWords<QE, QH, PE, PH>,
    pool: usize,
    slot: usize,
    values: &[PE],
)
    requires responses { are_requests_in words.old.pools pool ≡ false }
    requires there { slot < count_in words.old.pools pool }
    requires equal { length values.now ≡ (stored_in words.old.pools pool slot).elements }
    ensures { words.new.pools ≡ with_message words.old.pools pool slot
        (filled_with (stored_in words.old.pools pool slot) (flat_map PE.words values.now)) }
{
    let responses = &mut words.responses[pool];
    responses.write_from_slice(slot, values);
}

/// Fills the request in that slot, which has one element, with that element.
#[inline(always)]
pub(crate) fn write_one_request_in<QE: Words, QH: Words, PE: Words, PH: Words>(
    words: &mut AllWords<QE, QH, PE, PH>,
    pool: usize,
    slot: usize,
    value: QE,
)
    requires requests { are_requests_in words.old.pools pool ≡ true }
    requires there { slot < count_in words.old.pools pool }
    requires one { (stored_in words.old.pools pool slot).elements ≡ 1 }
    ensures { words.new.pools ≡ with_message words.old.pools pool slot
        (filled_with (stored_in words.old.pools pool slot) (flat_map QE.words (value ∷ []))) }
{
    let requests = &mut words.requests[pool];
    requests.write_payload(slot, value);
}

/// Fills the response in that slot, which has one element, with that element.
#[inline(always)]
pub(crate) fn write_one_response_in<QE: Words, QH: Words, PE: Words, PH: Words>(
    words: &mut AllWords<QE, QH, PE, PH>,
    pool: usize,
    slot: usize,
    value: PE,
)
    requires responses { are_requests_in words.old.pools pool ≡ false }
    requires there { slot < count_in words.old.pools pool }
    requires one { (stored_in words.old.pools pool slot).elements ≡ 1 }
    ensures { words.new.pools ≡ with_message words.old.pools pool slot
        (filled_with (stored_in words.old.pools pool slot) (flat_map PE.words (value ∷ []))) }
{
    let responses = &mut words.responses[pool];
    responses.write_payload(slot, value);
}
