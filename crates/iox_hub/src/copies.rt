//! What is copied into the pools of a hub.
ghost use Rattle.std.specs.Prelude.{◌≡◌, ◌<◌, ◌≤◌, false, flat_map, length, true};
ghost use Rattle.iox_store.specs.Stored.{room_with, stored_at, with_stored};
ghost use Rattle.iox_hub.specs.Copying.{copied_stored};
ghost use Rattle.iox_hub.specs.Fits.{are_requests_in, count_in, longest_in};
ghost use Rattle.iox_hub.specs.Lending.{with_message};
ghost use Rattle.iox_hub.specs.Words.{stored_in};

use crate::all_words::AllWords;
use crate::known_shape::KnownShape;
use iox_control_request_copies::Place;
use iox_store::{Spare, Store};
use iox_words::Words;

/// Lends the message in that slot for these elements, and fills it with copies of them. Where it
/// has no room for them, it takes the room that is given.
fn copy_in<E: Words, H: Words>(
    store: &mut Store<E, H>,
    slot: usize,
    values: &[E],
    user: H,
    spare: Option<Spare<E>>,
)
    requires there { slot < length store.old.messages }
    requires room { length values.now ≤ room_with store.old.longest spare }
    ensures { store.new ≡ with_stored store.old slot
        (copied_stored (H.words user) (length values.now) (flat_map E.words values.now)
        (stored_at store.old slot)) }
{
    let _room = store.room(slot);
    store.lend_uninit(slot, values.len(), user, spare);
    store.write_from_slice(slot, values);
}

/// Copies these elements into the request in that place. Where it has no room for them, it takes
/// the room that is given.
pub(crate) fn copy_request_in<QE: Words, QH: Words, PE: Words, PH: Words>(
    words: &mut AllWords<QE, QH, PE, PH>,
    place: Place,
    values: &[QE],
    shape: &KnownShape<QE, QH>,
    spare: Option<Spare<QE>>,
)
    requires requests { are_requests_in words.old.pools place.pool ≡ true }
    requires there { place.slot < count_in words.old.pools place.pool }
    requires room { length values.now ≤ room_with (longest_in words.old.pools place.pool) spare }
    ensures { words.new.pools ≡ with_message words.old.pools place.pool place.slot
        (copied_stored (QH.words shape.now.user_header) (length values.now)
        (flat_map QE.words values.now) (stored_in words.old.pools place.pool place.slot)) }
{
    let slot = place.slot as usize;
    let requests = &mut words.requests[place.pool];
    copy_in(requests, slot, values, shape.user_header(), spare);
}

/// Copies these elements into the response in that place. Where it has no room for them, it takes
/// the room that is given.
pub(crate) fn copy_response_in<QE: Words, QH: Words, PE: Words, PH: Words>(
    words: &mut AllWords<QE, QH, PE, PH>,
    place: Place,
    values: &[PE],
    shape: &KnownShape<PE, PH>,
    spare: Option<Spare<PE>>,
)
    requires responses { are_requests_in words.old.pools place.pool ≡ false }
    requires there { place.slot < count_in words.old.pools place.pool }
    requires room { length values.now ≤ room_with (longest_in words.old.pools place.pool) spare }
    ensures { words.new.pools ≡ with_message words.old.pools place.pool place.slot
        (copied_stored (PH.words shape.now.user_header) (length values.now)
        (flat_map PE.words values.now) (stored_in words.old.pools place.pool place.slot)) }
{
    let slot = place.slot as usize;
    let responses = &mut words.responses[place.pool];
    copy_in(responses, slot, values, shape.user_header(), spare);
}
