//! What the holders of loans write into the messages of a hub's pools.
ghost use Rattle.std.specs.Prelude.{◌≡◌, ◌↔◌, ◌<◌, ◌≤◌, Bool, IsTrue, false, length, true};
ghost use Rattle.iox_store.specs.Answering.{FillsByAnswers};
ghost use Rattle.iox_store.specs.Stored.{stored_at, with_user, written_next};
ghost use Rattle.iox_hub.specs.Fillings.{SuitsShape};
ghost use Rattle.iox_hub.specs.Fits.{are_requests_in, count_in};
ghost use Rattle.iox_hub.specs.Lending.{with_message};
ghost use Rattle.iox_hub.specs.Shapes.{shape_of};
ghost use Rattle.iox_hub.specs.Words.{stored_in};

use crate::all_words::AllWords;
use crate::known_shape::KnownShape;
use crate::reads::{requests_in, responses_in};
use iox_store::Store;
use iox_words::Words;

/// What a message carries has as many words as its shape says.
pub(crate) fn known_in<E: Words, H: Words>(
    store: &Store<E, H>,
    slot: usize,
    shape: &KnownShape<E, H>,
)
    requires { slot < length store.now.messages }
    ensures { (many : Bool) → SuitsShape (shape_of many E.WORDS E.words H.words shape.now)
        (stored_at store.now slot) }
{
    shape.user_header().known();
    store.user_header(slot);
    store.payload(slot);
    store.filled(slot);
}

/// Whether all elements of the message are filled.
fn is_full_in<E: Words, H: Words>(store: &Store<E, H>, slot: usize) -> bool
    requires { slot < length store.now.messages }
    ensures filled { IsTrue result
        ↔ (stored_at store.now slot).filled ≡ (stored_at store.now slot).elements }
    ensures within { (stored_at store.now slot).filled ≤ (stored_at store.now slot).elements }
{
    store.filled(slot);
    store.is_filled(slot)
}

/// Whether all elements of the message in that slot of the pool in this place are filled.
pub(crate) fn is_filled_in<QE: Words, QH: Words, PE: Words, PH: Words>(
    words: &AllWords<QE, QH, PE, PH>,
    pool: usize,
    slot: usize,
) -> bool
    requires { slot < count_in words.now.pools pool }
    ensures filled { IsTrue result ↔ (stored_in words.now.pools pool slot).filled
        ≡ (stored_in words.now.pools pool slot).elements }
    ensures within { (stored_in words.now.pools pool slot).filled
        ≤ (stored_in words.now.pools pool slot).elements }
{
    if words.are_requests(pool) {
        return is_full_in(requests_in(words, pool), slot);
    }
    is_full_in(responses_in(words, pool), slot)
}

/// Gives the request in that slot another user header.
pub(crate) fn set_request_header_in<QE: Words, QH: Words, PE: Words, PH: Words>(
    words: &mut AllWords<QE, QH, PE, PH>,
    pool: usize,
    slot: usize,
    user: QH,
)
    requires requests { are_requests_in words.old.pools pool ≡ true }
    requires there { slot < count_in words.old.pools pool }
    ensures { words.new.pools ≡ with_message words.old.pools pool slot
        (with_user (stored_in words.old.pools pool slot) (QH.words user)) }
{
    let requests = &mut words.requests[pool];
    requests.set_user_header(slot, user);
}

/// Gives the response in that slot another user header.
pub(crate) fn set_response_header_in<QE: Words, QH: Words, PE: Words, PH: Words>(
    words: &mut AllWords<QE, QH, PE, PH>,
    pool: usize,
    slot: usize,
    user: PH,
)
    requires responses { are_requests_in words.old.pools pool ≡ false }
    requires there { slot < count_in words.old.pools pool }
    ensures { words.new.pools ≡ with_message words.old.pools pool slot
        (with_user (stored_in words.old.pools pool slot) (PH.words user)) }
{
    let responses = &mut words.responses[pool];
    responses.set_user_header(slot, user);
}

/// Fills the next element of the request in that slot.
pub(crate) fn write_next_request_in<QE: Words, QH: Words, PE: Words, PH: Words>(
    words: &mut AllWords<QE, QH, PE, PH>,
    pool: usize,
    slot: usize,
    value: QE,
)
    requires requests { are_requests_in words.old.pools pool ≡ true }
    requires there { slot < count_in words.old.pools pool }
    requires room { (stored_in words.old.pools pool slot).filled
        < (stored_in words.old.pools pool slot).elements }
    ensures { words.new.pools ≡ with_message words.old.pools pool slot
        (written_next (stored_in words.old.pools pool slot) (QE.words value)) }
{
    let requests = &mut words.requests[pool];
    requests.write_next(slot, value);
}

/// Fills the next element of the response in that slot.
pub(crate) fn write_next_response_in<QE: Words, QH: Words, PE: Words, PH: Words>(
    words: &mut AllWords<QE, QH, PE, PH>,
    pool: usize,
    slot: usize,
    value: PE,
)
    requires responses { are_requests_in words.old.pools pool ≡ false }
    requires there { slot < count_in words.old.pools pool }
    requires room { (stored_in words.old.pools pool slot).filled
        < (stored_in words.old.pools pool slot).elements }
    ensures { words.new.pools ≡ with_message words.old.pools pool slot
        (written_next (stored_in words.old.pools pool slot) (PE.words value)) }
{
    let responses = &mut words.responses[pool];
    responses.write_next(slot, value);
}

/// Fills all elements of the request in that slot, each with what the closure answers for its
/// index.
pub(crate) fn write_request_from_fn_in<
    QE: Words,
    QH: Words,
    PE: Words,
    PH: Words,
    F: FnMut(usize) -> QE,
>(words: &mut AllWords<QE, QH, PE, PH>, pool: usize, slot: usize, f: F)
    requires requests { are_requests_in words.old.pools pool ≡ true }
    requires there { slot < count_in words.old.pools pool }
    requires callable { F.IsAlwaysCallable f }
    ensures filled { FillsByAnswers QE.words F.step f
        (stored_in words.old.pools pool slot) (stored_in words.new.pools pool slot) }
    ensures only { words.new.pools ≡ with_message words.old.pools pool slot
        (stored_in words.new.pools pool slot) }
{
    let requests = &mut words.requests[pool];
    requests.write_from_fn(slot, f);
}

/// Fills all elements of the response in that slot, each with what the closure answers for its
/// index.
pub(crate) fn write_response_from_fn_in<
    QE: Words,
    QH: Words,
    PE: Words,
    PH: Words,
    F: FnMut(usize) -> PE,
>(words: &mut AllWords<QE, QH, PE, PH>, pool: usize, slot: usize, f: F)
    requires responses { are_requests_in words.old.pools pool ≡ false }
    requires there { slot < count_in words.old.pools pool }
    requires callable { F.IsAlwaysCallable f }
    ensures filled { FillsByAnswers PE.words F.step f
        (stored_in words.old.pools pool slot) (stored_in words.new.pools pool slot) }
    ensures only { words.new.pools ≡ with_message words.old.pools pool slot
        (stored_in words.new.pools pool slot) }
{
    let responses = &mut words.responses[pool];
    responses.write_from_fn(slot, f);
}
