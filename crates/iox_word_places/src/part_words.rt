//! Where the parts of a message stand, counted in words.
ghost use Rattle.std.specs.Prelude.{◌≡◌, ◌+◌, ◌/◌, ◌<◌, ◌≤◌, ◌^◌};
ghost use Rattle.iox_types.specs.Layouts.{message_bytes};
ghost use Rattle.iox_types.specs.Places.{aligned_place};
ghost use Rattle.iox_word_map.specs.MessageWords.{in_words, part_word, payload_word, user_word};

use iox_types::MessageTypeDetails;
use iox_word_map::MessagePart;

/// The least aligned word that is not before this one.
fn aligned_word(place: usize, alignment: usize) -> usize
    requires { place + in_words alignment ≤ 2 ^ 64 }
    ensures value { result ≡ aligned_place place (in_words alignment) }
    ensures near { result < place + in_words alignment }
{
    let step = (alignment / 8).max(1);
    (place + (step - 1)) / step * step
}

/// The first word of the user header of a message that begins with word `start`.
fn user_word(details: &MessageTypeDetails, start: usize) -> usize
    requires { start + message_bytes details.now 0 / 8 < 2 ^ 64 }
    ensures value { result ≡ user_word details.now start }
    ensures near { result
        < start + details.now.header.size / 8 + in_words details.now.user_header.alignment }
{
    aligned_word(
        start + details.header.size() / 8,
        details.user_header.alignment(),
    )
}

/// The first word of its payload.
fn payload_word(details: &MessageTypeDetails, start: usize) -> usize
    requires { start + message_bytes details.now 0 / 8 < 2 ^ 64 }
    ensures { result ≡ payload_word details.now start }
{
    aligned_word(
        user_word(details, start) + details.user_header.size() / 8,
        details.payload.alignment(),
    )
}

/// The first word of a part.
pub(crate) fn part_word(details: &MessageTypeDetails, start: usize, part: MessagePart) -> usize
    requires { start + message_bytes details.now 0 / 8 < 2 ^ 64 }
    ensures { result ≡ part_word details.now start part }
{
    match part {
        MessagePart::Header => start,
        MessagePart::UserHeader => user_word(details, start),
        MessagePart::Payload => payload_word(details, start),
    }
}
