use super::are_ordered;
use crate::expected::{debugs, equal, shows};
use iox_names::{BoundedText, TextError, is_text};
use std::cmp::Ordering;
use std::process::Abort;

/// A text of at most eight bytes.
type Text = BoundedText<8>;

/// Why a text is refused, if it is.
type Refused = Option<TextError>;

const LONG: Refused = Some(TextError::ExceedsMaximumLength);

const INVALID: Refused = Some(TextError::InvalidContent);

fn text(rt: &impl Abort, text: &str) -> Text {
    Text::new(text).expect(rt, "a text")
}

/// Ends the test where bytes are refused otherwise, or are another text.
fn comes(rt: &impl Abort, made: &Result<Text, TextError>, bytes: &[u8], refused: Refused) {
    match made {
        Ok(text) => equal(
            rt,
            (text.as_bytes(), text.len(), text.is_empty(), None),
            (bytes, bytes.len(), bytes.is_empty(), refused),
        ),
        Err(error) => equal(rt, (bytes, Some(*error)), (bytes, refused)),
    }
}

#[test]
fn a_text_has_at_most_eight_bytes_from_1_to_127(rt: HostRuntime) {
    const BYTES: &[(&[u8], Refused)] = &[
        (b"iceoryx2", None),
        (b"", None),
        (b"\x01\x7f", None),
        (&[0; 9], LONG),
        (b"\x01\0", INVALID),
        (b"\x80\x01", INVALID),
    ];
    for (bytes, refused) in BYTES {
        comes(&rt, &Text::from_bytes(bytes), bytes, *refused);
    }
    const TEXTS: &[(&str, Refused)] = &[
        ("iceoryx2", None),
        ("", None),
        ("iceoryx23", LONG),
        ("\u{80}", INVALID),
    ];
    for (text, refused) in TEXTS {
        comes(&rt, &Text::new(text), text.as_bytes(), *refused);
    }
    equal(&rt, BoundedText::<0>::new("").err(), None);
    equal(&rt, BoundedText::<2>::from_bytes(b"\x01\x7f").err(), None);
    equal(&rt, BoundedText::<2>::from_bytes(&[1; 3]).err(), LONG);
}

#[test]
fn a_byte_of_a_text_is_from_1_to_127(rt: HostRuntime) {
    const BYTES: &[(&[u8], bool)] = &[(&[1, 127], true), (&[1, 0], false), (&[128, 1], false)];
    for (bytes, fact) in BYTES {
        equal(&rt, (bytes, is_text(bytes)), (bytes, *fact));
    }
}

#[test]
fn a_text_is_its_bytes(rt: HostRuntime) {
    let text = text(&rt, "iceoryx2");
    equal(&rt, text.as_str(), "iceoryx2");
    shows(&rt, rt.alloc(), &text, "iceoryx2");
    debugs(&rt, rt.alloc(), &text, "\"iceoryx2\"");
}

#[test]
fn two_texts_are_joined_where_they_fit(rt: HostRuntime) {
    const TEXTS: &[([&str; 2], &[u8], Refused)] = &[
        (["iceo", "ryx2"], b"iceoryx2", None),
        (["a", "bc"], b"abc", None),
        (["iceo", "ryx23"], b"", LONG),
        (["iceo", "\0"], b"", INVALID),
    ];
    for ([front, back], both, refused) in TEXTS {
        comes(&rt, &Text::joined(front, back), both, *refused);
    }
}

#[test]
fn texts_are_told_apart_and_ordered_by_their_bytes(rt: HostRuntime) {
    const TEXTS: &[(&str, &str, Ordering)] = &[
        ("ab", "b", Ordering::Less),
        ("ab", "abc", Ordering::Less),
        ("abc", "b", Ordering::Less),
        ("abc", "ab", Ordering::Greater),
        ("abc", "abc", Ordering::Equal),
    ];
    for (first, second, order) in TEXTS {
        are_ordered(&rt, &text(&rt, first), &text(&rt, second), *order);
    }
}

#[test]
fn a_joined_text_is_as_one_that_is_made(rt: HostRuntime) {
    const TEXTS: &[(&str, Ordering)] = &[
        ("abc", Ordering::Equal),
        ("b", Ordering::Less),
        ("ab", Ordering::Greater),
    ];
    let abc = Text::joined("a", "bc").expect(&rt, "a text");
    for (second, order) in TEXTS {
        are_ordered(&rt, &abc, &text(&rt, second), *order);
    }
    let copy = abc;
    equal(&rt, copy, abc);
}
