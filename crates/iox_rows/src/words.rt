ghost use Rattle.std.specs.Prelude.{◌≡◌, Some, length};

use crate::expected::{equal, holds};
use iox_words::{Words, ZeroCopySend};
use std::process::Abort;

/// Stores the words of a value in a list of their number, and reads the value back.
fn there_and_back<T: Words>(value: T, list: &mut [u64]) -> Option<T>
    requires { T.WORDS ≡ length list.old }
    ensures { result ≡ Some value }
{
    value.known();
    for index in 0..list.len() {
        list[index] = value.word(index);
    }
    T::of_words(list)
}

/// Whether these are the words of the value, and the value is read back from them.
fn is_told_by<T: Words + PartialEq>(value: T, words: &[u64]) -> bool {
    if T::WORDS != words.len() {
        return false;
    }
    for index in 0..words.len() {
        if value.word(index) != words[index] {
            return false;
        }
    }
    T::of_words(words) == Some(value)
}

fn has_words<T: Words + PartialEq>(rt: &impl Abort, value: T, words: &[u64]) {
    holds(rt, is_told_by(value, words));
}

fn has_no_value<T: Words>(rt: &impl Abort, words: &[u64]) {
    holds(rt, T::of_words(words).is_none());
}

#[test]
fn a_value_is_told_by_its_words(rt: HostRuntime) {
    let mut one = [0];
    equal(&rt, there_and_back(-7i32, &mut one), Some(-7));
    let mut two = [0, 0];
    equal(&rt, there_and_back(1u128 << 127, &mut two), Some(1 << 127));
}

#[test]
fn numbers_have_the_words_of_their_bits(rt: HostRuntime) {
    has_words(&rt, (), &[]);
    has_words(&rt, true, &[1]);
    has_words(&rt, u8::MAX, &[255]);
    has_words(&rt, u16::MAX, &[65535]);
    has_words(&rt, u32::MAX, &[4294967295]);
    has_words(&rt, u64::MAX, &[18446744073709551615]);
    has_words(&rt, usize::MAX, &[18446744073709551615]);
    has_words(&rt, -1i8, &[255]);
    has_words(&rt, i16::MIN, &[32768]);
    has_words(&rt, -2i32, &[4294967294]);
    has_words(&rt, -1i64, &[18446744073709551615]);
    has_words(&rt, isize::MIN, &[9223372036854775808]);
    has_words(&rt, (5u128 << 64) + 6, &[5, 6]);
    has_words(&rt, -1i128, &[18446744073709551615, 18446744073709551615]);
}

#[test]
fn a_list_that_is_no_words_has_no_value(rt: HostRuntime) {
    has_no_value::<()>(&rt, &[0]);
    has_no_value::<bool>(&rt, &[2]);
    has_no_value::<u8>(&rt, &[256]);
    has_no_value::<i8>(&rt, &[256]);
    has_no_value::<u64>(&rt, &[]);
    has_no_value::<u128>(&rt, &[1]);
    has_no_value::<i128>(&rt, &[1, 2, 3]);
}

fn is_sent_as<T: ZeroCopySend>(rt: &impl Abort, name: &str, size: usize) {
    equal(rt, T::name(), name);
    equal(rt, T::SIZE, size);
    equal(rt, T::ALIGNMENT, 8);
}

#[test]
fn types_are_sent_under_their_names(rt: HostRuntime) {
    is_sent_as::<()>(&rt, "()", 0);
    is_sent_as::<bool>(&rt, "bool", 8);
    is_sent_as::<usize>(&rt, "usize", 8);
    is_sent_as::<i64>(&rt, "i64", 8);
    is_sent_as::<u128>(&rt, "u128", 16);
}
