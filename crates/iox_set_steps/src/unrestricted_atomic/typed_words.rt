//! Values of a type as words, and back.
ghost use Rattle.std.specs.Prelude.{◌≡◌, ◌+◌, ◌≤◌, length};
ghost use Rattle.iox_set_steps.specs.TypedValues.{IsCallOf, call_words};
ghost use Rattle.iox_set_steps.specs.TypedWords.{AreLaid, answer_of as typed_answer, or_else};

use super::value::{ValueCall, ValueReply};
use super::{AtomicCall, AtomicReply};
use iox_steps::Progress;
use iox_words::Words;

/// The words of a value.
#[inline]
pub(crate) fn value_words<T: Words, const N: usize>(value: T) -> [u64; N]
    requires { T.WORDS ≡ N }
    ensures words { result ≡ T.words value }
    ensures known { T.is_value value }
{
    value.known();
    let mut words = [0; N];
    for index in 0..N {
        words[index] = value.word(index);
    }
    words
}

/// The value of words; where they are those of none, another.
#[inline]
pub(crate) fn value_of<T: Words, const N: usize>(list: [u64; N], other: T) -> T
    ensures { result ≡ or_else (T.of_words list.entry) other }
{
    T::of_words(&list).unwrap_or(other)
}

/// An answer with the value of its words.
#[inline]
pub(crate) fn answer_of<T: Words, const N: usize>(
    answer: Progress<AtomicReply<N>>,
    other: T,
) -> Progress<ValueReply<T>>
    ensures { result ≡ typed_answer T.of_words other answer.entry }
{
    match answer {
        Progress::Going => Progress::Going,
        Progress::Done(AtomicReply::Stored(done)) => Progress::Done(ValueReply::Stored(done)),
        Progress::Done(AtomicReply::Loaded(list)) => {
            let value = value_of(list, other);
            Progress::Done(ValueReply::Loaded(value))
        }
    }
}

/// A call with the words of its value.
#[inline]
pub(crate) fn call_of<T: Words, const N: usize>(call: ValueCall<T>) -> AtomicCall<N>
    requires { T.WORDS ≡ N }
    ensures words { result ≡ call_words T.words call }
    ensures known { IsCallOf T.is_value call }
{
    match call {
        ValueCall::Store(value) => AtomicCall::Store(value_words(value)),
        ValueCall::Load => AtomicCall::Load,
    }
}

/// Writes version 0 to a place, and the words of a value behind it.
pub(crate) fn lay<const N: usize>(words: &mut Vec<u64>, base: usize, list: [u64; N])
    requires { base + 1 + N ≤ length words.old.items }
    ensures { AreLaid N base list.entry words.old.items words.new.items }
{
    words[base] = 0;
    for index in 0..N {
        words[base + 1 + index] = list[index];
    }
}
