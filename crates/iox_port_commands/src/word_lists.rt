//! The words of messages, as lists.
ghost use Rattle.std.specs.Prelude.{◌≡◌, ◌++◌, IfOk, OnOk, flat_map};

use iox_words::Words;
use std::alloc::{AllocError, Global};

/// Adds the words of a value behind the others.
#[inline(always)]
fn push_words<T: Words>(list: &mut Vec<u64>, value: T) -> Result<(), AllocError>
    ensures { OnOk result (list.new.items ≡ list.old.items ++ T.words value) }
{
    value.known();
    for index in 0..T::WORDS {
        list.push(value.word(index))?;
    }
    Ok(())
}

/// The words of a user header, and those of elements behind them.
#[inline(always)]
pub(crate) fn words_of<H: Words, E: Words>(
    alloc: Global,
    header: &H,
    values: &[E],
) -> Result<Vec<u64>, AllocError>
    ensures { IfOk result (λ list. list.items ≡ H.words header.now ++ flat_map E.words values.now) }
{
    let count = values
        .len()
        .saturating_mul(E::WORDS)
        .saturating_add(H::WORDS);
    let mut list = Vec::with_capacity(alloc, count)?;
    push_words(&mut list, *header)?;
    for value in values {
        push_words(&mut list, *value)?;
    }
    Ok(list)
}
