//! Words that are kept one behind another in one list.
ghost use Rattle.std.specs.Prelude.{◌≡◌, ◌+◌, ◌≤◌, ◌++◌, length, take, vec_capacity, vec_len};
ghost use Rattle.iox_wire.specs.Replies.{IsSpan, words_at};

/// From where to where words stand in a list.
#[derive(Clone, Copy, Debug)]
pub(crate) struct Span {
    /// The index of the first word.
    pub start: usize,
    /// The index behind the last word.
    pub end: usize,
}

/// Writes the words behind the others, for which there is room, and tells where they stand.
pub(crate) fn write_behind(list: &mut Vec<u64>, words: &[u64]) -> Span
    requires { vec_len list.old + length words.now ≤ vec_capacity list.old }
    ensures items { list.new.items ≡ list.old.items ++ words.now }
    ensures start { result.start ≡ length list.old.items }
    ensures end { result.end ≡ length list.old.items + length words.now }
    ensures capacity { vec_capacity list.new ≡ vec_capacity list.old }
{
    let start = list.len();
    for word in words {
        list.push_reserved(*word);
    }
    let end = list.len();
    Span { start, end }
}

/// The words that stand there.
pub(crate) fn words_there(list: &[u64], span: Span) -> &[u64]
    requires { IsSpan list.now span }
    ensures { result.now ≡ words_at list.now span }
{
    &list[span.start..span.end]
}

/// The first of the words, and no more than so many.
pub(crate) fn first_of(words: &[u64], most: usize) -> &[u64]
    ensures { result.now ≡ take most words.now }
{
    if words.len() <= most {
        return words;
    }
    &words[..most]
}
