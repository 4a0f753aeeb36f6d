//! Rows of tests, and the function that plays them all: it alone makes, owns and drops what is
//! tested.
use crate::expected::is_so;
use std::alloc::Global;
use std::process::Abort;

/// What rows are asked of. Its calls promise nothing, so that nothing of them stands in what comes
/// after.
pub trait Answers<At, Asked, Refusal>: Drop {
    /// A new one, or why there is none.
    fn made(alloc: Global, at: At) -> Result<Self, Refusal>;

    /// Whether that is answered.
    fn answers(&mut self, asked: &Asked) -> bool;
}

/// A name, how to make what is asked, what is asked of it one after another, and why there is none
/// to be asked, if there is none.
pub type Row<'a, At, Asked, Refusal> = (&'a str, At, &'a [Asked], Option<Refusal>);

/// Ends the test if one of these is answered otherwise.
fn goes<At, Asked, Refusal, T: Answers<At, Asked, Refusal>>(
    rt: &impl Abort,
    name: &str,
    it: &mut T,
    list: &[Asked],
) {
    for (place, asked) in list.iter().enumerate() {
        is_so(rt, name, place, it.answers(asked));
    }
}

/// The same of new ones.
pub fn plays<At: Copy, Asked, Refusal: Copy + PartialEq, T: Answers<At, Asked, Refusal>>(
    rt: &impl Abort,
    alloc: Global,
    rows: &[Row<'_, At, Asked, Refusal>],
) {
    for row in rows {
        match T::made(alloc, row.1) {
            Ok(mut it) => {
                is_so(rt, row.0, 0, row.3 == None);
                goes::<At, Asked, Refusal, T>(rt, row.0, &mut it, row.2);
            }
            Err(refusal) => is_so(rt, row.0, 0, row.3 == Some(refusal)),
        }
    }
}
