//! A line's words, one after another.
ghost use Rattle.std.specs.Prelude.{◌≡◌, ◌≤◌, length, count_by};
ghost use Rattle.iox_script.specs.Lines.{is_space, words_of};

use crate::command::LineCause;
use std::marker::Model;

/// The words of a line that are not read yet.
#[derive(Drop)]
pub(super) struct Words<'a> {
    rest: Option<&'a [u8]>,
}

impl<'a> Model for Words<'a> {
    ghost use Rattle.std.specs.Prelude.{List, [], ℕ};
    ghost use Rattle.std.specs.Option.{option_map_or};
    ghost use Rattle.iox_script.specs.Lines.{words_of};

    ghost Value = { List (List ℕ) };

    ghost view = { λ w. option_map_or (λ rest. words_of rest.now) w.rest [] };
}

impl<'a> Words<'a> {
    ghost use Rattle.std.specs.Prelude.{List, ℕ, [], ◌∷◌, MatchOption, IfOk, IfErr, OnOk};
    ghost use Rattle.iox_script.specs.declared.command.LineCause.TheVariants.{WrongCount};

    /// The first word of a line, and the words behind it.
    pub(super) fn split(line: &'a [u8]) -> (&'a [u8], Words<'a>)
        ensures { words_of line.now ≡ result.0.now ∷ result.1 }
    {
        for (at, byte) in line.iter().enumerate() {
            if *byte == b' ' {
                let rest = Some(&line[at + 1..]);
                return (&line[..at], Words { rest });
            }
        }
        (line, Words { rest: None })
    }

    /// How many words are left.
    pub(super) fn len(&self) -> usize
        ensures { result ≡ length self.now }
    {
        match self.rest {
            Some(rest) => count_words(rest),
            None => 0,
        }
    }

    /// The next word, if one is left.
    pub(super) fn next_word(&mut self) -> Option<&'a [u8]>
        ensures { MatchOption result ((self.old ≡ []) × (self.new ≡ []))
            (λ word. self.old ≡ word.now ∷ self.new) }
    {
        let rest = self.rest?;
        let (word, words) = Words::split(rest);
        *self = words;
        Some(word)
    }

    /// The next word of a command that continues.
    pub(super) fn take(&mut self) -> Result<&'a [u8], LineCause>
        ensures taken { IfOk result (λ word. self.old ≡ word.now ∷ self.new) }
        ensures missing { IfErr result (λ cause. (cause ≡ WrongCount) × (self.old ≡ [])) }
    {
        self.next_word().ok_or(LineCause::WrongCount)
    }

    /// Whether a command with no more words ends here.
    pub(super) fn finish(mut self) -> Result<(), LineCause>
        ensures ended { OnOk result (self.entry ≡ []) }
        ensures more { IfErr result (λ cause. (cause ≡ WrongCount)
            × ((word : List ℕ) × (words : List (List ℕ)) × (self.entry ≡ word ∷ words))) }
    {
        match self.next_word() {
            Some(_) => Err(LineCause::WrongCount),
            None => Ok(()),
        }
    }
}

fn count_words(line: &[u8]) -> usize
    ensures { result ≡ length (words_of line.now) }
{
    count_spaces(line) + 1
}

fn count_spaces(line: &[u8]) -> usize
    ensures count { result ≡ count_by is_space line.now }
    ensures within { result ≤ length line.now }
{
    line.iter().filter(|byte| **byte == b' ').count()
}
