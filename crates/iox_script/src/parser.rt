//! From a line to the command that it says.
ghost use Rattle.iox_script.specs.Grammar.{meaning, command_of};
ghost use Rattle.iox_script.specs.Meanings.{IsMeaning};

mod commands;
mod names;
mod numerals;
mod texts;
pub mod usual;
mod words;

use crate::command::{Keyword, LineCause, ScriptCommand};
use commands::{client, create, open, read, receive, send_copy, server, set};
use names::keyword;
use std::alloc::Global;
use std::error::Error;
use std::fmt;
use words::Words;

/// The most bytes of a line, without its line feed.
const MAX_LINE: usize = 65536;

/// Why a line gave no command.
#[derive(Debug, Drop)]
pub enum ParseError {
    /// It says none.
    Bad(LineCause),
    /// It says one, for whose words no memory is left.
    WantOfMemory,
}

impl From<LineCause> for ParseError {
    ghost use Rattle.std.specs.Prelude.{◌≡◌};
    ghost use Rattle.iox_script.specs.declared.parser.ParseError.TheVariants.{Bad};

    ghost from_gives = { λ cause error. error ≡ Bad cause };

    fn from(cause: LineCause) -> ParseError {
        ParseError::Bad(cause)
    }
}

impl fmt::Display for ParseError {
    ghost use Rattle.std.specs.Prelude.{Some};
    ghost use Rattle.iox_script.specs.Texts.{error_text};

    ghost output = { λ error. Some (error_text error) };

    fn fmt<W: fmt::Write>(&self, f: &mut fmt::Formatter<W>) -> fmt::Result {
        match self {
            ParseError::Bad(why) => fmt::Display::fmt(why, f),
            ParseError::WantOfMemory => f.write_str("out of memory"),
        }
    }
}

impl Error for ParseError {}

/// What a line says (the bytes between two line feeds).
pub fn parse(alloc: Global, line: &[u8]) -> Result<ScriptCommand, ParseError>
    ensures { IsMeaning result (meaning line.now) }
{
    if line.len() > MAX_LINE {
        return Err(ParseError::Bad(LineCause::TooLong));
    }
    let (name, words) = Words::split(line);
    match keyword(name) {
        Some(keyword) => command(alloc, keyword, words),
        None => Err(ParseError::Bad(LineCause::UnknownCommand)),
    }
}

/// What the words behind a command's name say.
fn command(alloc: Global, keyword: Keyword, words: Words<'_>) -> Result<ScriptCommand, ParseError>
    ensures { IsMeaning result (command_of keyword words.entry) }
{
    match keyword {
        Keyword::Set => Ok(set(words)?),
        Keyword::Create => create(alloc, words),
        Keyword::Open => Ok(open(words)?),
        Keyword::Client => Ok(client(words)?),
        Keyword::Server => Ok(server(words)?),
        Keyword::SendCopy => send_copy(alloc, words),
        Keyword::Receive => Ok(receive(words)?),
        Keyword::Read => Ok(read(words)?),
    }
}
