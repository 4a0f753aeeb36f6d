//! Words that are names, of commands and of settings.
ghost use Rattle.std.specs.Prelude.{◌≡◌};
ghost use Rattle.iox_script.specs.Names.{keyword_of, key_of};

use crate::command::{Key, Keyword, LineCause};

/// The command of that name.
pub(super) fn keyword(word: &[u8]) -> Option<Keyword>
    ensures { result ≡ keyword_of word.now }
{
    if word == b"set".as_slice() {
        Some(Keyword::Set)
    } else if word == b"create".as_slice() {
        Some(Keyword::Create)
    } else if word == b"open".as_slice() {
        Some(Keyword::Open)
    } else if word == b"client".as_slice() {
        Some(Keyword::Client)
    } else if word == b"server".as_slice() {
        Some(Keyword::Server)
    } else if word == b"send-copy".as_slice() {
        Some(Keyword::SendCopy)
    } else if word == b"receive".as_slice() {
        Some(Keyword::Receive)
    } else if word == b"read".as_slice() {
        Some(Keyword::Read)
    } else {
        None
    }
}

/// The setting of that name.
pub(super) fn key(word: &[u8]) -> Result<Key, LineCause>
    ensures { result ≡ key_of word.now }
{
    if word == b"request-overflow".as_slice() {
        Ok(Key::RequestOverflow)
    } else if word == b"response-overflow".as_slice() {
        Ok(Key::ResponseOverflow)
    } else {
        Err(LineCause::BadText)
    }
}
