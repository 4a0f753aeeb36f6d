//! Words that are texts.
ghost use Rattle.std.specs.Prelude.{◌≡◌, ◌↔◌, IsTrue, IfOk, IfErr, IsOk, is_ok};
ghost use Rattle.std.specs.List.{AllPass};
ghost use Rattle.hex.specs.Hex.{is_hex_digit};
ghost use Rattle.iox_script.specs.Numerals.{bytes_of};
ghost use Rattle.iox_script.specs.declared.parser.ParseError.TheVariants.{WantOfMemory};

use super::ParseError;
use crate::payload::Text;
use std::alloc::Global;

/// Whether the word is text in hexadecimal digits.
pub(super) fn is_text(word: &[u8]) -> bool
    ensures { result ≡ is_ok (bytes_of word.now) }
{
    !word.is_empty() && word.len() % 2 == 0 && has_hex_digits(word)
}

/// The bytes that the word's digits write.
pub(super) fn text(alloc: Global, word: &[u8]) -> Result<Text, ParseError>
    requires { IsOk (bytes_of word.now) }
    ensures read { IfOk result (λ text. bytes_of word.now ≡ Ok text) }
    ensures refused { IfErr result (λ error. error ≡ WantOfMemory) }
{
    match hex::decode(alloc, word) {
        Ok(bytes) => Ok(Text::new(bytes)),
        Err(_) => Err(ParseError::WantOfMemory),
    }
}

fn has_hex_digits(word: &[u8]) -> bool
    ensures { IsTrue result ↔ AllPass is_hex_digit word.now }
{
    word.iter().all(|byte| byte.is_ascii_hexdigit())
}
