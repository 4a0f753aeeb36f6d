//! A text of few bytes, in room of its own.
ghost use Rattle.std.specs.Prelude.{◌≡◌, ◌==◌, ◌++◌, ◌≤◌, IfErr, IfOk, IsTrue, Some, None, drop, length};
ghost use Rattle.iox_words.specs.WordLists.{is_text};

use crate::text_error::TextError;
use std::marker::Model;
use std::str;

/// A text of at most `MAX` bytes, each from 1 to 127.
#[derive(Clone, Copy)]
pub struct BoundedText<const MAX: usize> {
    bytes: [u8; MAX],
    len: usize,
}

impl<const MAX: usize> Model for BoundedText<MAX> {
    ghost use Rattle.std.specs.Prelude.{ℕ, List, length, take};
    ghost use Rattle.iox_names.specs.Padding.{HoldsText, padded};
    ghost use Rattle.iox_names.specs.PaddingLaws.{length-text, padded-take};

    ghost Value = { List ℕ };

    ghost view = { λ it. take it.len it.bytes };

    ghost invariant = { λ it. HoldsText MAX it.bytes it.len };

    ghost inverse = { λ text. record { bytes = padded MAX text; len = length text } };

    ghost inverse_ok = { λ it held i. record {
      bytes = padded-take MAX it.bytes it.len held i;
      len = length-text MAX it.bytes it.len held i;
    } };
}

impl<const MAX: usize> BoundedText<MAX> {
    ghost use Rattle.iox_names.specs.Texts.{IsTextWithin, text_refusal};

    /// The text of those bytes.
    pub fn from_bytes(bytes: &[u8]) -> Result<BoundedText<MAX>, TextError>
        ensures made { IfOk result (λ text. text ≡ bytes.now) }
        ensures allowed { IfOk result (λ _. text_refusal MAX bytes.now ≡ None) }
        ensures refused { IfErr result (λ e. text_refusal MAX bytes.now ≡ Some e) }
    {
        if bytes.len() > MAX {
            return Err(TextError::ExceedsMaximumLength);
        }
        if !is_text(bytes) {
            return Err(TextError::InvalidContent);
        }
        Ok(BoundedText::of_texts(bytes, &[]))
    }

    /// That text.
    pub fn new(text: &str) -> Result<BoundedText<MAX>, TextError>
        ensures made { IfOk result (λ it. it ≡ text.now) }
        ensures allowed { IfOk result (λ _. text_refusal MAX text.now ≡ None) }
        ensures refused { IfErr result (λ e. text_refusal MAX text.now ≡ Some e) }
    {
        BoundedText::from_bytes(text.as_bytes())
    }

    /// Two texts, one behind the other.
    pub fn joined(front: &str, back: &str) -> Result<BoundedText<MAX>, TextError>
        ensures made { IfOk result (λ it. it ≡ front.now ++ back.now) }
        ensures allowed { IfOk result (λ _. text_refusal MAX (front.now ++ back.now) ≡ None) }
        ensures refused { IfErr result (λ e. text_refusal MAX (front.now ++ back.now) ≡ Some e) }
    {
        let (front, back) = (front.as_bytes(), back.as_bytes());
        if front.len() > MAX || back.len() > MAX - front.len() {
            return Err(TextError::ExceedsMaximumLength);
        }
        if !is_text(front) || !is_text(back) {
            return Err(TextError::InvalidContent);
        }
        Ok(BoundedText::of_texts(front, back))
    }

    fn of_texts(front: &[u8], back: &[u8]) -> BoundedText<MAX>
        requires within { length (front.now ++ back.now) ≤ MAX }
        requires text { IsTrue (is_text (front.now ++ back.now)) }
        ensures { result ≡ front.now ++ back.now }
    {
        let mut bytes = [0; MAX];
        write_both(&mut bytes[..], front, back);
        BoundedText {
            bytes,
            len: front.len() + back.len(),
        }
    }

    /// How many bytes the text has.
    pub fn len(&self) -> usize
        ensures value { result ≡ length self.now }
        ensures within { result ≤ MAX }
    {
        self.len
    }

    /// Whether the text has no byte.
    pub fn is_empty(&self) -> bool
        ensures { result ≡ (length self.now == 0) }
    {
        self.as_bytes().is_empty()
    }

    /// The text's bytes.
    pub fn as_bytes(&self) -> &[u8]
        ensures value { result.now ≡ self.now }
        ensures text { IsTextWithin MAX result.now }
    {
        &self.bytes[..self.len]
    }

    /// The text.
    pub fn as_str(&self) -> &str
        ensures value { result.now ≡ self.now }
        ensures text { IsTextWithin MAX result.now }
    {
        match str::from_utf8(self.as_bytes()) {
            Ok(text) => text,
            Err(_) => unreachable!(),
        }
    }
}

/// Whether each byte is from 1 to 127.
pub fn is_text(bytes: &[u8]) -> bool
    ensures { result ≡ is_text bytes.now }
{
    bytes.iter().all(|byte| 0 < *byte && *byte < 128)
}

/// Writes two lists of bytes to the front of a place.
fn write_both(place: &mut [u8], front: &[u8], back: &[u8])
    requires { length (front.now ++ back.now) ≤ length place.old }
    ensures { place.new
        ≡ (front.now ++ back.now) ++ drop (length (front.now ++ back.now)) place.old }
{
    let len = front.len();
    place[..len].copy_from_slice(front);
    place[len..len + back.len()].copy_from_slice(back);
}
