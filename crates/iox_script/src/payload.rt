//! Lists that commands and replies hold.
ghost use Rattle.std.specs.Prelude.{◌≡◌};

use std::marker::Model;

/// The words of a message.
#[derive(Debug, Drop)]
pub struct Payload {
    words: Vec<u64>,
}

impl Model for Payload {
    ghost use Rattle.std.specs.Prelude.{List, ℕ};

    ghost Value = { List ℕ };

    ghost view = { λ p. p.words.items };
}

impl Payload {
    /// The payload of these words.
    pub fn new(words: Vec<u64>) -> Payload
        ensures { result ≡ words.items }
    {
        Payload { words }
    }

    /// The words in their order.
    pub fn as_slice(&self) -> &[u64]
        ensures { result.now ≡ self.now }
    {
        self.words.as_slice()
    }

    /// The words in their order, as a list of their own.
    pub fn into_words(self) -> Vec<u64>
        ensures { result.items ≡ self }
    {
        self.words
    }
}

/// The bytes of a text.
#[derive(Debug, Drop)]
pub struct Text {
    bytes: Vec<u8>,
}

impl Model for Text {
    ghost use Rattle.std.specs.Prelude.{List, ℕ};

    ghost Value = { List ℕ };

    ghost view = { λ t. t.bytes.items };
}

impl Text {
    /// The text of these bytes.
    pub fn new(bytes: Vec<u8>) -> Text
        ensures { result ≡ bytes.items }
    {
        Text { bytes }
    }

    /// The bytes in their order.
    pub fn as_bytes(&self) -> &[u8]
        ensures { result.now ≡ self.now }
    {
        self.bytes.as_slice()
    }
}
