//! Keys in the order in which they were required.
ghost use Rattle.std.specs.Prelude.{◌≡◌, ◌<◌, ◌≤◌, ◌==◌, [], length};
ghost use Rattle.std.specs.List.{push};
ghost use Rattle.iox_attributes.specs.Sets.{max_pairs};

use iox_names::attribute::AttributeKey;
use std::fmt;
use std::marker::Model;

const CAPACITY: usize = 64;

/// At most 64 keys, in the order in which they were added.
#[derive(Drop)]
pub(crate) struct KeyList {
    keys: [AttributeKey; CAPACITY],
    len: usize,
}

impl Model for KeyList {
    ghost use Rattle.std.specs.Prelude.{ℕ, List, take};
    ghost use Rattle.iox_attributes.specs.Storage.{HoldsKeys};

    ghost Value = { List (List ℕ) };

    ghost view = { λ it. take it.len it.keys };

    ghost invariant = { λ it. HoldsKeys it.keys it.len };
}

impl KeyList {
    pub(crate) fn new() -> KeyList
        ensures { result ≡ [] }
    {
        KeyList {
            keys: [filler(); CAPACITY],
            len: 0,
        }
    }

    pub(crate) fn is_full(&self) -> bool
        ensures full { result ≡ (length self.now == max_pairs) }
        ensures within { length self.now ≤ max_pairs }
    {
        self.len == CAPACITY
    }

    /// Adds a key behind the others, where there is room.
    pub(crate) fn push(&mut self, key: &AttributeKey)
        requires { length self.old < max_pairs }
        ensures { self.new ≡ push self.old key.now }
    {
        self.keys[self.len] = *key;
        self.len += 1;
    }

    pub(crate) fn as_slice(&self) -> &[AttributeKey]
        ensures { result.now ≡ self.now }
    {
        &self.keys[..self.len]
    }
}

impl fmt::Debug for KeyList {
    fn fmt<W: fmt::Write>(&self, f: &mut fmt::Formatter<W>) -> fmt::Result {
        fmt::Debug::fmt(self.as_slice(), f)
    }
}

/// What stands where no key was added.
fn filler() -> AttributeKey {
    let Ok(key) = AttributeKey::new("-") else {
        unreachable!();
    };
    key
}
