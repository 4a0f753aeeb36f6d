//! What a service says of itself: a key and a value.
ghost use Rattle.std.specs.Prelude.{◌≡◌};

use crate::bounded_name::BoundedName;

/// The key of an attribute: 1 to 64 bytes, each from 1 to 127.
pub type AttributeKey = BoundedName<64>;

/// The value of an attribute: 1 to 256 bytes, each from 1 to 127.
pub type AttributeValue = BoundedName<256>;

/// A key and a value, ordered by the key's bytes, then by the value's.
#[derive(Clone, Copy, Debug, PartialEq, Eq, PartialOrd, Ord, Hash)]
pub struct Attribute {
    key: AttributeKey,
    value: AttributeValue,
}

impl Attribute {
    /// The attribute of that key and value.
    pub fn new(key: &AttributeKey, value: &AttributeValue) -> Attribute
        ensures key { result.key ≡ key.now }
        ensures value { result.value ≡ value.now }
    {
        Attribute {
            key: *key,
            value: *value,
        }
    }

    /// The attribute's key.
    pub fn key(&self) -> &AttributeKey
        ensures { result.now ≡ self.now.key }
    {
        &self.key
    }

    /// The attribute's value.
    pub fn value(&self) -> &AttributeValue
        ensures { result.now ≡ self.now.value }
    {
        &self.value
    }
}
