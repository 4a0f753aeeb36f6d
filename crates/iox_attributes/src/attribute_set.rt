//! Attributes in the order of their bytes.
ghost use Rattle.std.specs.Prelude.{◌≡◌, ◌+◌, ◌<◌, ◌≤◌, ◌==◌, ◌↔◌, [], IfSome, IfNone, IsSome, IsTrue, Some, None, length, take};
ghost use Rattle.std.specs.List.{count_by, insert, slice_get};
ghost use Rattle.iox_names.specs.Texts.{text_eq};
ghost use Rattle.std.specs.Fn.{CalledAt};
ghost use Rattle.iox_attributes.specs.Sets.{is_sorted, max_pairs, values_of, with_pair};
ghost use Rattle.iox_attributes.specs.Storage.{place_of};
ghost use Rattle.iox_attributes.specs.Visits.{VisitsInOrder};

use iox_names::attribute::{Attribute, AttributeKey, AttributeValue};
use iox_words::CallbackProgression;
use std::fmt;
use std::marker::Model;
use std::ops::DerefSlice;

const CAPACITY: usize = 64;

/// Attributes in the order of their keys' bytes, then of their values'.
///
/// A pair stands as often as it was added.
#[derive(Drop)]
pub struct AttributeSet {
    pairs: [Attribute; CAPACITY],
    len: usize,
}

impl Model for AttributeSet {
    ghost use Rattle.std.specs.Prelude.{List, take};
    ghost use Rattle.iox_names.specs.declared.attribute.Attribute.{Attribute};
    ghost use Rattle.iox_attributes.specs.Storage.{HoldsSet};

    ghost Value = { List Attribute };

    ghost view = { λ it. take it.len it.pairs };

    ghost invariant = { λ it. HoldsSet it.pairs it.len };
}

impl AttributeSet {
    /// No attributes.
    pub(crate) fn new() -> AttributeSet
        ensures { result ≡ [] }
    {
        AttributeSet {
            pairs: [filler(); CAPACITY],
            len: 0,
        }
    }

    /// Adds an attribute, where there is room.
    pub(crate) fn insert(&mut self, attribute: &Attribute)
        requires { length self.old < max_pairs }
        ensures { self.new ≡ with_pair attribute.now self.old }
    {
        let place = place_of(self.as_slice(), attribute);
        insert_at(&mut self.pairs, self.len, place, attribute);
        self.len += 1;
    }

    /// The attributes in their order.
    pub fn as_slice(&self) -> &[Attribute]
        ensures value { result.now ≡ self.now }
        ensures sorted { IsTrue (is_sorted self.now) }
        ensures within { length self.now ≤ max_pairs }
    {
        &self.pairs[..self.len]
    }

    /// How many attributes a set has at most.
    pub fn capacity() -> usize
        ensures { result ≡ max_pairs }
    {
        CAPACITY
    }

    /// Whether no attribute can be added.
    pub fn is_full(&self) -> bool
        ensures full { result ≡ (length self.now == max_pairs) }
        ensures within { length self.now ≤ max_pairs }
    {
        self.len == CAPACITY
    }

    /// How many attributes there are.
    pub fn number_of_attributes(&self) -> usize
        ensures value { result ≡ length self.now }
        ensures within { result ≤ max_pairs }
    {
        self.len
    }

    /// How many values a key has.
    pub fn number_of_key_values(&self, key: &AttributeKey) -> usize
        ensures { result ≡ length (values_of key.now self.now) }
    {
        count_values(self.as_slice(), key)
    }

    /// The value of that number among a key's values, from 0 on.
    pub fn key_value(&self, key: &AttributeKey, index: usize) -> Option<&AttributeValue>
        ensures found { IfSome result (λ value.
            slice_get (values_of key.now self.now) index ≡ Some value.now) }
        ensures none { IfNone result (slice_get (values_of key.now self.now) index ≡ None) }
    {
        let mut left = index;
        let mut rest = self.as_slice();
        while let Some((first, later)) = rest.split_first() {
            rest = later;
            if first.key() != key {
                continue;
            }
            if left == 0 {
                return Some(first.value());
            }
            left -= 1;
        }
        None
    }

    /// Calls `callback` with a key's values in their order, as far as it says `Continue`.
    pub fn iter_key_values<F: FnMut(&AttributeValue) -> CallbackProgression>(
        &self,
        key: &AttributeKey,
        mut callback: F,
    )
        requires { F.IsAlwaysCallable callback }
        ensures { VisitsInOrder (CalledAt F.FnMut) callback (values_of key.now self.now) }
    {
        let mut rest = self.as_slice();
        while let Some((first, later)) = rest.split_first() {
            rest = later;
            if first.key() == key && callback(first.value()) == CallbackProgression::Stop {
                return;
            }
        }
    }
}

/// Two sets are equal if they hold the same pairs equally often.
impl PartialEq for AttributeSet {
    ghost use Rattle.std.specs.Cmp.Lexicographic.{lists_per};
    ghost use Rattle.iox_names.specs.contracts.attribute.AttributePartialEq.TheImpl.Laws.{laws-law};
    ghost use Rattle.iox_attributes.specs.Sets.{set_eq};

    ghost eq = { set_eq };

    ghost laws = { lists_per laws-law };

    fn eq(&self, other: &AttributeSet) -> bool {
        self.as_slice() == other.as_slice()
    }
}

impl Eq for AttributeSet {
    ghost use Rattle.std.specs.Cmp.Lexicographic.{lists_equiv};
    ghost use Rattle.iox_names.specs.contracts.attribute.AttributeEq.TheImpl.Laws.{laws-law};

    ghost laws = { lists_equiv laws-law };
}

impl fmt::Debug for AttributeSet {
    fn fmt<W: fmt::Write>(&self, f: &mut fmt::Formatter<W>) -> fmt::Result {
        fmt::Debug::fmt(self.as_slice(), f)
    }
}

impl DerefSlice for AttributeSet {
    ghost use Rattle.std.specs.Prelude.{◌≡◌};

    type Elem = Attribute;

    ghost deref_gives = { λ it pairs. pairs ≡ it };

    fn deref(&self) -> &[Attribute] {
        self.as_slice()
    }
}

/// What stands where no attribute was added.
fn filler() -> Attribute {
    let (Ok(key), Ok(value)) = (AttributeKey::new("-"), AttributeValue::new("-")) else {
        unreachable!();
    };
    Attribute::new(&key, &value)
}

/// How many of the pairs have that key.
fn count_values(pairs: &[Attribute], key: &AttributeKey) -> usize
    ensures { result ≡ count_by (λ it. text_eq it.key key.now) pairs.now }
{
    pairs.iter().filter(|it| it.key() == key).count()
}

/// Before how many of the pairs, from the front on, an attribute does not go.
fn place_of(pairs: &[Attribute], attribute: &Attribute) -> usize
    ensures value { result ≡ place_of attribute.now pairs.now }
    ensures within { result ≤ length pairs.now }
{
    let mut place = 0;
    let mut rest = pairs;
    while let Some((first, later)) = rest.split_first() {
        if attribute.cmp(first).is_lt() {
            break;
        }
        place += 1;
        rest = later;
    }
    place
}

/// Puts an attribute at a place among the first `len`, and those behind it one further.
fn insert_at(pairs: &mut [Attribute], len: usize, place: usize, attribute: &Attribute)
    requires place { place ≤ len }
    requires room { len < length pairs.old }
    ensures len { length pairs.new ≡ length pairs.old }
    ensures inserted { take (len + 1) pairs.new ≡ insert (take len pairs.old) place attribute.now }
{
    pairs[len] = *attribute;
    pairs[place..len + 1].rotate_right(1);
}
