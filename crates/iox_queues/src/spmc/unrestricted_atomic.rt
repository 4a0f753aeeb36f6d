//! A value of any size that is stored and loaded as a whole.
ghost use Rattle.std.specs.Prelude.{◌≡◌, ◌<◌, ◌↔◌, IfSome, IsSome, IsTrue};
ghost use Rattle.std.specs.Bool.{OnFalse, OnTrue};
ghost use Rattle.iox_queues.specs.Values.{first, last_store, stored};

use iox_words::Words;

/// One value, and how often a new one was stored. It takes no memory but its own.
#[derive(Debug, Drop)]
pub struct UnrestrictedAtomic<T: Words> {
    value: T,
    stores: u64,
}

/// The right to store values, as long as this value lives.
#[derive(Drop)]
pub struct Producer<'a, T: Words> {
    atomic: &'a mut UnrestrictedAtomic<T>,
}

impl<T: Words> UnrestrictedAtomic<T> {
    /// Makes one that has this value.
    #[inline]
    pub fn new(value: T) -> UnrestrictedAtomic<T>
        ensures { result ≡ first value }
    {
        UnrestrictedAtomic { value, stores: 0 }
    }

    /// The producer; there is no other while it lives. The value that it leaves is the one that is
    /// loaded afterwards.
    #[inline]
    pub fn acquire_producer(&mut self) -> Option<Producer<'_, T>>
        ensures some { IsSome result }
        ensures same_value { IfSome result (λ producer.
            producer.atomic.ghost_name ≡ self.entry.ghost_name) }
        ensures unchanged { IfSome result (λ producer. producer.atomic.now ≡ self.old) }
    {
        Some(Producer { atomic: self })
    }

    /// The value that was stored last.
    #[inline]
    pub fn load(&self) -> T
        ensures { result ≡ self.now.value }
    {
        self.value
    }
}

impl<T: Words> Producer<'_, T> {
    /// Stores a value, and says whether it did: after `2 ^ 64 - 1` stores it stores no more.
    #[inline]
    pub fn store(&mut self, value: T) -> bool
        ensures same_value { self.new.atomic.ghost_name ≡ self.old.atomic.ghost_name }
        ensures room { IsTrue result ↔ (self.old.atomic.now.stores < last_store) }
        ensures stored { OnTrue result (self.new.atomic.now ≡ stored self.old.atomic.now value) }
        ensures full { OnFalse result (self.new.atomic.now ≡ self.old.atomic.now) }
    {
        if self.atomic.stores == u64::MAX {
            return false;
        }
        self.atomic.value = value;
        self.atomic.stores += 1;
        true
    }
}
