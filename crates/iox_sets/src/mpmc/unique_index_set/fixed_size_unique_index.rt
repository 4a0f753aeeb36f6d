//! The guard of an index that is held in a set of fixed capacity.
ghost use Rattle.std.specs.Prelude.{◌≡◌, IfErr, IfOk, Some};
ghost use Rattle.iox_sets.specs.declared.mpmc.unique_index_set_enums.ReleaseState.TheVariants.{Unlocked};
ghost use Rattle.iox_sets.specs.IndexSets.{IsHeld, Takes, acquire_refusal, with_released};

use super::FixedSizeUniqueIndexSet;
use crate::mpmc::unique_index_set_enums::{ReleaseMode, UniqueIndexSetAcquireFailure};
use std::fmt;

/// An index that is held as long as this value lives. The set stays open as it ends.
pub struct FixedSizeUniqueIndex<'a, const CAPACITY: usize> {
    set: &'a mut FixedSizeUniqueIndexSet<CAPACITY>,
    value: u32,
}

impl<const CAPACITY: usize> FixedSizeUniqueIndex<'_, CAPACITY> {
    /// The index that is held.
    #[inline]
    pub fn value(&self) -> u32
        ensures { result ≡ self.now.value }
    {
        self.value
    }
}

impl<const CAPACITY: usize> Drop for FixedSizeUniqueIndex<'_, CAPACITY> {
    fn drop(self)
        requires { IsHeld self.set.now self.value }
        ensures { self.exit.0.now ≡ with_released self.entry.set.now self.entry.value Unlocked }
    {
        let FixedSizeUniqueIndex { set, value } = self;
        set.release_raw_index(value, ReleaseMode::Default);
    }
}

impl<const CAPACITY: usize> FixedSizeUniqueIndexSet<CAPACITY> {
    ghost use Rattle.std.specs.Prelude.{◌≡◌, ◌<◌, IfErr, IfOk, Some};
    ghost use Rattle.std.specs.Borrow.{sem};
    ghost use Rattle.iox_sets.specs.IndexSets.{Takes, acquire_refusal};
    ghost use Rattle.iox_sets.specs.Guards.{ends_with_fixed_guard};

    /// Takes the index that was given back last, and holds it as long as the guard lives.
    #[inline]
    pub fn acquire(
        &mut self,
    ) -> Result<FixedSizeUniqueIndex<'_, CAPACITY>, UniqueIndexSetAcquireFailure>
        ensures* rests { sem 𝓛 (ends_with_fixed_guard CAPACITY.row self.entry result) }
        ensures same_set { IfOk result (λ guard. guard.set.ghost_name ≡ self.entry.ghost_name) }
        ensures acquired { IfOk result (λ guard. Takes self.old guard.value guard.set.now) }
        ensures within { IfOk result (λ guard. guard.value < CAPACITY) }
        ensures refused { IfErr result (λ failure. acquire_refusal self.old ≡ Some failure) }
    {
        let value = self.acquire_raw_index()?;
        Ok(FixedSizeUniqueIndex { set: self, value })
    }
}

impl<const CAPACITY: usize> fmt::Debug for FixedSizeUniqueIndex<'_, CAPACITY> {
    fn fmt<W: fmt::Write>(&self, f: &mut fmt::Formatter<W>) -> fmt::Result {
        f.debug_struct("FixedSizeUniqueIndex")
            .field("set", &self.set)
            .field("value", &self.value)
            .finish()
    }
}
