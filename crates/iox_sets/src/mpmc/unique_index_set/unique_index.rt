//! The guard of an index that is held.
ghost use Rattle.std.specs.Prelude.{◌≡◌, IfErr, IfOk, Some};
ghost use Rattle.iox_sets.specs.declared.mpmc.unique_index_set_enums.ReleaseState.TheVariants.{Unlocked};
ghost use Rattle.iox_sets.specs.IndexSets.{IsHeld, Takes, acquire_refusal, with_released};

use super::UniqueIndexSet;
use crate::mpmc::unique_index_set_enums::{ReleaseMode, UniqueIndexSetAcquireFailure};

/// An index that is held as long as this value lives. The set stays open as it ends.
#[derive(Debug)]
pub struct UniqueIndex<'a> {
    set: &'a mut UniqueIndexSet,
    value: u32,
}

impl UniqueIndex<'_> {
    /// The index that is held.
    #[inline]
    pub fn value(&self) -> u32
        ensures { result ≡ self.now.value }
    {
        self.value
    }
}

impl Drop for UniqueIndex<'_> {
    fn drop(self)
        requires { IsHeld self.set.now self.value }
        ensures { self.exit.0.now ≡ with_released self.entry.set.now self.entry.value Unlocked }
    {
        let UniqueIndex { set, value } = self;
        set.release_raw_index(value, ReleaseMode::Default);
    }
}

impl UniqueIndexSet {
    ghost use Rattle.std.specs.Prelude.{◌≡◌, IfErr, IfOk, Some};
    ghost use Rattle.std.specs.Borrow.{sem};
    ghost use Rattle.iox_sets.specs.IndexSets.{Takes, acquire_refusal};
    ghost use Rattle.iox_sets.specs.Guards.{ends_with_guard};

    /// Takes the index that was given back last, and holds it as long as the guard lives.
    #[inline]
    pub fn acquire(&mut self) -> Result<UniqueIndex<'_>, UniqueIndexSetAcquireFailure>
        ensures* rests { sem 𝓛 (ends_with_guard self.entry result) }
        ensures same_set { IfOk result (λ guard. guard.set.ghost_name ≡ self.entry.ghost_name) }
        ensures acquired { IfOk result (λ guard. Takes self.old guard.value guard.set.now) }
        ensures refused { IfErr result (λ failure. acquire_refusal self.old ≡ Some failure) }
    {
        let value = self.acquire_raw_index()?;
        Ok(UniqueIndex { set: self, value })
    }
}
