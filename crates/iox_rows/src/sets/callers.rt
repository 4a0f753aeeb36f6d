//! Callers of each type, proved only from its clauses.
ghost use Rattle.std.specs.Prelude.{◌≡◌, ◌≢◌, ◌<◌, ◌^◌, ℕ, IfOk, IfSome, None, Some, true};
ghost use Rattle.iox_sets.specs.IndexSets.{IsHeld};
ghost use Rattle.iox_sets.specs.OwnedIndices.{owner_of};

use iox_sets::mpmc::bit_set::{BitSet, FixedSizeBitSet};
use iox_sets::mpmc::counting_bit_set::{CountingBitSet, FixedSizeCountingBitSet};
use iox_sets::mpmc::robust_unique_index_set::{
    OwnerId, RobustUniqueIndexSet, StaticRobustUniqueIndexSet,
};
use iox_sets::mpmc::unique_index_set::{FixedSizeUniqueIndexSet, HeadDetails, UniqueIndexSet};
use iox_sets::mpmc::unique_index_set_enums::{
    ReleaseMode, ReleaseState, UniqueIndexSetAcquireFailure,
};
use std::alloc::{AllocError, Global};

/// Two bits are set, and the lower one is cleared first.
pub fn lower_bit(alloc: Global) -> Result<Option<usize>, AllocError>
    ensures { IfOk result (λ lower. lower ≡ Some 2) }
{
    let mut bits = BitSet::new(alloc, 8)?;
    bits.set(5);
    bits.set(2);
    Ok(bits.reset_next())
}

/// The last bit is there, since the capacity of the set is known.
pub fn sets_the_last_bit(bits: &mut FixedSizeBitSet<130>) -> bool {
    let last = bits.capacity() - 1;
    bits.set(last)
}

/// A bit of a new set can be counted.
pub fn counts_a_bit(alloc: Global) -> Result<bool, AllocError>
    ensures { IfOk result (λ counted. counted ≡ true) }
{
    let mut counts = CountingBitSet::new(alloc, 8)?;
    Ok(counts.set(3))
}

/// The last count is there, since the capacity of the set is known.
pub fn counts_the_last_bit(counts: &mut FixedSizeCountingBitSet<5>) -> bool {
    let last = counts.capacity() - 1;
    counts.set(last)
}

/// An index is taken and given back, and the set is unchanged after it.
pub fn taken_and_given_back(
    set: &mut UniqueIndexSet,
) -> Result<ReleaseState, UniqueIndexSetAcquireFailure>
    ensures { set.new ≡ set.old }
{
    let index = set.acquire_raw_index()?;
    Ok(set.release_raw_index(index, ReleaseMode::Default))
}

/// An index is held for a while, and the set is unchanged after it.
pub fn held_for_a_moment(set: &mut UniqueIndexSet) -> Result<u32, UniqueIndexSetAcquireFailure>
    ensures { set.new ≡ set.old }
{
    let index = set.acquire()?;
    Ok(index.value())
}

/// An index that is taken is within a table of as many places as the set has room for.
pub fn marks_its_place(
    set: &mut FixedSizeUniqueIndexSet<4>,
    table: &mut [bool; 4],
) -> Result<u32, UniqueIndexSetAcquireFailure>
    ensures { IfOk result (λ index. IsHeld set.new index) }
{
    let index = set.acquire_raw_index()?;
    table[index as usize] = true;
    Ok(index)
}

/// The same while a guard holds it.
pub fn reads_its_place(
    set: &mut FixedSizeUniqueIndexSet<4>,
    table: &[u64; 4],
) -> Result<u64, UniqueIndexSetAcquireFailure>
    ensures { set.new ≡ set.old }
{
    let index = set.acquire()?;
    Ok(table[index.value() as usize])
}

/// What is packed into a word comes out of it.
pub fn packed_and_unpacked(details: HeadDetails) -> HeadDetails
    requires head_fits { details.head < 2 ^ 24 }
    requires borrowed_indices_fit { details.borrowed_indices < 2 ^ 24 }
    ensures { result ≡ details }
{
    HeadDetails::from(details.value())
}

/// An index that was just taken is given back.
pub fn taken_for_and_given_back(
    set: &mut RobustUniqueIndexSet,
    owner: OwnerId,
) -> Result<ReleaseState, UniqueIndexSetAcquireFailure> {
    let index = set.acquire(owner)?;
    Ok(set.release(index, ReleaseMode::LockIfLastIndex))
}

/// The first index of an owner is found and given back.
pub fn found_and_given_back(
    set: &mut RobustUniqueIndexSet,
    owner: OwnerId,
) -> Option<ReleaseState> {
    let index = set.find(|other| other == owner)?;
    Some(set.release(index, ReleaseMode::Default))
}

/// An index that was taken has its place in a table, and one that is found is given back.
pub fn marks_what_it_finds(
    set: &mut StaticRobustUniqueIndexSet<4>,
    owner: OwnerId,
    table: &mut [bool; 4],
) -> Result<Option<ReleaseState>, UniqueIndexSetAcquireFailure> {
    let index = set.acquire(owner)?;
    table[index as usize] = true;
    let Some(found) = set.find(|other| other == owner) else {
        return Ok(None);
    };
    Ok(Some(set.release(found, ReleaseMode::Default)))
}

/// Any number but the greatest is an owner.
pub fn seventh() -> OwnerId
    ensures { result ≡ 7 }
{
    OwnerId::new(7).unwrap()
}

/// An owner has nothing any more once all of it is recovered.
pub fn recovers_all(set: &mut RobustUniqueIndexSet, owner: OwnerId)
    ensures { (index : ℕ) → owner_of set.new index ≢ Some owner }
{
    set.recover(owner, |_| true, ReleaseMode::Default);
}

/// What is found for an owner is its own, where the closure names the owner.
pub fn finds_its_own(set: &RobustUniqueIndexSet) -> Option<u32>
    ensures { IfSome result (λ index. owner_of set.now index ≡ Some 7) }
{
    set.find(|other| other == seventh())
}

/// Nothing of that owner is found once all of it is recovered.
pub fn finds_nothing_recovered(set: &mut RobustUniqueIndexSet) -> Option<u32>
    ensures { result ≡ None }
{
    set.recover(seventh(), |_| true, ReleaseMode::Default);
    set.find(|other| other == seventh())
}
