//! Callers, which are proved only by the clauses of the calls.
ghost use Rattle.std.specs.Prelude.{◌≡◌, ℕ, ◌+◌, [], ◌∷◌, IfOk, IfSome, true, false};
ghost use Rattle.iox_steps.specs.declared.access.Progress.TheVariants.{Done, Going};
ghost use Rattle.iox_set_steps.specs.declared.unrestricted_atomic.AtomicReply.TheVariants.{Stored, Loaded};
ghost use Rattle.iox_set_steps.specs.declared.bit_set.BitEvent.TheVariants as bit_event;
ghost use Rattle.iox_set_steps.specs.declared.counting_bit_set.CountEvent.TheVariants as count_event;
ghost use Rattle.iox_set_steps.specs.declared.unrestricted_atomic.AtomicEvent.TheVariants as atomic_event;
ghost use Rattle.iox_set_steps.specs.Bits.{bit_now, times_cleared, times_set};
ghost use Rattle.iox_set_steps.specs.Counts.{count_now, taken_out, times_added};

use crate::bit_set::{BitCall, BitReply, BitSetMachine, BitSite};
use crate::counting_bit_set::{CountCall, CountReply, CountSite, CountingBitSetMachine};
use crate::unrestricted_atomic::{
    AtomicCall, AtomicMachine, AtomicReply, ValueCall, ValueMachine, ValueReply,
};
use iox_steps::{Entry, MachineError, Progress};
use std::alloc::Global;

/// Whatever was entered, the `set` calls that changed a bit are as many as the times it was
/// cleared, and one more where it is set.
pub fn sets_are_clears(
    bits: &mut BitSetMachine,
    schedule: &[Entry<BitCall>],
) -> Result<(), MachineError>
    ensures { (id : ℕ) → times_set id bits.new.machine.events
        ≡ times_cleared id bits.new.machine.events
        + bit_now bits.new.site bits.new.machine.words id }
{
    bits.run(schedule)
}

/// Two parties set the same bit, and the one that comes first changes it.
pub fn one_of_two_changes_the_bit(
    alloc: Global,
) -> Result<(Progress<BitReply>, Progress<BitReply>), MachineError>
    ensures { IfOk result (λ both. both ≡ (Done (BitReply.Set true), Done (BitReply.Set false))) }
{
    let Ok(words) = vec![in alloc; 0u64; 1] else {
        return Err(MachineError::WantOfMemory);
    };
    let site = BitSite {
        base: 0,
        capacity: 8,
    };
    let Ok(mut bits) = BitSetMachine::new(alloc, words, site, 2) else {
        return Err(MachineError::WantOfMemory);
    };
    bits.begin(0, BitCall::Set(3))?;
    bits.begin(1, BitCall::Set(3))?;
    let first = bits.step(1)?;
    let second = bits.step(0)?;
    Ok((first, second))
}

/// Whatever was entered, as much was added to each count as was taken out and is there.
pub fn added_is_taken_out(
    counts: &mut CountingBitSetMachine,
    schedule: &[Entry<CountCall>],
) -> Result<(), MachineError>
    ensures { (id : ℕ) → times_added id counts.new.machine.events
        ≡ taken_out id counts.new.machine.events
        + count_now counts.new.site counts.new.machine.words id }
{
    counts.run(schedule)
}

/// Two parties add to the same count: the exchange of the one that is later misses, and its next
/// one adds.
pub fn a_missed_exchange_is_tried_again(
    alloc: Global,
) -> Result<
    (
        Progress<CountReply>,
        Progress<CountReply>,
        Progress<CountReply>,
    ),
    MachineError,
>
    ensures { IfOk result (λ all.
        all ≡ (Done (CountReply.Set true), Going, Done (CountReply.Set true))) }
{
    let Ok(words) = vec![in alloc; 0u64; 2] else {
        return Err(MachineError::WantOfMemory);
    };
    let site = CountSite {
        base: 0,
        capacity: 2,
    };
    let Ok(mut counts) = CountingBitSetMachine::new(alloc, words, site, 2) else {
        return Err(MachineError::WantOfMemory);
    };
    counts.begin(0, CountCall::Set(1))?;
    counts.begin(1, CountCall::Set(1))?;
    let _loaded = counts.step(0)?;
    let _loaded = counts.step(1)?;
    let first = counts.step(1)?;
    let missed = counts.step(0)?;
    let second = counts.step(0)?;
    Ok((first, missed, second))
}

/// One access more: where that ends a load, the load answers the value that is current.
pub fn what_a_load_answers(
    value: &mut ValueMachine<u64, 1>,
    party: usize,
) -> Result<Option<u64>, MachineError>
    ensures { IfOk result (λ loaded. IfSome loaded (λ got. got ≡ value.old.value)) }
{
    match value.step(party)? {
        Progress::Done(ValueReply::Loaded(got)) => Ok(Some(got)),
        _ => Ok(None),
    }
}

/// A value is stored, and then loaded.
pub fn what_is_stored_is_loaded(
    alloc: Global,
) -> Result<(Progress<AtomicReply<1>>, Progress<AtomicReply<1>>), MachineError>
    ensures { IfOk result (λ both. both ≡ (Done (Stored true), Done (Loaded (8 ∷ [])))) }
{
    let Ok(words) = vec![in alloc; 0u64; 3] else {
        return Err(MachineError::WantOfMemory);
    };
    let Ok(mut value) = AtomicMachine::<1>::new(alloc, words, 0, 2) else {
        return Err(MachineError::WantOfMemory);
    };
    value.begin(0, AtomicCall::Store([8]))?;
    let _version = value.step(0)?;
    let _word = value.step(0)?;
    let stored = value.step(0)?;
    value.begin(1, AtomicCall::Load)?;
    let _version = value.step(1)?;
    let _word = value.step(1)?;
    let loaded = value.step(1)?;
    Ok((stored, loaded))
}

/// A schedule of two parties: both set the same bit, and then one takes out all that are set. The
/// bit is set once, and handed out once.
pub fn a_bit_is_set_and_taken_out(alloc: Global) -> Result<BitSetMachine, MachineError>
    ensures { IfOk result (λ bits. bits.machine.events
        ≡ bit_event.Set 3 ∷ bit_event.ClearedAll 0 8 ∷ []) }
{
    let Ok(words) = vec![in alloc; 0u64; 1] else {
        return Err(MachineError::WantOfMemory);
    };
    let site = BitSite {
        base: 0,
        capacity: 8,
    };
    let Ok(mut bits) = BitSetMachine::new(alloc, words, site, 2) else {
        return Err(MachineError::WantOfMemory);
    };
    bits.run(&[
        Entry::Begin(0, BitCall::Set(3)),
        Entry::Begin(1, BitCall::Set(3)),
        Entry::Step(1),
        Entry::Step(0),
        Entry::Begin(0, BitCall::ResetAll),
        Entry::Step(0),
    ])?;
    Ok(bits)
}

/// A schedule of two parties: both add to the same count, where one has to try again, and then all
/// counts are taken out.
pub fn two_are_added_and_taken_out(alloc: Global) -> Result<CountingBitSetMachine, MachineError>
    ensures { IfOk result (λ counts. counts.machine.events
        ≡ count_event.Added 1 ∷ count_event.Added 1 ∷ count_event.Taken 1 2 ∷ []) }
{
    let Ok(words) = vec![in alloc; 0u64; 2] else {
        return Err(MachineError::WantOfMemory);
    };
    let site = CountSite {
        base: 0,
        capacity: 2,
    };
    let Ok(mut counts) = CountingBitSetMachine::new(alloc, words, site, 2) else {
        return Err(MachineError::WantOfMemory);
    };
    counts.run(&[
        Entry::Begin(0, CountCall::Set(1)),
        Entry::Begin(1, CountCall::Set(1)),
        Entry::Step(0),
        Entry::Step(1),
        Entry::Step(1),
        Entry::Step(0),
        Entry::Step(0),
        Entry::Begin(1, CountCall::ResetAll),
        Entry::Step(1),
        Entry::Step(1),
    ])?;
    Ok(counts)
}

/// A schedule of two parties: a load begins, a store comes between its accesses, and the load is
/// made again and hands out the value that was stored.
pub fn a_torn_load_is_made_again(alloc: Global) -> Result<AtomicMachine<1>, MachineError>
    ensures { IfOk result (λ value. value.events
        ≡ atomic_event.Stored (8 ∷ []) ∷ atomic_event.Loaded (8 ∷ []) ∷ []) }
{
    let Ok(words) = vec![in alloc; 0u64; 3] else {
        return Err(MachineError::WantOfMemory);
    };
    let Ok(mut value) = AtomicMachine::<1>::new(alloc, words, 0, 2) else {
        return Err(MachineError::WantOfMemory);
    };
    value.run(&[
        Entry::Begin(1, AtomicCall::Load),
        Entry::Step(1),
        Entry::Step(1),
        Entry::Begin(0, AtomicCall::Store([8])),
        Entry::Step(0),
        Entry::Step(0),
        Entry::Step(0),
        Entry::Step(1),
        Entry::Step(1),
        Entry::Step(1),
        Entry::Step(1),
    ])?;
    Ok(value)
}

/// A schedule at a value of one word: it is stored over, and a load hands out what was stored.
pub fn a_value_is_stored_over(alloc: Global) -> Result<ValueMachine<u64, 1>, MachineError>
    ensures { IfOk result (λ value. value.plays.events
        ≡ atomic_event.Stored (8 ∷ []) ∷ atomic_event.Loaded (8 ∷ []) ∷ []) }
{
    let Ok(words) = vec![in alloc; 0u64; 3] else {
        return Err(MachineError::WantOfMemory);
    };
    let Ok(mut value) = ValueMachine::<u64, 1>::new(alloc, words, 0, 5, 2) else {
        return Err(MachineError::WantOfMemory);
    };
    value.run(&[
        Entry::Begin(0, ValueCall::Store(8)),
        Entry::Step(0),
        Entry::Step(0),
        Entry::Step(0),
        Entry::Begin(1, ValueCall::Load),
        Entry::Step(1),
        Entry::Step(1),
        Entry::Step(1),
    ])?;
    Ok(value)
}
