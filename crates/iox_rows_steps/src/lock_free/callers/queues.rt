//! Callers of the machine of a queue of numbers, proved only from its clauses.
ghost use Rattle.std.specs.Prelude.{◌≡◌, ◌+◌, ◌<◌, ◌≤◌, ◌++◌, [], ◌∷◌, IfOk, Some, length, slice_index};
ghost use Rattle.iceoryx2_bb_lock_free.specs.Contents.{values};
ghost use Rattle.iceoryx2_bb_lock_free.specs.Machines.{IsInterleaving};
ghost use Rattle.iceoryx2_bb_lock_free.specs.QueueEntries.{waiting_of};
ghost use Rattle.iceoryx2_bb_lock_free.specs.Queues.{QueueInvariant, new_machine};
ghost use Rattle.iceoryx2_bb_lock_free.specs.EventLists.{published, departed};
ghost use Rattle.iceoryx2_bb_lock_free.specs.Sites.{cells, size};

use iceoryx2_bb_lock_free::machine::{
    Call, Entry, MachineError, Progress, QueueKind, QueueMachine, QueueReply, Site,
};
use std::alloc::Global;

/// Plays a schedule at an empty queue of either kind. Whatever the schedule, the values that left
/// and then those that wait in the words are, in order, the values published.
pub fn played(
    alloc: Global,
    words: Vec<u64>,
    site: Site,
    schedule: &[Entry<Call>],
) -> Result<QueueMachine, MachineError>
    requires room { site.base + size site ≤ length words.items }
    requires empty { slice_index words.items site.base ≡ slice_index words.items (site.base + 1) }
    requires some { site.kind ≡ QueueKind.Overflowing → 0 < site.capacity }
    ensures queue { IfOk result (λ machine. QueueInvariant machine) }
    ensures happened { IfOk result (λ machine.
        IsInterleaving (new_machine words.items site) machine) }
    ensures order { IfOk result (λ machine. published machine.events
        ≡ departed [] machine.events ++ values site machine.words) }
    ensures bounded { IfOk result (λ machine. length (values site machine.words) ≤ cells site) }
{
    let Ok(mut machine) = QueueMachine::new(alloc, words, site) else {
        return Err(MachineError::WantOfMemory);
    };
    machine.run(schedule)?;
    machine.holds();
    Ok(machine)
}

/// A push of this value and a pop by the other party, one access of each after the other: the pop
/// hands out the value.
pub fn pushed_and_popped(alloc: Global, value: u64) -> Result<Progress<QueueReply>, MachineError>
    ensures { IfOk result (λ reply. reply ≡ Progress.Done (QueueReply.Popped (Some value))) }
{
    let Ok(words) = vec![in alloc; 0u64; 3] else {
        return Err(MachineError::WantOfMemory);
    };
    let site = Site {
        kind: QueueKind::Index,
        base: 0,
        capacity: 1,
    };
    let Ok(mut machine) = QueueMachine::new(alloc, words, site) else {
        return Err(MachineError::WantOfMemory);
    };
    machine.run(&[
        Entry::Begin(0, Call::Push(value)),
        Entry::Step(0),
        Entry::Step(0),
        Entry::Step(0),
        Entry::Step(0),
        Entry::Begin(1, Call::Pop),
        Entry::Step(1),
        Entry::Step(1),
        Entry::Step(1),
    ])?;
    machine.step(1)
}

/// Two pushes on an overflowing queue of one value and then a pop, access by access: the older
/// value is pushed out, and the newer one popped.
pub fn both_left(alloc: Global, older: u64, newer: u64) -> Result<QueueMachine, MachineError>
    ensures pushed { IfOk result (λ machine. published machine.events ≡ older ∷ newer ∷ []) }
    ensures left { IfOk result (λ machine. departed [] machine.events ≡ older ∷ newer ∷ []) }
    ensures order { IfOk result (λ machine. published machine.events
        ≡ departed [] machine.events ++ waiting_of machine) }
{
    let Ok(words) = vec![in alloc; 0u64; 4] else {
        return Err(MachineError::WantOfMemory);
    };
    let site = Site {
        kind: QueueKind::Overflowing,
        base: 0,
        capacity: 1,
    };
    let Ok(mut machine) = QueueMachine::new(alloc, words, site) else {
        return Err(MachineError::WantOfMemory);
    };
    machine.run(&[
        Entry::Begin(0, Call::Push(older)),
        Entry::Step(0),
        Entry::Step(0),
        Entry::Step(0),
        Entry::Step(0),
        Entry::Begin(0, Call::Push(newer)),
        Entry::Step(0),
        Entry::Step(0),
        Entry::Step(0),
        Entry::Step(0),
        Entry::Step(0),
        Entry::Step(0),
        Entry::Begin(1, Call::Pop),
        Entry::Step(1),
        Entry::Step(1),
        Entry::Step(1),
        Entry::Step(1),
    ])?;
    Ok(machine)
}
