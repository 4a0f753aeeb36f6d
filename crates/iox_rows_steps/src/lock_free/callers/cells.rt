//! Callers of the machine of a queue of values of any type, proved only from its clauses.
ghost use Rattle.std.specs.Prelude.{◌≡◌, ◌+◌, ◌≤◌, ◌++◌, [], ◌∷◌, IfOk, length};
ghost use Rattle.iceoryx2_bb_lock_free.specs.CellContents.{values};
ghost use Rattle.iceoryx2_bb_lock_free.specs.CellQueues.{CellInvariant, IsEmptyAt};
ghost use Rattle.iceoryx2_bb_lock_free.specs.CellEventLists.{published, departed};
ghost use Rattle.iceoryx2_bb_lock_free.specs.CellSizes.{PartyFits};
ghost use Rattle.iceoryx2_bb_lock_free.specs.Cells.{size};

use iceoryx2_bb_lock_free::Words;
use iceoryx2_bb_lock_free::machine::cells::{CellCall, CellMachine, CellSite};
use iceoryx2_bb_lock_free::machine::{Entry, MachineError};
use std::alloc::Global;

/// Plays a schedule at an empty queue of values of any type. Whatever the schedule, the values that
/// were handed out and then those that wait in the words are, in order, the values published.
pub fn cells_played<T: Words, const WIDTH: usize>(
    alloc: Global,
    words: Vec<u64>,
    place: CellSite,
    schedule: &[Entry<CellCall<T>>],
) -> Result<CellMachine<T, WIDTH>, MachineError>
    requires room { place.base + size place ≤ length words.items }
    requires empty { IsEmptyAt place words.items }
    requires wide { place.width ≡ WIDTH }
    requires words { T.WORDS ≡ WIDTH }
    requires fits { PartyFits T.row WIDTH.row }
    ensures order { IfOk result (λ machine. published machine.events
        ≡ departed machine.events ++ values T.Words place machine.words) }
    ensures bounded { IfOk result (λ machine. length (values T.Words place machine.words)
        ≤ place.capacity) }
    ensures queue { IfOk result (λ machine. CellInvariant T.Words machine) }
{
    let Ok(mut machine) = CellMachine::new(alloc, words, place) else {
        return Err(MachineError::WantOfMemory);
    };
    machine.run(schedule)?;
    machine.holds();
    Ok(machine)
}

/// A push of 7 on an empty queue of one value and a pop by the other party, access by access: the
/// pop hands out 7.
pub fn seven_handed_out(alloc: Global) -> Result<CellMachine<u64, 1>, MachineError>
    ensures pushed { IfOk result (λ machine. published machine.events ≡ 7 ∷ []) }
    ensures left { IfOk result (λ machine. departed machine.events ≡ 7 ∷ []) }
{
    let Ok(words) = vec![in alloc; 0u64; 3] else {
        return Err(MachineError::WantOfMemory);
    };
    let place = CellSite {
        base: 0,
        capacity: 1,
        width: 1,
    };
    CellMachine::played(
        alloc,
        words,
        place,
        &[
            Entry::Begin(0, CellCall::Push(7)),
            Entry::Step(0),
            Entry::Step(0),
            Entry::Step(0),
            Entry::Step(0),
            Entry::Begin(1, CellCall::Pop),
            Entry::Step(1),
            Entry::Step(1),
            Entry::Step(1),
            Entry::Step(1),
        ],
    )
}
