//! A program over the machine of a queue: a push and a pop, one access after another.
#![tactic(auto)]

ghost use Rattle.std.specs.Prelude.{◌≡◌, ◌++◌, [], IfOk};
ghost use Rattle.iceoryx2_bb_lock_free.specs.QueueEntries.{waiting_of};
ghost use Rattle.iceoryx2_bb_lock_free.specs.EventLists.{published, departed};

use iceoryx2_bb_lock_free::machine::{Call, Entry, MachineError, QueueKind, QueueMachine, Site};
use std::alloc::Global;
use std::io;

/// Plays a schedule at an empty queue of one value. Whatever the schedule, the values that left,
/// and then those that wait, are those that were pushed.
fn played(alloc: Global, schedule: &[Entry<Call>]) -> Result<QueueMachine, MachineError>
    ensures { IfOk result (λ machine. published machine.events
        ≡ departed [] machine.events ++ waiting_of machine) }
{
    let Ok(words) = vec![in alloc; 0u64; 3] else {
        return Err(MachineError::WantOfMemory);
    };
    let site = Site {
        kind: QueueKind::Index,
        base: 0,
        capacity: 1,
    };
    let Ok(mut machine) = QueueMachine::new(alloc, words, site) else {
        return Err(MachineError::WantOfMemory);
    };
    machine.run(schedule)?;
    Ok(machine)
}

/// The pop loads the read position before the push publishes, and the write position after it.
const SCHEDULE: [Entry<Call>; 9] = [
    Entry::Begin(0, Call::Push(7)),
    Entry::Begin(1, Call::Pop),
    Entry::Step(1),
    Entry::Step(0),
    Entry::Step(0),
    Entry::Step(0),
    Entry::Step(0),
    Entry::Step(1),
    Entry::Step(1),
];

fn main(rt: HostRuntime) -> io::Result<()> {
    let Ok(machine) = played(rt.alloc(), &SCHEDULE) else {
        return println!(rt; "there is no memory");
    };
    for word in machine.words() {
        println!(rt; "{word}")?;
    }
    Ok(())
}
