//! A program over the plain queue: what the queue answers is proved.
#![tactic(auto)]

ghost use Rattle.std.specs.Prelude.{◌≡◌, [], ◌∷◌, IfOk, Some, None};

use iceoryx2_bb_lock_free::spsc::safely_overflowing_index_queue::{
    SafelyOverflowingIndexQueue, SafelyOverflowingIndexQueueNewError,
};
use std::alloc::Global;
use std::io;

/// What three pushes into a queue of two values answer: the third hands back the oldest.
fn answers(alloc: Global) -> Result<[Option<u64>; 3], SafelyOverflowingIndexQueueNewError>
    ensures { IfOk result (λ answers. answers ≡ None ∷ None ∷ Some 1 ∷ []) }
{
    let mut queue = SafelyOverflowingIndexQueue::new(alloc, 2)?;
    Ok([queue.push(1), queue.push(2), queue.push(3)])
}

fn main(rt: HostRuntime) -> io::Result<()> {
    let Ok(answers) = answers(rt.alloc()) else {
        return println!(rt; "there is no memory");
    };
    for answer in answers {
        match answer {
            Some(oldest) => println!(rt; "handed back {oldest}")?,
            None => println!(rt; "pushed")?,
        }
    }
    Ok(())
}
