//! Calls as accesses to single words, and a machine that plays any schedule of them: of queues, and
//! in their modules of bits, counts and values. `push`, `pop`, `is_full` and `is_empty` are whole
//! calls on the words of a queue. A `StoredQueue` keeps its two parties in memory and writes down
//! no events.
pub use iox_queue_calls::{holds_when_empty, is_empty, is_full, pop, push, queues_apart_stay};
pub use iox_queue_steps::{
    Call, QueueMachine, QueueParty, Side, StepAnswer, StoredPopper, StoredPusher, StoredQueue,
};
pub use iox_set_steps::{
    bit_set, counting_bit_set, replies_tell_of_their_own_bit, replies_tell_of_their_own_count,
    replies_tell_of_their_own_value, unrestricted_atomic,
};
pub use iox_steps::{
    Access, EmptyLook, Entry, FullLook, Machine, MachineError, MachineParty, Next, Party, Pop,
    Popping, Progress, Push, PushReply, Pushing, QueueEvent, QueueKind, QueueReply, Site,
    every_access_keeps_the_queue, perform, queues_apart_stay_apart, tell, tell_event,
};

/// A queue of values of several words as accesses: its machine, and whole calls on its words.
pub mod cells {
    pub use iox_cell_queues::whole::{holds_when_empty, is_empty, is_full, pop, push};
    pub use iox_cell_queues::{
        CellCall, CellEvent, CellMachine, CellParty, CellPop, CellPopping, CellPush, CellPushing,
        CellReply, CellSide, CellSite, every_access_keeps_the_queue, every_access_keeps_the_values,
        queues_apart_stay, swapped_stores_break_the_queue, values_are_kept_until_published,
    };
}
