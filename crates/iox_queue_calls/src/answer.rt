//! What a reply says where the call is known.
ghost use Rattle.std.specs.Prelude.{◌≡◌};
ghost use Rattle.iox_steps.specs.declared.side.QueueReply.TheVariants as reply;
ghost use Rattle.iox_queue_calls.specs.Replies.{IsOfFullLook, IsOfPop, IsOfEmptyLook};

use iox_steps::QueueReply;

/// Of a look at fullness: is the queue full?
#[inline]
pub(crate) fn of_full_look(said: QueueReply) -> bool
    requires { IsOfFullLook said }
    ensures { said ≡ reply.Full result }
{
    match said {
        QueueReply::Full(full) => full,
        _ => unreachable!(),
    }
}

/// Of a pop: the value that waited longest.
#[inline]
pub(crate) fn of_pop(said: QueueReply) -> Option<u64>
    requires { IsOfPop said }
    ensures { said ≡ reply.Popped result }
{
    match said {
        QueueReply::Popped(out) => out,
        _ => unreachable!(),
    }
}

/// Of a look at emptiness: does nothing wait?
#[inline]
pub(crate) fn of_empty_look(said: QueueReply) -> bool
    requires { IsOfEmptyLook said }
    ensures { said ≡ reply.Empty result }
{
    match said {
        QueueReply::Empty(empty) => empty,
        _ => unreachable!(),
    }
}
