//! What a reply says where the call is known.
ghost use Rattle.std.specs.Prelude.{◌≡◌};
ghost use Rattle.iox_cell_queues.specs.declared.event.CellReply.TheVariants as reply;
ghost use Rattle.iox_cell_queues.specs.Replies.{IsOfPush, IsOfFullLook, IsOfPop, IsOfEmptyLook};

use crate::event::CellReply;
use iox_words::Words;

/// Of a push: was there room?
#[inline]
pub(crate) fn of_push<T: Words>(said: CellReply<T>) -> bool
    requires { IsOfPush said }
    ensures { said ≡ reply.Pushed result }
{
    match said {
        CellReply::Pushed(room) => room,
        _ => unreachable!(),
    }
}

/// Of a look at fullness: is the queue full?
#[inline]
pub(crate) fn of_full_look<T: Words>(said: CellReply<T>) -> bool
    requires { IsOfFullLook said }
    ensures { said ≡ reply.Full result }
{
    match said {
        CellReply::Full(full) => full,
        _ => unreachable!(),
    }
}

/// Of a pop: the value that waited longest.
#[inline]
pub(crate) fn of_pop<T: Words>(said: CellReply<T>) -> Option<T>
    requires { IsOfPop said }
    ensures { said ≡ reply.Popped result }
{
    match said {
        CellReply::Popped(out) => out,
        _ => unreachable!(),
    }
}

/// Of a look at emptiness: does nothing wait?
#[inline]
pub(crate) fn of_empty_look<T: Words>(said: CellReply<T>) -> bool
    requires { IsOfEmptyLook said }
    ensures { said ≡ reply.Empty result }
{
    match said {
        CellReply::Empty(empty) => empty,
        _ => unreachable!(),
    }
}
