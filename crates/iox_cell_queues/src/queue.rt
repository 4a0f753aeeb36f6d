//! The parties of a queue of values: number 0 pushes and looks at fullness, number 1 pops and looks
//! at emptiness.
ghost use Rattle.std.specs.Prelude.{◌≡◌, ◌+◌, ◌^◌, ◌<◌};
ghost use Rattle.iox_cell_queues.specs.Cells.{size};
ghost use Rattle.iox_cell_queues.specs.CellPartySides.{IsSideReady, IsSideReady-prop};

use crate::side::{CellPopping, CellPushing};
use crate::site::CellSite;
use std::alloc::AllocError;

/// One of the two parties of a queue of values of `WIDTH` words.
#[derive(Clone, Copy)]
pub enum CellSide<T, const WIDTH: usize> {
    /// the party that pushes and looks at fullness
    Pusher(CellPushing<T>),
    /// the party that pops and looks at emptiness
    Popper(CellPopping<WIDTH>),
}

/// What a party of a queue can be asked to do.
#[derive(Clone, Copy)]
pub enum CellCall<T> {
    /// of the pusher: pushes the value
    Push(T),
    /// of the pusher: is the queue full?
    IsFull,
    /// of the popper: takes the oldest value, if one is there
    Pop,
    /// of the popper: is the queue empty?
    IsEmpty,
}

/// A party of the queue that stands at a place among shared words. `WIDTH` is how many words a
/// value of the type has.
pub struct CellParty<T, const WIDTH: usize> {
    /// where its queue stands
    pub site: CellSite,
    /// which party it is, and where it is in its call
    pub side: CellSide<T, WIDTH>,
    // the queue's words have places below 2^64
    pub ghost in_memory: { site.base + size site < 2 ^ 64 },
    // a cell has `WIDTH` words
    pub ghost wide: { site.width ≡ WIDTH },
    // the word that its call stores or loads next is in memory
    pub ghost ready: { IsSideReady site side } by { IsSideReady-prop site side },
}

impl<T: Copy, const WIDTH: usize> Clone for CellParty<T, WIDTH> {
    fn clone(&self) -> Result<CellParty<T, WIDTH>, AllocError> {
        Ok(*self)
    }
}

impl<T: Copy, const WIDTH: usize> Copy for CellParty<T, WIDTH> {}
