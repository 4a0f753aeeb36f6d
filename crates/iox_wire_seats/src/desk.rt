//! What a node keeps of one of its ports.
ghost use Rattle.std.specs.Prelude.{◌≡◌, ◌<◌, ◌≤◌, ◌+◌, ◌^◌, ◌||◌, IfOk, slice_index, length, replicate};
ghost use Rattle.std.specs.List.{range_with_len};
ghost use Rattle.std.specs.VecDeque.{deque_capacity};
ghost use Rattle.iox_model.specs.declared.kind.Kind.TheVariants.{PendingResponse};
ghost use Rattle.iox_model.specs.Handles.{is_request_loan, same_kind};
ghost use Rattle.iox_wire_locals.specs.Desks.{counts_loan, gives_up, uses_less, uses_more};
ghost use Rattle.iox_wire_seats.specs.Slots.{new_desk};

mod count;
mod deliver;
mod lend;
mod loans;

use crate::records::Records;
use iox_model::kind::Kind;
use iox_wire_locals::Entry;
use std::alloc::{AllocError, Global};
use std::collections::VecDeque;
use std::marker::Model;

/// What a node keeps of one of its ports. Only `new` and `add_way` take memory.
#[derive(Drop)]
pub struct StoredDesk {
    port: u64,
    loans: u64,
    serials: Vec<u64>,
    uses: Vec<u64>,
    free: VecDeque<u64>,
    free_lanes: VecDeque<u64>,
    recorded: Records,
}

impl Model for StoredDesk {
    ghost use Rattle.std.specs.Prelude.{length};
    ghost use Rattle.std.specs.VecDeque.{deque_capacity};
    ghost use Rattle.iox_wire_locals.specs.declared.table.Desk.{Desk};
    ghost use Rattle.iox_wire_seats.specs.Slots.{AreFreeSlots, HasRoomForLanes, HasSerials, MayBePicked};
    ghost use Rattle.iox_wire_seats.specs.Records.{NotesHaveRoom, recorded_in};

    ghost Value = { Desk };

    ghost view = { λ d. record {
      port = d.port;
      loans = d.loans;
      serials = d.serials.items;
      uses = d.uses.items;
      free = d.free.items;
      free_lanes = d.free_lanes.items;
      recorded = recorded_in d.recorded;
    } };

    ghost invariant = { λ d. AreFreeSlots d.uses.items d.free.items (deque_capacity d.free)
        × HasRoomForLanes d.uses.items (deque_capacity d.free_lanes)
        × MayBePicked d.uses.items d.free.items × HasSerials d.serials.items d.uses.items
        × NotesHaveRoom (length d.uses.items) d.recorded };
}

impl StoredDesk {
    /// A port that lent nothing yet, with so many slots and lanes, and no ways to send on.
    pub fn new(
        alloc: Global,
        port: u64,
        pool: usize,
        lanes: usize,
    ) -> Result<StoredDesk, AllocError>
        requires { lanes ≤ pool }
        ensures { IfOk result (λ d. d ≡ new_desk port pool lanes) }
    {
        Ok(StoredDesk {
            port,
            loans: 0,
            serials: zeros(alloc, pool)?,
            uses: zeros(alloc, pool)?,
            free: numbers(alloc, pool, pool)?,
            free_lanes: numbers(alloc, lanes, pool)?,
            recorded: Records::new(alloc),
        })
    }

    /// The port.
    #[inline(always)]
    pub fn port(&self) -> u64
        ensures { result ≡ self.now.port }
    {
        self.port
    }

    /// One more loan succeeded.
    pub fn count_loan(&mut self)
        requires { self.old.loans + 1 < 2 ^ 64 }
        ensures { self.new ≡ counts_loan self.old }
    {
        self.loans += 1;
    }

    /// A slot has one use more.
    pub fn use_more(&mut self, slot: usize)
        requires used { 0 < slice_index self.old.uses slot }
        requires fits { slice_index self.old.uses slot + 1 < 2 ^ 64 }
        ensures { self.new ≡ uses_more slot self.old }
    {
        self.uses[slot] += 1;
    }

    /// A slot has one use less. Without one it is free.
    pub fn use_less(&mut self, slot: usize)
        requires { 0 < slice_index self.old.uses slot }
        ensures uses { self.new ≡ uses_less slot self.old }
    {
        self.uses[slot] -= 1;
        if self.uses[slot] == 0 && self.free.push_back(slot as u64).is_err() {
            unreachable!();
        }
    }

    /// A message of the port's own is given up: its slot has one use less, and its lane is free.
    pub fn give_up(&mut self, entry: Entry)
        requires used { 0 < slice_index self.old.uses entry.slot }
        requires lanes { length self.old.free_lanes < length self.old.uses }
        ensures { self.new ≡ gives_up entry self.old }
    {
        if has_lane(entry.kind) && self.free_lanes.push_back(entry.lane).is_err() {
            unreachable!();
        }
        self.use_less(entry.slot as usize);
    }
}

/// So many zeros.
fn zeros(alloc: Global, count: usize) -> Result<Vec<u64>, AllocError>
    ensures { IfOk result (λ v. v.items ≡ replicate count 0) }
{
    vec![in alloc; 0u64; count]
}

/// The numbers below that one, with room for so many.
fn numbers(alloc: Global, count: usize, room: usize) -> Result<VecDeque<u64>, AllocError>
    requires { count ≤ room }
    ensures numbers { IfOk result (λ q. q.items ≡ range_with_len 0 count) }
    ensures room { IfOk result (λ q. room ≤ deque_capacity q) }
{
    let mut numbers = VecDeque::with_capacity(alloc, room)?;
    for number in 0..count {
        numbers.push_back(number as u64)?;
    }
    Ok(numbers)
}

/// Whether a handle of that kind has a lane: a loaned request, or a pending response.
fn has_lane(kind: Kind) -> bool
    ensures { result ≡ (is_request_loan kind || same_kind kind PendingResponse) }
{
    matches!(
        kind,
        Kind::RequestMut | Kind::RequestMutUninit | Kind::PendingResponse
    )
}
