//! Whole calls: a party begins, and no other party makes an access until its call ends.
ghost use Rattle.std.specs.Prelude.{◌≡◌, ◌+◌, ◌-◌, ◌^◌, ◌<◌, ◌≤◌, [], length};
ghost use Rattle.iox_steps.specs.Accesses.{KeepsOutside};
ghost use Rattle.iox_cell_queues.specs.declared.event.CellReply.TheVariants as reply;
ghost use Rattle.iox_cell_queues.specs.Cells.{size};
ghost use Rattle.iox_cell_queues.specs.CellQueues.{IsEmptyAt};
ghost use Rattle.iox_cell_queues.specs.CellSizes.{PartyFits};
ghost use Rattle.iox_cell_queues.specs.Lists.{values, queue_at, HoldsQueue};
ghost use Rattle.iox_cell_queues.specs.Alone.{EndsAfter, EndsWithin, IsEndOf, full_looker, empty_looker};
ghost use Rattle.iox_cell_queues.specs.Calls.{PushesAt, MakesPush, PopsAt, MakesPop, LooksFull, LooksEmpty};

use crate::answer::{of_empty_look, of_full_look, of_pop, of_push};
use crate::event::CellReply;
use crate::pop::CellPop;
use crate::push::CellPush;
use crate::queue::{CellParty, CellSide};
use crate::side::{CellPopping, CellPushing};
use crate::site::CellSite;
use iox_steps::{EmptyLook, FullLook, Party, Progress, perform};
use iox_words::Words;

/// Words with two equal positions are those of an empty queue, at whatever position it is.
pub fn holds_when_empty<T: Words>(words: &Vec<u64>, site: CellSite)
    requires room { site.base + size site ≤ length words.now.items }
    requires empty { IsEmptyAt site words.now.items }
    ensures holds { HoldsQueue T.Words site words.now.items }
    ensures waiting { values T.Words site words.now.items ≡ [] }
{}

/// A push, which says whether there was room. It answers and leaves what the program does in two
/// accesses where nothing is pushed, else in three and one for each word.
#[inline]
pub fn push<T: Words, const WIDTH: usize>(words: &mut Vec<u64>, site: CellSite, value: T) -> bool
    requires holds { HoldsQueue T.Words site words.old.items }
    requires wide { site.width ≡ WIDTH }
    requires words { T.WORDS ≡ WIDTH }
    requires fits { PartyFits T.row WIDTH.row }
    ensures queue { PushesAt T.Words site words.old.items value result words.new.items }
    ensures accesses { MakesPush T.Words site words.old.items WIDTH value result words.new.items }
    ensures holds { HoldsQueue T.Words site words.new.items }
    ensures outside { KeepsOutside site.base (size site) words.old.items words.new.items }
{
    value.known();
    let side = CellSide::Pusher(CellPushing::Pushes(CellPush::LoadsWrite(value)));
    of_push(finish(words, CellParty::<T, WIDTH> { site, side }))
}

/// A look at fullness. It answers and leaves what the program does in two accesses.
#[inline]
pub fn is_full<T: Words, const WIDTH: usize>(words: &mut Vec<u64>, site: CellSite) -> bool
    requires holds { HoldsQueue T.Words site words.old.items }
    requires wide { site.width ≡ WIDTH }
    requires fits { PartyFits T.row WIDTH.row }
    ensures queue { LooksFull (queue_at T.Words site words.old.items) result }
    ensures accesses { EndsAfter T.Words 2 site words.old.items
        (full_looker T WIDTH) (reply.Full result) words.new.items }
    ensures unchanged { words.new.items ≡ words.old.items }
{
    let side = CellSide::Pusher(CellPushing::Looks(FullLook::LoadsWrite));
    of_full_look(finish(words, CellParty::<T, WIDTH> { site, side }))
}

/// A pop. It answers and leaves what the program does in two accesses where nothing waits, else in
/// three and one for each word.
#[inline]
pub fn pop<T: Words, const WIDTH: usize>(words: &mut Vec<u64>, site: CellSite) -> Option<T>
    requires holds { HoldsQueue T.Words site words.old.items }
    requires wide { site.width ≡ WIDTH }
    requires fits { PartyFits T.row WIDTH.row }
    ensures queue { PopsAt T.Words site words.old.items result words.new.items }
    ensures accesses { MakesPop T.Words site words.old.items WIDTH result words.new.items }
    ensures holds { HoldsQueue T.Words site words.new.items }
    ensures outside { KeepsOutside site.base (size site) words.old.items words.new.items }
{
    let side = CellSide::Popper(CellPopping::Pops(CellPop::LoadsRead));
    of_pop(finish(words, CellParty::<T, WIDTH> { site, side }))
}

/// A look at emptiness. It answers and leaves what the program does in two accesses.
#[inline]
pub fn is_empty<T: Words, const WIDTH: usize>(words: &mut Vec<u64>, site: CellSite) -> bool
    requires holds { HoldsQueue T.Words site words.old.items }
    requires wide { site.width ≡ WIDTH }
    requires fits { PartyFits T.row WIDTH.row }
    ensures queue { LooksEmpty (queue_at T.Words site words.old.items) result }
    ensures accesses { EndsAfter T.Words 2 site words.old.items
        (empty_looker T WIDTH) (reply.Empty result) words.new.items }
    ensures unchanged { words.new.items ≡ words.old.items }
{
    let side = CellSide::Popper(CellPopping::Looks(EmptyLook::LoadsRead));
    of_empty_look(finish(words, CellParty::<T, WIDTH> { site, side }))
}

/// Answers what the call answers, and leaves what it leaves.
#[inline]
fn finish<T: Words, const WIDTH: usize>(
    words: &mut Vec<u64>,
    party: CellParty<T, WIDTH>,
) -> CellReply<T>
    requires room { party.site.base + size party.site ≤ length words.old.items }
    requires soon { EndsWithin T.Words (2 ^ 64 - 1) party.site words.old.items party.side }
    ensures { IsEndOf T.Words party.site words.old.items party.side result words.new.items }
{
    let mut party = party;
    for step in 0..u64::MAX {
        let _step = step;
        let access = party.access();
        let seen = perform(words, access);
        match party.advance(seen) {
            Progress::Going => {}
            Progress::Done(reply) => return reply,
        }
    }
    unreachable!()
}
