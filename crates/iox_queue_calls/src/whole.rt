//! Whole calls: a party begins, and no other party makes an access until its call ends.
ghost use Rattle.std.specs.Prelude.{◌≡◌, ◌+◌, ◌<◌, ◌≤◌, [], length};
ghost use Rattle.iox_steps.specs.declared.side.QueueReply.TheVariants as reply;
ghost use Rattle.iox_steps.specs.Accesses.{KeepsOutside};
ghost use Rattle.iox_steps.specs.Sites.{size};
ghost use Rattle.iox_queue_steps.specs.Queues.{IsEmptyAt};
ghost use Rattle.iox_queue_calls.specs.Lists.{values, queue_at, HoldsQueue};
ghost use Rattle.iox_queue_calls.specs.Alone.{EndsAfter, EndsWithin, IsEndOf, full_looker, empty_looker};
ghost use Rattle.iox_queue_calls.specs.Calls.{PushesAt, MakesPush, PopsAt, MakesPop, LooksFull, LooksEmpty};

use crate::answer::{of_empty_look, of_full_look, of_pop};
use iox_queue_steps::Side;
use iox_steps::{
    EmptyLook, FullLook, Pop, Popping, Progress, Push, Pushing, QueueKind, QueueReply, Site,
    perform,
};

/// Words with two equal positions are those of an empty queue, at whatever position it is.
pub fn holds_when_empty(words: &Vec<u64>, site: Site)
    requires room { site.base + size site ≤ length words.now.items }
    requires empty { IsEmptyAt site words.now.items }
    requires some { site.kind ≡ QueueKind.Overflowing → 0 < site.capacity }
    ensures holds { HoldsQueue site words.now.items }
    ensures waiting { values site words.now.items ≡ [] }
{
    let _position = words[site.base];
}

/// A push. It answers and leaves what the program does in four accesses; in two where nothing is
/// pushed, and in six where the oldest goes.
#[inline(always)]
pub fn push(words: &mut Vec<u64>, site: Site, value: u64) -> QueueReply
    requires { HoldsQueue site words.old.items }
    ensures queue { PushesAt site words.old.items value result words.new.items }
    ensures accesses { MakesPush site words.old.items value result words.new.items }
    ensures holds { HoldsQueue site words.new.items }
    ensures outside { KeepsOutside site.base (size site) words.old.items words.new.items }
{
    finish(
        words,
        site,
        Side::Pusher(Pushing::Pushes(Push::LoadsWrite(value))),
    )
}

/// A look at fullness. It answers and leaves what the program does in two accesses.
#[inline(always)]
pub fn is_full(words: &mut Vec<u64>, site: Site) -> bool
    requires { HoldsQueue site words.old.items }
    ensures queue { LooksFull (queue_at site words.old.items) result }
    ensures accesses { EndsAfter 2 site words.old.items full_looker
        (reply.Full result) words.new.items }
    ensures unchanged { words.new.items ≡ words.old.items }
{
    of_full_look(finish(
        words,
        site,
        Side::Pusher(Pushing::Looks(FullLook::LoadsWrite)),
    ))
}

/// A pop. It answers and leaves what the program does in four accesses, and in two where nothing
/// waits.
#[inline(always)]
pub fn pop(words: &mut Vec<u64>, site: Site) -> Option<u64>
    requires { HoldsQueue site words.old.items }
    ensures queue { PopsAt site words.old.items result words.new.items }
    ensures accesses { MakesPop site words.old.items result words.new.items }
    ensures holds { HoldsQueue site words.new.items }
    ensures outside { KeepsOutside site.base (size site) words.old.items words.new.items }
{
    of_pop(finish(words, site, Side::Popper(Popping::Pops(Pop::LoadsRead))))
}

/// A look at emptiness. It answers and leaves what the program does in two accesses.
#[inline(always)]
pub fn is_empty(words: &mut Vec<u64>, site: Site) -> bool
    requires { HoldsQueue site words.old.items }
    ensures queue { LooksEmpty (queue_at site words.old.items) result }
    ensures accesses { EndsAfter 2 site words.old.items empty_looker
        (reply.Empty result) words.new.items }
    ensures unchanged { words.new.items ≡ words.old.items }
{
    of_empty_look(finish(
        words,
        site,
        Side::Popper(Popping::Looks(EmptyLook::LoadsRead)),
    ))
}

/// Answers what the call answers, and leaves what it leaves.
#[inline(always)]
fn finish(words: &mut Vec<u64>, site: Site, side: Side) -> QueueReply
    requires room { site.base + size site ≤ length words.old.items }
    requires soon { EndsWithin 6 site words.old.items side }
    ensures { IsEndOf site words.old.items side result words.new.items }
{
    let _length = words.len();
    let mut party = side;
    for step in 0..6u64 {
        let _step = step;
        let access = party.access(site);
        let seen = perform(words, access);
        match party.advance(site, seen) {
            Progress::Going => {}
            Progress::Done(reply) => return reply,
        }
    }
    unreachable!()
}
