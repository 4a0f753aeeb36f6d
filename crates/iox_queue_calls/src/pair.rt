//! Two queues in one list of words, as a connection has one each way.
ghost use Rattle.iox_queue_calls.specs.Lists.{HoldsQueue};
ghost use Rattle.iox_queue_calls.specs.Calls.{PushesAt, PopsAt};
ghost use Rattle.iox_queue_calls.specs.Apart.{StandApart};

use crate::law::queues_apart_stay;
use crate::whole::{pop, push};
use iox_steps::{QueueReply, Site};

/// A push at the first queue and then a pop at the second, which stands apart from it. Each answers
/// and leaves what it would if the other queue were not there.
pub fn push_and_pop(
    words: &mut Vec<u64>,
    first: Site,
    value: u64,
    second: Site,
) -> (QueueReply, Option<u64>)
    requires apart { StandApart first second }
    requires first { HoldsQueue first words.old.items }
    requires second { HoldsQueue second words.old.items }
    ensures pushed { PushesAt first words.old.items value result.0 words.new.items }
    ensures popped { PopsAt second words.old.items result.1 words.new.items }
    ensures first { HoldsQueue first words.new.items }
    ensures second { HoldsQueue second words.new.items }
{
    queues_apart_stay();
    let said = push(words, first, value);
    let out = pop(words, second);
    (said, out)
}
