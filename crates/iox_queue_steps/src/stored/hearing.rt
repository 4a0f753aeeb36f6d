//! Who hears what the accesses of a party do.
ghost use Rattle.std.specs.Prelude.{◌≡◌, ◌<◌, ◌++◌, vec_len};
ghost use Rattle.std.specs.Option.{option_to_list};
ghost use Rattle.std.specs.Vec.{vec_capacity};
ghost use Rattle.iox_steps.specs.declared.side.QueueEvent.{QueueEvent};
ghost use Rattle.iox_steps.specs.EventLists.{told};

use iox_steps::{QueueEvent, tell_event};

/// One who hears of each access what it does to the queue, or sees there.
pub(crate) trait Hears {
    /// may it hear one more?
    ghost can_hear: { Self → Type 0 };

    /// what it is once it heard an event
    ghost heard: { Self → QueueEvent → Self → Type 0 };

    fn hear(&mut self, event: QueueEvent)
        requires { can_hear self.old }
        ensures { heard self.old event self.new };
}

/// Who listens to no event.
#[derive(Drop)]
pub(crate) struct Nobody;

impl Hears for Nobody {
    ghost can_hear = { λ nobody. Unit {0} };

    ghost heard = { λ nobody event after. Unit {0} };

    #[inline(always)]
    fn hear(&mut self, _event: QueueEvent) {}
}

/// Events that have room for one more write the event down, unless it is quiet.
impl Hears for Vec<QueueEvent> {
    ghost can_hear = { λ events. vec_len events < vec_capacity events };

    ghost heard = { λ events event after.
        after.items ≡ events.items ++ option_to_list (told event) };

    #[inline(always)]
    fn hear(&mut self, event: QueueEvent) {
        tell_event(self, event);
    }
}
