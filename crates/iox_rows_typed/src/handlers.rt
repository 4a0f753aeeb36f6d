//! Requests to full servers, of a client whose handler answers by the server.

use crate::exchange::KEEPING;
use crate::expected::equal;
use crate::numbers::{Asker, Numbers, Told, answerer, asker, hub, tell};
use iceoryx2_ports::{
    Backpressure, BackpressureAction, BackpressureInfo, RequestSendError, SendError, Words,
};
use std::alloc::{AllocError, Global};

/// It fails at this server, and passes over each other.
#[derive(Clone, Copy)]
pub struct FailsAt {
    pub server: u64,
}

impl Words for FailsAt {
    ghost use Rattle.std.specs.Prelude.{◌<◌, ◌^◌, option_map, refl};
    ghost use Rattle.std.proofs.Common.{lit≤};
    ghost use Rattle.iceoryx2_ports.specs.Numbers.{IsOneWord, of_one_word, one_word};
    ghost use Rattle.iceoryx2_ports.specs.NumberLaws.{one_word_is_a_number};
    ghost use Rattle.iceoryx2_ports.specs.WordLaws.{AreWords-option_map};

    ghost WORDS = { 1 };

    const WORDS: usize = 1;

    ghost is_value = { λ it. it.server < 2 ^ 64 };

    ghost words = { λ it. one_word it.server };

    ghost is_words = { IsOneWord (2 ^ 64) };

    ghost of_words = { λ list.
        option_map (λ number. record { server = number }) (of_one_word (2 ^ 64) list) };

    fn known(self) {}

    fn word(&self, _index: usize) -> u64 {
        self.server
    }

    fn of_words(list: &[u64]) -> Option<FailsAt> {
        match list {
            [server] => Some(FailsAt { server: *server }),
            _ => None,
        }
    }

    ghost laws = { AreWords-option_map 1 _ _ _ _ _ (λ it. it.server)
        (λ number. record { server = number }) (one_word_is_a_number (2 ^ 64) (lit≤ tt))
        (λ it h. (h, refl)) (λ number h. (h, refl)) };
}

impl Backpressure for FailsAt {
    ghost use Rattle.std.specs.Prelude.{◌==◌, if◌then◌else◌};
    ghost use Rattle.iceoryx2_ports.specs.BackpressureAction.TheVariants.{DiscardData, DiscardDataAndFail};

    ghost action = { λ it sender receiver.
        if receiver == it.server then DiscardDataAndFail else DiscardData };

    fn act(&self, info: &BackpressureInfo) -> BackpressureAction {
        if info.receiver == self.server {
            return BackpressureAction::DiscardDataAndFail;
        }
        BackpressureAction::DiscardData
    }
}

type Handled = Numbers<FailsAt>;

/// What two requests are told at two servers, of which each has room for one.
fn tell_two(alloc: Global, hub: &mut Handled, client: &Asker) -> Option<(Told, Told)> {
    let first = answerer(alloc, hub, None)?;
    let Some(second) = answerer(alloc, hub, None) else {
        first.release(hub);
        return None;
    };
    let told = (tell(hub, client, 5), tell(hub, client, 6));
    first.release(hub);
    second.release(hub);
    Some(told)
}

/// What two requests are told of a client whose handler fails at that server.
fn tell_two_of(alloc: Global, hub: &mut Handled, server: u64) -> Option<(Told, Told)> {
    let client = asker(alloc, hub, Some(FailsAt { server }))?;
    let told = tell_two(alloc, hub, &client);
    client.release(hub);
    told
}

/// The same of a new hub: the client is port 0, and the servers are ports 1 and 2.
fn tell_where_it_fails_at(alloc: Global, server: u64) -> Result<Option<(Told, Told)>, AllocError> {
    let mut hub = hub(alloc, &KEEPING)?;
    Ok(tell_two_of(alloc, &mut hub, server))
}

#[test]
fn a_handler_that_fails_at_the_second_of_two_full_servers_refuses(rt: HostRuntime) {
    const REFUSED: Option<(Told, Told)> = Some((
        Some(Ok(2)),
        Some(Err(RequestSendError::SendError(SendError::UnableToDeliver))),
    ));
    let told = tell_where_it_fails_at(rt.alloc(), 2).expect(&rt, "a hub");
    equal(&rt, told, REFUSED);
}

#[test]
fn a_handler_that_fails_at_another_server_passes_over_both(rt: HostRuntime) {
    const PASSED_OVER: Option<(Told, Told)> = Some((Some(Ok(2)), Some(Ok(0))));
    let told = tell_where_it_fails_at(rt.alloc(), 3).expect(&rt, "a hub");
    equal(&rt, told, PASSED_OVER);
}
