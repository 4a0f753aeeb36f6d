//! Requests to full servers, of a client whose handler is a type of the caller and answers by the
//! server.
use super::starts::SETTINGS;
use super::{Ask, Row, Told, plays};
use iceoryx2_wire::{
    Backpressure, BackpressureAction, BackpressureInfo, BackpressureStrategy, Refusal, Settings,
    Words,
};
use std::alloc::Global;
use std::process::Abort;

/// It fails at this server, and passes over each other.
#[derive(Clone, Copy)]
pub struct FailsAt {
    pub server: u64,
}

impl Words for FailsAt {
    ghost use Rattle.std.specs.Prelude.{◌<◌, ◌^◌, option_map, refl};
    ghost use Rattle.std.proofs.Common.{lit≤};
    ghost use Rattle.iceoryx2_wire.specs.Numbers.{IsOneWord, of_one_word, one_word};
    ghost use Rattle.iceoryx2_wire.specs.NumberLaws.{one_word_is_a_number};
    ghost use Rattle.iceoryx2_wire.specs.WordLaws.{AreWords-option_map};

    ghost WORDS = { 1 };

    const WORDS: usize = 1;

    ghost is_value = { λ it. it.server < 2 ^ 64 };

    ghost words = { λ it. one_word it.server };

    ghost is_words = { IsOneWord (2 ^ 64) };

    ghost of_words = { λ list.
        option_map (λ number. record { server = number }) (of_one_word (2 ^ 64) list) };

    fn known(self) {}

    fn word(&self, _index: usize) -> u64 {
        self.server
    }

    fn of_words(list: &[u64]) -> Option<FailsAt> {
        match list {
            [server] => Some(FailsAt { server: *server }),
            _ => None,
        }
    }

    ghost laws = { AreWords-option_map 1 _ _ _ _ _ (λ it. it.server)
        (λ number. record { server = number }) (one_word_is_a_number (2 ^ 64) (lit≤ tt))
        (λ it h. (h, refl)) (λ number h. (h, refl)) };
}

impl Backpressure for FailsAt {
    ghost use Rattle.std.specs.Prelude.{◌==◌, if◌then◌else◌};
    ghost use Rattle.iceoryx2_wire.specs.BackpressureAction.TheVariants.{DiscardData, DiscardDataAndFail};

    ghost action = { λ it sender receiver.
        if receiver == it.server then DiscardDataAndFail else DiscardData };

    fn act(&self, info: &BackpressureInfo) -> BackpressureAction {
        if info.receiver == self.server {
            return BackpressureAction::DiscardDataAndFail;
        }
        BackpressureAction::DiscardData
    }
}

/// Requests do not overflow, and a client has one active request.
const FULL_AT_ONE: Settings = Settings {
    active_requests: 1,
    request_overflow: false,
    ..SETTINGS
};

/// The strategy of all ports.
const DISCARDS: Option<BackpressureStrategy> = Some(BackpressureStrategy::DiscardData);

/// Node 0 makes two servers, and a client whose handler fails at the server of that number. It
/// sends a request, which it gives up and which still waits at both servers, and sends another,
/// which is told this.
fn is_told(rt: &impl Abort, alloc: Global, server: u64, told: Told<'static>) {
    let client = Ask::MadeClient(0, DISCARDS, Some(FailsAt { server }));
    let script: [Row<'_, FailsAt>; 7] = [
        (Ask::MadeServer(0, DISCARDS, None), Told::Server(0)),
        (Ask::MadeServer(0, DISCARDS, None), Told::Server(1)),
        (client, Told::Client(2)),
        (Ask::Request(0, 2, 5), Told::Handle(3)),
        (Ask::Release(0, 3), Told::Done),
        (Ask::Loan(0, 2), Told::Handle(4)),
        (Ask::Send(0, 4), told),
    ];
    plays(rt, alloc, &FULL_AT_ONE, &script);
}

#[test]
fn a_handler_that_fails_at_the_second_of_two_full_servers_refuses(rt: HostRuntime) {
    let refused = Told::Refused(Refusal::UnableToDeliver);
    is_told(&rt, rt.alloc(), 1, refused);
}

#[test]
fn a_handler_that_fails_at_another_server_passes_over_both(rt: HostRuntime) {
    is_told(&rt, rt.alloc(), 2, Told::Sent(0));
}
