//! A type of a user's own goes from a client to a server, proved only from the clauses of
//! typed ports.
ghost use Rattle.std.specs.Prelude.{◌≡◌, IfSome};
ghost use Rattle.iceoryx2_ports.specs.Hubs.{HasValue};
ghost use Rattle.iceoryx2_ports.specs.Kind.TheVariants as kinds;
ghost use Rattle.iceoryx2_ports.specs.Waiting.{NothingWaits, server_of};

use crate::exchange::{NODE, SETTINGS};
use crate::expected::equal;
use iceoryx2_ports::{
    Client, Hub, MessageShape, One, PortFactoryClient, PortFactoryServer, Server, Words,
    ZeroCopySend,
};
use std::alloc::{AllocError, Global};

/// What a sensor measured.
#[derive(Clone, Copy, Debug, PartialEq)]
pub struct Reading {
    pub sensor: u64,
    pub level: u32,
}

impl Words for Reading {
    ghost use Rattle.std.specs.Prelude.{◌<◌, ◌^◌, ◌++◌, option_map, refl};
    ghost use Rattle.std.proofs.Common.{lit≤};
    ghost use Rattle.iceoryx2_ports.specs.Numbers.{IsOneWord, of_one_word, one_word};
    ghost use Rattle.iceoryx2_ports.specs.NumberLaws.{one_word_is_a_number};
    ghost use Rattle.iceoryx2_ports.specs.WordParts.{IsWordsInParts, of_parts};
    ghost use Rattle.iceoryx2_ports.specs.WordLaws.{AreWords-option_map, AreWords-pair};

    ghost WORDS = { 2 };

    const WORDS: usize = 2;

    ghost is_value = { λ it. (it.sensor < 2 ^ 64) × (it.level < 2 ^ 32) };

    ghost words = { λ it. one_word it.sensor ++ one_word it.level };

    ghost is_words = { IsWordsInParts 1 (IsOneWord (2 ^ 64)) (IsOneWord (2 ^ 32)) };

    ghost of_words = { λ list.
        option_map (λ parts. record { sensor = parts.0; level = parts.1 })
        (of_parts 1 (of_one_word (2 ^ 64)) (of_one_word (2 ^ 32)) list) };

    fn known(self) {}

    fn word(&self, index: usize) -> u64 {
        match index {
            0 => self.sensor,
            _ => u64::from(self.level),
        }
    }

    fn of_words(list: &[u64]) -> Option<Reading> {
        match list {
            [sensor, level] => Some(Reading {
                sensor: *sensor,
                level: u32::try_from(*level).ok()?,
            }),
            _ => None,
        }
    }

    // A reading is a pair of numbers, and the words of a pair are those of its parts.
    ghost laws = { AreWords-option_map 2 _ _ _ _ _ (λ it. (it.sensor, it.level))
        (λ parts. record { sensor = parts.0; level = parts.1 })
        (AreWords-pair 1 1 _ _ _ _ _ _ _ _ (one_word_is_a_number (2 ^ 64) (lit≤ tt))
        (one_word_is_a_number (2 ^ 32) (lit≤ tt)))
        (λ it h. (h, refl)) (λ parts h. (h, refl)) };
}

impl ZeroCopySend for Reading {
    ghost use Rattle.std.specs.Prelude.{codes, refl};

    ghost SIZE = { 16 };

    const SIZE: usize = 16;

    ghost ALIGNMENT = { 8 };

    const ALIGNMENT: usize = 8;

    ghost name = { codes "Reading" };

    fn name() -> &'static str {
        "Reading"
    }

    ghost sized = { refl };

    ghost aligned = { (3, refl) };

    ghost named = { refl };
}

/// Requests are readings, and responses are numbers.
type Readings = Hub<One<Reading>, (), One<u64>, ()>;

type Teller = Client<One<Reading>, (), One<u64>, ()>;

type Listener = Server<One<Reading>, (), One<u64>, ()>;

/// A hub with no port. Sizes and alignments are those of the types.
fn readings(alloc: Global) -> Result<Readings, AllocError> {
    let request = MessageShape::of_requests(None, ());
    let response = MessageShape::of_responses(None, ());
    Hub::new(alloc, SETTINGS, request, response)
}

/// A client tells a reading. A server for which nothing waited reads just that, if it receives
/// something.
fn tells(
    hub: &mut Readings,
    client: &Teller,
    server: &Listener,
    reading: Reading,
) -> Option<Reading>
    requires client { HasValue hub.old client.now.node client.now.number kinds.Client }
    requires server { HasValue hub.old server.now.node server.now.number kinds.Server }
    requires none { NothingWaits hub.old (server_of server.now.number) }
    ensures { IfSome result (λ told. told ≡ reading) }
{
    let pending = client.send_copy(hub, reading).ok()?;
    if hub.calls() >= 1 << 56 {
        pending.release(hub);
        return None;
    }
    let Ok(Some(request)) = server.receive(hub) else {
        pending.release(hub);
        return None;
    };
    let Some(told) = request.first(hub).copied() else {
        unreachable!();
    };
    request.release(hub);
    pending.release(hub);
    Some(told)
}

/// A client of node 0 tells a server of node 1 that reading, which reads just that.
fn exchanges(alloc: Global, hub: &mut Readings, reading: Reading) -> Option<Reading>
    ensures { IfSome result (λ told. told ≡ reading) }
{
    let client = PortFactoryClient::new(0, NODE).create(alloc, hub).ok()?;
    let Ok(server) = PortFactoryServer::new(1, NODE).create(alloc, hub) else {
        client.release(hub);
        return None;
    };
    let told = tells(hub, &client, &server, reading);
    client.release(hub);
    server.release(hub);
    told
}

/// The same of a new hub.
fn arrives(alloc: Global, reading: Reading) -> Result<Option<Reading>, AllocError> {
    let mut hub = readings(alloc)?;
    Ok(exchanges(alloc, &mut hub, reading))
}

#[test]
fn a_reading_arrives(rt: HostRuntime) {
    let reading = Reading {
        sensor: 1 << 63,
        level: 7,
    };
    let told = arrives(rt.alloc(), reading).expect(&rt, "a hub");
    equal(&rt, told, Some(reading));
}
