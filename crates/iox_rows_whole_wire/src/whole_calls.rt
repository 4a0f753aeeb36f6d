//! Whole calls by chance, one after another, against lists that tell what they answer. Nodes die
//! between calls.
use super::chances::{Chance, ask};
use super::four;
use super::lists::Lists;
use super::play::{Came, calls, came_shown};
use super::settings::{NO_FIRE_AND_FORGET, NO_OVERFLOW, OVERFLOW, Service};
use crate::expected::{equal, holds};
use iox_wire::{Wire, WireRefusal};
use std::alloc::AllocError;
use std::process::Abort;
use std::test::Fail;

/// A node makes a call, and is answered what the lists say. Says whether the node had anything to
/// ask.
fn turn(
    rt: &impl Abort,
    wire: &mut Wire,
    lists: &mut Lists,
    chance: &mut Chance,
    dead: &[bool; 3],
) -> Result<bool, AllocError> {
    let node = chance.below(3);
    let place = chance.below(lists.of_node(node as u64));
    let Some(held) = lists.pick(node as u64, place) else {
        return Ok(false);
    };
    let asked = ask(held.of.kind, held.of.number, chance.below(1 << 20) as u64);
    let came = calls(wire, node as u64, asked);
    if dead.get(node).copied().unwrap_or(false) {
        equal(
            rt,
            came_shown(came),
            came_shown(Came::Refused(WireRefusal::NodeIsDead)),
        );
        return Ok(true);
    }
    let told = lists.answer(held, asked)?;
    let steps = match came {
        Came::Ended(steps, _) => steps,
        _ => 0,
    };
    equal(rt, came_shown(came), came_shown(Came::Ended(steps, told)));
    Ok(true)
}

/// It may be that a node dies now.
fn may_die(rt: &impl Abort, wire: &mut Wire, chance: &mut Chance, dead: &mut [bool; 3]) {
    if chance.below(300) != 0 {
        return;
    }
    let node = chance.below(3);
    let was = dead.get(node).copied().unwrap_or(true);
    equal(rt, wire.declare_dead(node as u64).is_ok(), !was);
    if let Some(place) = dead.get_mut(node) {
        *place = true;
    }
}

/// A game of 400 turns. After each it may be that a node dies.
fn goes(rt: &impl Abort, wire: &mut Wire, lists: &mut Lists, seed: u64) -> Result<(), AllocError> {
    lists.begin()?;
    let mut chance = Chance::new(seed);
    let mut dead = [false; 3];
    let mut made: usize = 0;
    for _ in 0..400 {
        if turn(rt, wire, lists, &mut chance, &dead)? {
            made = made.saturating_add(1);
        }
        may_die(rt, wire, &mut chance, &mut dead);
    }
    holds(rt, made > 100);
    Ok(())
}

/// The same on a new wire of that service.
fn plays(rt: &(impl Abort + AllocGlobal), service: &Service, seed: u64) -> Result<(), Fail> {
    let mut wire = four::open(rt.alloc(), *service)?;
    let mut lists = Lists::new(rt.alloc(), *service);
    goes(rt, &mut wire, &mut lists, seed)?;
    Ok(())
}

/// Ends the test where a wire of that service answers another thing than the lists say.
fn play_all(rt: &(impl Abort + AllocGlobal), service: &Service) -> Result<(), Fail> {
    for seed in 1..101 {
        plays(rt, service, seed)?;
    }
    Ok(())
}

#[test]
fn nothing_overflows(rt: HostRuntime) -> Result<(), Fail> {
    play_all(&rt, &NO_OVERFLOW)
}

#[test]
fn queues_overflow(rt: HostRuntime) -> Result<(), Fail> {
    play_all(&rt, &OVERFLOW)
}

#[test]
fn requests_of_no_use_are_dropped(rt: HostRuntime) -> Result<(), Fail> {
    play_all(&rt, &NO_FIRE_AND_FORGET)
}
