//! A node stops at a place of its call, and the other one continues.
use super::on::{On, opened};
use super::play::{Act, Ask, Came, begin, plays, steps};
use crate::expected::{equal, holds};
use iox_wire::{Wire, WireRefusal};
use std::process::Abort;
use std::test::Fail;

/// What comes of a stop.
#[derive(Clone, Copy)]
pub(super) struct Stop<'a> {
    /// What a failed test tells.
    pub(super) name: &'a str,
    pub(super) on: On,
    /// What came before the call.
    pub(super) before: &'a [Act],
    pub(super) node: u64,
    pub(super) ask: Ask,
    /// How many steps the call takes.
    pub(super) steps: u64,
    /// What comes after a stop behind so many steps or more. The last one that holds counts.
    pub(super) after: &'a [(u64, &'a [Act])],
    pub(super) between: Between<'a>,
    /// What comes in its place the second time, if there is one.
    pub(super) counts: &'a [(u64, &'a [Act])],
}

/// What others do behind so many steps of a call.
#[derive(Clone, Copy)]
pub(super) struct Between<'a> {
    pub(super) made: u64,
    pub(super) acts: &'a [Act],
}

pub(super) const NOTHING_BETWEEN: Between<'static> = Between { made: 0, acts: &[] };

/// What comes after a stop behind so many steps.
fn behind<'a>(after: &'a [(u64, &'a [Act])], made: u64) -> &'a [Act] {
    let mut table: &'a [Act] = &[];
    for (from, then) in after {
        if *from <= made {
            table = *then;
        }
    }
    table
}

/// Makes so many steps of a call.
fn goes(rt: &impl Abort, wire: &mut Wire, stop: &Stop<'_>, count: u64) {
    let came = steps(wire, stop.node, count);
    equal(
        rt,
        (stop.name, matches!(came, Came::UnderWay)),
        (stop.name, true),
    );
}

/// Makes so many steps, with what comes between, and says how many are left to make.
fn goes_up_to(rt: &impl Abort, wire: &mut Wire, stop: &Stop<'_>, made: u64) -> u64 {
    if made < stop.between.made {
        return made;
    }
    goes(rt, wire, stop, stop.between.made);
    plays(rt, wire, stop.name, stop.between.acts);
    made.saturating_sub(stop.between.made)
}

/// Makes so many steps, with what comes between. Then the call is under way, or over behind its
/// last one.
fn makes(rt: &impl Abort, wire: &mut Wire, stop: &Stop<'_>, made: u64) {
    let left = goes_up_to(rt, wire, stop, made);
    let came = steps(wire, stop.node, left);
    equal(
        rt,
        (stop.name, made, matches!(came, Came::UnderWay)),
        (stop.name, made, made < stop.steps),
    );
}

/// The node begins its call.
fn begins(rt: &impl Abort, wire: &mut Wire, stop: &Stop<'_>) {
    equal(
        rt,
        (stop.name, begin(wire, stop.node, stop.ask).err()),
        (stop.name, None),
    );
}

/// The node dies, and makes no step then.
fn dies(rt: &impl Abort, wire: &mut Wire, node: u64) {
    holds(rt, wire.declare_dead(node).is_ok());
    equal(rt, wire.step(node).err(), Some(WireRefusal::NodeIsDead));
}

/// The node stops behind so many steps of its call, while others do something behind one of them.
fn stops_behind(
    rt: &impl Abort,
    wire: &mut Wire,
    stop: &Stop<'_>,
    made: u64,
    after: &[(u64, &[Act])],
) {
    plays(rt, wire, stop.name, stop.before);
    begins(rt, wire, stop);
    makes(rt, wire, stop, made);
    dies(rt, wire, stop.node);
    plays(rt, wire, stop.name, behind(after, made));
}

/// The same on a new wire.
fn stops_on_a_wire(
    rt: &(impl Abort + AllocGlobal),
    stop: &Stop<'_>,
    made: u64,
    after: &[(u64, &[Act])],
) -> Result<(), Fail> {
    let mut wire = opened(rt.alloc(), stop.on)?;
    stops_behind(rt, &mut wire, stop, made, after);
    Ok(())
}

/// The same behind each number of steps.
fn stops(
    rt: &(impl Abort + AllocGlobal),
    stop: &Stop<'_>,
    after: &[(u64, &[Act])],
) -> Result<(), Fail> {
    for made in 0..stop.steps.saturating_add(1) {
        stops_on_a_wire(rt, stop, made, after)?;
    }
    Ok(())
}

/// Ends the test where something else comes of one of these stops behind some number of steps.
pub(super) fn stop_all(rt: &(impl Abort + AllocGlobal), list: &[Stop<'_>]) -> Result<(), Fail> {
    for stop in list {
        stops(rt, stop, stop.after)?;
        if !stop.counts.is_empty() {
            stops(rt, stop, stop.counts)?;
        }
    }
    Ok(())
}
