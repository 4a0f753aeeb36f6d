//! What is given back on lanes of one pipe comes back from the lowest lane on.
use super::visits::ByPlace;
use crate::expected::equal;
use iox_lanes::pipe::Pipe;
use iox_lanes::search::LaneVisit;
use iox_lanes::wanted::Wanted;
use std::alloc::Global;
use std::process::Abort;

/// On each of these lanes a message is delivered, taken and given back, one after another.
fn give_back(rt: &impl Abort, pipe: &mut Pipe, lanes: &[usize]) {
    for lane in lanes {
        let place = *lane as u64;
        equal(rt, pipe.deliver(*lane, place), true);
        equal(
            rt,
            pipe.visit(*lane, Wanted::Any, &ByPlace),
            LaneVisit::Got(place),
        );
        equal(rt, pipe.release(*lane, place), true);
    }
}

/// They come back in this order. Whether something is left after the last of them is told.
fn get_back(rt: &impl Abort, pipe: &mut Pipe, lanes: &[usize], left: bool) {
    for lane in lanes {
        equal(rt, pipe.lane_to_get(), Some(*lane));
        let next = pipe.get_next().expect(rt, "a message");
        equal(rt, next.lane, *lane);
        equal(rt, next.place, *lane as u64);
        equal(rt, next.more, left || Some(lane) != lanes.last());
    }
    equal(rt, pipe.lane_to_get().is_some(), left);
}

/// A pipe of so many lanes.
fn pipe(rt: &impl Abort, alloc: Global, lanes: usize) -> Pipe {
    Pipe::new(alloc, 1, 0, lanes, 1, 1, 0).expect(rt, "a pipe")
}

#[test]
fn the_lowest_lane_comes_first(rt: HostRuntime) {
    let mut pipe = pipe(&rt, rt.alloc(), 300);
    give_back(&rt, &mut pipe, &[200, 63, 0, 127, 299, 64, 62, 126, 128]);
    get_back(&rt, &mut pipe, &[0, 62, 63], true);
    give_back(&rt, &mut pipe, &[0, 63, 150]);
    get_back(
        &rt,
        &mut pipe,
        &[0, 63, 64, 126, 127, 128, 150, 200, 299],
        false,
    );
    equal(&rt, pipe.get_next(), None);
}

#[test]
fn a_lane_is_got_back_by_its_number(rt: HostRuntime) {
    let mut pipe = pipe(&rt, rt.alloc(), 200);
    give_back(&rt, &mut pipe, &[130, 70, 199, 5]);
    equal(&rt, pipe.get_back(70), Some(70));
    equal(&rt, pipe.get_back(5), Some(5));
    equal(&rt, pipe.get_back(71), None);
    get_back(&rt, &mut pipe, &[130, 199], false);
}

/// The words at the bottom are more than one word above them tells of.
#[test]
fn lanes_are_many(rt: HostRuntime) {
    let mut pipe = pipe(&rt, rt.alloc(), 5000);
    give_back(&rt, &mut pipe, &[4999, 4158, 4159, 4160, 63, 1000]);
    get_back(&rt, &mut pipe, &[63, 1000, 4158, 4159, 4160, 4999], false);
}

#[test]
fn a_pipe_is_taken_apart_from_the_last_lane_on(rt: HostRuntime) {
    let mut pipe = pipe(&rt, rt.alloc(), 66);
    give_back(&rt, &mut pipe, &[65, 64, 62]);
    equal(&rt, pipe.take_lane().is_some(), true);
    equal(&rt, pipe.lane_to_get(), Some(62));
    equal(&rt, pipe.get_back(62), Some(62));
    get_back(&rt, &mut pipe, &[64], false);
}
