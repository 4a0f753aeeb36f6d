//! Nodes that join, and those that may not.
use super::{Ask, Row, Told, plays};
use iox_model::reply::Refusal;

#[test]
fn a_refused_join_leaves_nothing_behind(rt: HostRuntime) {
    const SCRIPT: &[Row<'static>] = &[
        (Ask::Join(0), Told::Refused(Refusal::InvalidNodeId)),
        (Ask::Join(1), Told::Refused(Refusal::NodeIdInUse)),
        (
            Ask::JoinUnfit(2),
            Told::Refused(Refusal::IncompatibleRequestTypes),
        ),
        (Ask::Nodes, Told::Listed(&[0])),
        (Ask::Join(2), Told::Node(1)),
        (
            Ask::Join(3),
            Told::Refused(Refusal::ExceedsMaxNumberOfNodes),
        ),
        (Ask::Nodes, Told::Listed(&[0, 1])),
        (Ask::Leave(1), Told::Done),
        (Ask::Join(3), Told::Node(2)),
        (Ask::Nodes, Told::Listed(&[0, 2])),
        (Ask::Leave(2), Told::Done),
        (Ask::Join(2), Told::Node(3)),
        (Ask::Nodes, Told::Listed(&[0, 3])),
    ];
    plays(&rt, rt.alloc(), 2, SCRIPT);
}

#[test]
fn the_first_test_that_fails_is_told(rt: HostRuntime) {
    const SCRIPT: &[Row<'static>] = &[
        // At the limit of one node, each of these fails a later test as well.
        (Ask::JoinUnfit(0), Told::Refused(Refusal::InvalidNodeId)),
        (Ask::JoinUnfit(1), Told::Refused(Refusal::NodeIdInUse)),
        (
            Ask::JoinUnfit(2),
            Told::Refused(Refusal::IncompatibleRequestTypes),
        ),
        (
            Ask::Join(2),
            Told::Refused(Refusal::ExceedsMaxNumberOfNodes),
        ),
        (Ask::Leave(0), Told::Done),
        (
            Ask::JoinUnfit(0),
            Told::Refused(Refusal::MarkedForDestruction),
        ),
        (
            Ask::JoinUnfit(1),
            Told::Refused(Refusal::MarkedForDestruction),
        ),
    ];
    plays(&rt, rt.alloc(), 1, SCRIPT);
}

#[test]
fn a_dead_node_keeps_its_place_and_its_id(rt: HostRuntime) {
    const SCRIPT: &[Row<'static>] = &[
        (Ask::Join(2), Told::Node(1)),
        (Ask::Die(1), Told::Done),
        (Ask::Join(2), Told::Refused(Refusal::NodeIdInUse)),
        (
            Ask::Join(3),
            Told::Refused(Refusal::ExceedsMaxNumberOfNodes),
        ),
        (Ask::Nodes, Told::Listed(&[0, 1])),
        (Ask::Cleanup(1), Told::Done),
        (Ask::Join(2), Told::Node(2)),
        (Ask::Nodes, Told::Listed(&[0, 2])),
        (Ask::Client(1), Told::Refused(Refusal::UnknownNode)),
        (Ask::Client(2), Told::Client(0)),
    ];
    plays(&rt, rt.alloc(), 2, SCRIPT);
}

#[test]
fn the_last_node_that_leaves_closes_the_service(rt: HostRuntime) {
    const SCRIPT: &[Row<'static>] = &[
        (Ask::Join(2), Told::Node(1)),
        (
            Ask::Join(3),
            Told::Refused(Refusal::ExceedsMaxNumberOfNodes),
        ),
        (Ask::Leave(0), Told::Done),
        (Ask::Closed, Told::Answer(false)),
        (Ask::Leave(1), Told::Done),
        (Ask::Closed, Told::Answer(true)),
        (Ask::Join(3), Told::Refused(Refusal::MarkedForDestruction)),
        (Ask::Nodes, Told::Listed(&[])),
    ];
    plays(&rt, rt.alloc(), 2, SCRIPT);
}
