//! What a new loan takes of the desks of a node.
use iox_wire_nodes::{Desks, StoredDesk};
use std::test::Fail;

#[test]
fn slots_are_picked_in_their_order(rt: HostRuntime) -> Result<(), Fail> {
    let mut desk = StoredDesk::new(rt.alloc(), 4, 2, 1)?;
    assert_eq!(rt; desk.pick(9, 0), Some(0));
    assert_eq!(rt; desk.pick(10, 0), Some(1));
    assert_eq!(rt; desk.pick(11, 0), None);
    Ok(())
}

#[test]
fn slot_is_picked_at_the_desk_of_its_port(rt: HostRuntime) -> Result<(), Fail> {
    let desk = StoredDesk::new(rt.alloc(), 4, 1, 1)?;
    let mut desks = Desks::new(vec![in rt.alloc(); desk]?);
    assert_eq!(rt; desks.pick(5, 9, 0), None);
    assert_eq!(rt; desks.pick(4, 9, 0), Some(0));
    assert_eq!(rt; desks.pick(4, 10, 0), None);
    Ok(())
}
