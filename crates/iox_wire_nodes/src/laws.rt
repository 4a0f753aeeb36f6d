//! Laws of the room that a node has for its calls, and of its ports.
ghost use Rattle.iox_wire_nodes.specs.Ports.{BeginsKeepPorts, StepsKeepPorts};
ghost use Rattle.iox_wire_nodes.specs.Rooms.{RoomSuffices};

/// No step changes which ports a node has, and on which ways it sends and counts.
pub fn steps_keep_ports()
    ensures { StepsKeepPorts }
{}

/// Nor does a begin.
pub fn begins_keep_ports()
    ensures { BeginsKeepPorts }
{}

/// A node that keeps as much room as it has for what calls keep has room for any of them.
pub fn nodes_with_as_much_room_begin()
    ensures { RoomSuffices }
{}
