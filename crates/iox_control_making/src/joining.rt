//! A new port is connected.
ghost use Rattle.std.specs.Prelude.{◌≡◌, ◌<◌, ◌+◌, ◌^◌, false};
ghost use Rattle.iox_model.specs.Maps.{has_number};
ghost use Rattle.iox_tables.specs.HubStates.Tables.{numbers_of};
ghost use Rattle.iox_control.specs.Controls.{with_number, with_port_added, with_ports};
ghost use Rattle.iox_control_making.specs.Links.{all_linked};

use crate::pipes::Link;
use iox_control::Control;
use iox_hub_ports::port::Port;

/// Connects each of these pipes to its port.
pub fn connect_all(control: &mut Control, mut links: Vec<Link>)
    ensures { control.new
        ≡ with_ports control.old (all_linked control.old.tables.ports links.items) }
{
    while let Some(link) = links.pop() {
        control.connect(link.to, link.pipe);
    }
}

/// Adds a port of a new number, with its pipes to others, and counts it.
pub fn join(control: &mut Control, port: Port, links: Vec<Link>)
    requires room { 0 < control.old.port_room }
    requires fresh { has_number port.number
        (numbers_of (all_linked control.old.tables.ports links.items)) ≡ false }
    requires number { control.old.tables.next_number + 1 < 2 ^ 64 }
    requires made { control.old.tables.ports_made + 1 < 2 ^ 64 }
    ensures { control.new ≡ with_number (with_port_added
        (with_ports control.old (all_linked control.old.tables.ports links.items)) port) }
{
    connect_all(control, links);
    control.add_port(port);
    control.count_port();
}
