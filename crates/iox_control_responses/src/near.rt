//! Where a response goes on its usual way.
ghost use Rattle.std.specs.Prelude.{◌≡◌, IfSome, Some, false, true};
ghost use Rattle.std.specs.Option.{option_map_or};
ghost use Rattle.iox_tables.specs.HubLoans.Questions.{is_named_by_client};
ghost use Rattle.iox_tables.specs.HubStates.Tables.{labels_of, port_in};
ghost use Rattle.iox_hub_ports.specs.InPlace.{in_place};
ghost use Rattle.iox_hub_ports.specs.Known.{is_from};
ghost use Rattle.iox_hub_ports.specs.Ports.{place_in};
ghost use Rattle.iox_control.specs.Controls.{IsControl};
ghost use Rattle.iox_control.specs.Entries.{handle_state};

use crate::targets::{Target, likely_client};
use iox_control::Control;
use iox_handles::Entry;
use iox_lanes::states::is_named;
use iox_lanes::wanted::Label;
use iox_model::kind::Role;
use iox_model::way::Way;

/// Where the response goes whose handle and label these are, if its client waits for it, the server
/// and the pipes between both stand where they are looked for first, and the own value of the
/// server is there.
#[inline(always)]
pub(crate) fn find_near(control: &mut Control, entry: Entry, label: Label) -> Option<Target>
    requires order { IsControl control.old }
    requires label { label ≡ labels_of control.old.tables.pools entry.pool entry.slot }
    ensures awaits { IfSome result (λ _.
        is_named_by_client control.old.tables (handle_state entry) false ≡ true) }
    ensures there { IfSome result (λ to.
        place_in control.old.tables.ports entry.client ≡ Some to.place) }
    ensures from { IfSome result (λ to.
        in_place (is_from to.rank entry.port) false control.old.tables.ports to.place ≡ true) }
    ensures held { IfSome result (λ _. option_map_or (λ p. p.held)
        (port_in control.old.tables.ports entry.port) false ≡ true) }
    ensures unchanged { control.new ≡ control.old }
{
    let ports = control.ports();
    let server = entry.at as usize;
    if !ports.is_near(entry.port, server) {
        return None;
    }
    let place = ports.place_at(entry.client, likely_client(ports))?;
    let from = ports.rank(place);
    let rank = ports.rank(server);
    if !ports.is_from(server, from, entry.client) {
        return None;
    }
    if !ports.is_from(place, rank, entry.port) {
        return None;
    }
    if !ports.known_at(server).held {
        return None;
    }
    match ports.known_at(place).role {
        Role::Server => None,
        Role::Client => {
            let way = Way {
                sender: entry.port,
                receiver: entry.client,
                lane: label.lane,
            };
            if !is_named(control.state_on(server, from, way), label.request) {
                return None;
            }
            Some(Target { place, rank })
        }
    }
}
