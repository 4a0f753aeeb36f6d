//! Where a response goes.
ghost use Rattle.std.specs.Prelude.{◌≡◌, IfSome, Some, false, is_some, true};
ghost use Rattle.iox_tables.specs.HubLoans.Questions.{is_named_by_client};
ghost use Rattle.iox_tables.specs.HubStates.Tables.{labels_of, port_in};
ghost use Rattle.iox_hub_ports.specs.Ports.{place_in};
ghost use Rattle.iox_control.specs.Controls.{IsControl};
ghost use Rattle.iox_control.specs.Entries.{handle_state};

use iox_control::Control;
use iox_handles::Entry;
use iox_hub_ports::ports::Ports;
use iox_lanes::states::is_named;
use iox_lanes::wanted::Label;
use iox_model::kind::Role;
use iox_model::way::Way;

/// Where a response goes.
#[derive(Clone, Copy, Debug, PartialEq, Eq)]
pub struct Target {
    /// The place of the client.
    pub place: usize,
    /// Where the pipe from the server likely stands there. A wrong rank is only slower.
    pub rank: usize,
}

/// Where a client likely stands: where the first of all does.
#[inline(always)]
pub(crate) fn likely_client(ports: &Ports) -> usize {
    if ports.clients_len() == 0 {
        return 0;
    }
    ports.client(0)
}

/// Where the response goes whose handle and label these are, if its client waits for it. The client
/// and the server are each looked for once.
#[inline(always)]
pub fn find_awaiting(control: &mut Control, entry: Entry, label: Label) -> Option<Target>
    requires order { IsControl control.old }
    requires server { is_some (port_in control.old.tables.ports entry.port) ≡ true }
    requires label { label ≡ labels_of control.old.tables.pools entry.pool entry.slot }
    ensures awaits { is_some result
        ≡ is_named_by_client control.old.tables (handle_state entry) false }
    ensures there { IfSome result (λ to.
        place_in control.old.tables.ports entry.client ≡ Some to.place) }
    ensures unchanged { control.new ≡ control.old }
{
    let ports = control.ports();
    let Some(place) = ports.place_at(entry.client, likely_client(ports)) else {
        return None;
    };
    match ports.known_at(place).role {
        Role::Server => None,
        Role::Client => {
            let server = ports.known_place(entry.port, entry.at as usize);
            let (from, rank) = (ports.rank(place), ports.rank(server));
            let way = Way {
                sender: entry.port,
                receiver: entry.client,
                lane: label.lane,
            };
            if !is_named(control.state_in(server, from, way), label.request) {
                return None;
            }
            Some(Target { place, rank })
        }
    }
}
