//! Whether anything of a port is left.
ghost use Rattle.std.specs.Prelude.{◌≡◌, ◌<◌, false, length, true};
ghost use Rattle.iox_tables.specs.HubMaking.Disconnections.{is_unused};
ghost use Rattle.iox_hub_ports.specs.InPlace.{in_place};
ghost use Rattle.iox_control.specs.Controls.{IsControl};

use iox_control::Control;
use iox_hub_ports::ports::Ports;

/// Whether something may go after a handle of the port in that place ended: nobody has a message of
/// the pool, as it is said, or the port's own value is not there.
#[inline(always)]
pub fn may_go(ports: &Ports, place: usize, idle: bool) -> bool
    requires { place < length ports.now.ports }
    ensures idle { result ≡ false → idle ≡ false }
    ensures held { result ≡ false
        → in_place (λ p. p.held) false ports.now.ports place ≡ true }
{
    if idle {
        return true;
    }
    !ports.known_at(place).held
}

/// Whether the port's own value and all its handles are released. The port is looked for at the
/// hint first.
#[inline(always)]
pub fn is_unused(control: &mut Control, port: u64, at: usize) -> bool
    requires order { IsControl control.old }
    ensures told { result ≡ is_unused control.old.tables port }
    ensures unchanged { control.new ≡ control.old }
{
    match control.ports().find_near(port, at) {
        None => true,
        Some(info) => {
            if info.held {
                return false;
            }
            !control.has_handles(port)
        }
    }
}
