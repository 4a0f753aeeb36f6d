//! Room for a new port, and for the handles that may come with it.
ghost use Rattle.std.specs.Prelude.{◌≡◌, ◌⊎◌, ◌<◌, ◌+◌, ◌≤◌, Bool};
ghost use Rattle.std.specs.Prelude.{IfOk, IfSome, OnErr, OnOk, nat_le, true};
ghost use Rattle.iox_handles.specs.declared.entry.Entry.{Entry};
ghost use Rattle.iox_tables.specs.HubMaking.OneByOne.{most_of};
ghost use Rattle.iox_control.specs.Settings.{settings_of};
ghost use Rattle.iox_control_making.specs.Making.{HasRoomForPorts, count_in};

use crate::sizes::{Sizes, handles_of, lanes_of};
use iox_control::{Control, Settings};
use iox_handles::{Entry, EntryTest};
use iox_model::kind::Role;
use std::alloc::AllocError;

/// The test that each handle passes.
struct Any {}

impl EntryTest for Any {
    ghost passes = { λ t e. true };

    fn passes(&self, _entry: Entry) -> bool {
        true
    }
}

/// Whether there are as many ports of the role as there may be.
pub fn is_full(settings: Settings, sizes: Sizes, role: Role) -> bool
    ensures { result ≡ nat_le (most_of (settings_of settings) role) (count_in sizes role) }
{
    match role {
        Role::Client => settings.clients <= sizes.clients as u64,
        Role::Server => settings.servers <= sizes.servers as u64,
    }
}

/// For how many handles more there has to be room with so many ports, unless these could not be
/// counted.
fn missing_room(control: &Control, sizes: Sizes) -> Option<usize>
    ensures { IfSome result (λ more.
        HasRoomForPorts (record (control.now) { room = control.now.room + more }) sizes) }
{
    let settings = control.settings();
    let handles = handles_of(sizes, settings.borrowed_responses, settings.active_requests)?;
    let room = control.handles().room();
    let more = handles.saturating_sub(room);
    let all = room.checked_add(more)?;
    let held = control.handles().count_if(&Any {});
    lanes_of(sizes)?.checked_add(held)?.checked_add(all)?;
    Some(more)
}

/// Makes room for a port, and for all handles of so many ports. It fails for want of memory, or
/// where they could not be counted.
pub fn reserve(control: &mut Control, sizes: Sizes) -> Result<(), AllocError>
    ensures tables { control.new.tables ≡ control.old.tables }
    ensures port { OnOk result (0 < control.new.port_room) }
    ensures handles { OnOk result (HasRoomForPorts control.new sizes) }
    ensures more { control.old.room ≤ control.new.room }
    ensures unchanged { OnErr result (control.new.room ≡ control.old.room) }
{
    let Some(more) = missing_room(control, sizes) else {
        return Err(AllocError);
    };
    if control.ports().room() == 0 {
        control.reserve_ports(1)?;
    }
    control.reserve_handles(more)
}
