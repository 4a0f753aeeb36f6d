//! A port is made.
ghost use Rattle.std.specs.Prelude.{◌≡◌, ◌⊎◌, ◌<◌, ◌+◌, ◌≤◌, ◌^◌};
ghost use Rattle.std.specs.Prelude.{Bool, IfErr, IfOk, None, OnErr, OnOk, Some, true};
ghost use Rattle.iox_tables.specs.HubMaking.NewPorts.{pool_made};
ghost use Rattle.iox_slots.specs.Pools.{place_for_one, with_one_more};
ghost use Rattle.iox_control.specs.Controls.{IsControl};
ghost use Rattle.iox_control_making.specs.Making.{HasRoomForPorts, MakesWhole, RefusesWhole};
ghost use Rattle.iox_control_making.specs.Making.{info_asked, not_made, port_asked, with_asked};
ghost use Rattle.iox_control_making.specs.Parts.{IsOfParts};
ghost use Rattle.iox_control_making.specs.Sizes.{sizes_among, with_size};

use crate::asked::{Asked, NotMade};
use crate::joining::join;
use crate::pipes::{Link, expired_of, incoming_of, links_of};
use crate::places::vacant_place;
use crate::room::{is_full, reserve};
use crate::sizes::{Sizes, sizes_of, with_size};
use iox_control::Control;
use iox_hub_ports::info::PortInfo;
use iox_hub_ports::port::Port;
use iox_lanes::incoming::Incoming;
use iox_model::kind::Role;
use iox_types::identifiers::UniqueSystemId;
use std::alloc::{AllocError, Global};

/// A new port, and the pipes from it.
#[derive(Drop)]
pub struct Parts {
    /// The port, with what comes to it.
    pub port: Port,
    /// The pipes that lead from it, one to each connected port of the other role.
    pub links: Vec<Link>,
}

/// What is said of the new port.
fn info_of(
    control: &Control,
    node: u64,
    role: Role,
    id: UniqueSystemId,
    asked: Asked,
    place: usize,
) -> PortInfo
    requires made { control.now.tables.ports_made < 2 ^ 32 }
    requires place { place ≡ place_for_one control.now.tables.pools }
    ensures { result ≡ info_asked control.now.tables node role id asked }
{
    PortInfo {
        number: control.next_number(),
        node,
        role,
        node_id: id,
        id: UniqueSystemId {
            process: id.process,
            seconds: id.seconds,
            nanoseconds: id.nanoseconds,
            counter: control.ports_made() as u32,
        },
        pool: place,
        size: asked.size,
        longest: asked.longest,
        grows: asked.grows,
        strategy: asked.strategy,
        loaned_responses: asked.loaned_responses,
        held: true,
        loans: 0,
    }
}

/// The new port with all its pipes. It fails only for want of memory.
fn parts_of(control: &Control, alloc: Global, info: PortInfo) -> Result<Parts, AllocError>
    ensures { IfOk result (λ parts. IsOfParts control.now.tables info parts) }
{
    let settings = control.settings();
    let incoming = incoming_of(alloc, settings, control.ports(), info)?;
    let expired = expired_of(alloc, settings, info.role)?;
    let links = links_of(alloc, settings, control.ports(), info)?;
    Ok(Parts {
        port: Port::new(info, expired, incoming),
        links,
    })
}

/// Makes all of the new port, its pool, and room for what may come with it. It fails for want of
/// memory, or where that could not be counted.
fn prepare(
    control: &mut Control,
    alloc: Global,
    node: u64,
    role: Role,
    id: UniqueSystemId,
    asked: Asked,
    after: Sizes,
) -> Result<Parts, AllocError>
    requires made { control.old.tables.ports_made < 2 ^ 32 }
    ensures parts { IfOk result (λ parts. IsOfParts control.old.tables
        (info_asked control.old.tables node role id asked) parts) }
    ensures pool { OnOk result (control.new.tables ≡ record (control.old.tables) {
      pools = with_one_more control.old.tables.pools
          (pool_made (port_asked control.old.tables node role id asked));
    }) }
    ensures port { OnOk result (0 < control.new.port_room) }
    ensures handles { OnOk result (HasRoomForPorts control.new after) }
    ensures more { control.old.room ≤ control.new.room }
    ensures unchanged { OnErr result (control.new.tables ≡ control.old.tables) }
    ensures counted { OnErr result ((control.new.room ≡ control.old.room)
        ⊎ HasRoomForPorts control.new after) }
{
    let Some(place) = vacant_place(control.pools()) else {
        return Err(AllocError);
    };
    let info = info_of(control, node, role, id, asked, place);
    let parts = parts_of(control, alloc, info)?;
    reserve(control, after)?;
    control.add_pool(alloc, info.number, info.node_id, info.id, info.size)?;
    Ok(parts)
}

/// Tests whether the port may be made, and tells what all ports would come to with it.
fn test(control: &Control, role: Role, asked: Asked) -> Result<Sizes, NotMade>
    ensures passed { OnOk result (not_made control.now.tables role asked true ≡ None) }
    ensures after { IfOk result (λ after. after
        ≡ with_size (sizes_among control.now.tables.ports) role asked.size) }
    ensures failed { IfErr result (λ r. (memory : Bool)
        × (not_made control.now.tables role asked memory ≡ Some r)) }
{
    if control.ports_made() >= 1 << 32 {
        return Err(NotMade::PortTag);
    }
    if asked.large {
        return Err(NotMade::DataSegment);
    }
    let Some(sizes) = sizes_of(control.ports()) else {
        return Err(NotMade::DataSegment);
    };
    if is_full(control.settings(), sizes, role) {
        return Err(NotMade::TooManyPorts);
    }
    let Some(after) = with_size(sizes, role, asked.size) else {
        return Err(NotMade::DataSegment);
    };
    Ok(after)
}

/// Makes a port of that role for the node with that id, and tells its number. Where it is refused,
/// the tables stay.
pub fn make_port(
    control: &mut Control,
    alloc: Global,
    node: u64,
    role: Role,
    id: UniqueSystemId,
    asked: Asked,
) -> Result<u64, NotMade>
    requires order { IsControl control.old }
    ensures number { IfOk result (λ n. n ≡ control.old.tables.next_number) }
    ensures made { OnOk result (control.new.tables
        ≡ with_asked control.old.tables (port_asked control.old.tables node role id asked)) }
    ensures allowed { OnOk result (not_made control.old.tables role asked true ≡ None) }
    ensures refused { IfErr result (λ r. (memory : Bool)
        × (not_made control.old.tables role asked memory ≡ Some r)) }
    ensures unchanged { OnErr result (control.new.tables ≡ control.old.tables) }
    ensures order { IsControl control.new }
    ensures whole { OnOk result (MakesWhole control.old.tables node role id asked
        control.new.tables) }
    ensures whole_refused { IfErr result (λ r. RefusesWhole control.old.tables node role id asked r
        control.new.tables) }
{
    let after = match test(control, role, asked) {
        Ok(after) => after,
        Err(reason) => return Err(reason),
    };
    let Ok(parts) = prepare(control, alloc, node, role, id, asked, after) else {
        return Err(NotMade::DataSegment);
    };
    let number = control.next_number();
    join(control, parts.port, parts.links);
    Ok(number)
}
