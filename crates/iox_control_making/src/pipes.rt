//! The pipes of a new port.
ghost use Rattle.std.specs.Prelude.{◌≡◌, IfOk, filter, map};
ghost use Rattle.iox_lanes.specs.Incomings.{no_pipes};
ghost use Rattle.iox_model.specs.Settings.{other_role, same_role};
ghost use Rattle.iox_tables.specs.HubMaking.NewPorts.{is_other, pipe_between};
ghost use Rattle.iox_tables.specs.HubMaking.NewPorts.{room_for_gone, states_of, width_of};
ghost use Rattle.iox_tables.specs.HubMaking.OneByOne.{all_connected, most_of};
ghost use Rattle.iox_tables.specs.HubStates.Wirings.{buffer_from, limit_from};
ghost use Rattle.iox_control.specs.Settings.{settings_of};
ghost use Rattle.iox_control_making.specs.Links.{bare, links_between};

use iox_control::Settings;
use iox_hub_ports::info::PortInfo;
use iox_hub_ports::ports::Ports;
use iox_lanes::expired::Expired;
use iox_lanes::incoming::Incoming;
use iox_lanes::pipe::Pipe;
use iox_model::kind::Role;
use std::alloc::{AllocError, Global};

/// A pipe from a new port, and the number of the port to which it leads.
#[derive(Drop)]
pub struct Link {
    /// The number of the port to which it leads.
    pub to: u64,
    /// The pipe itself, which that port keeps.
    pub pipe: Pipe,
}

/// Whether the ports exchange messages.
fn is_other(p: PortInfo, q: PortInfo) -> bool
    ensures { result ≡ is_other (bare p) (bare q) }
{
    match p.role {
        Role::Client => match q.role {
            Role::Client => false,
            Role::Server => true,
        },
        Role::Server => match q.role {
            Role::Client => true,
            Role::Server => false,
        },
    }
}

/// How many lanes come to the port from one sender.
fn width(to: PortInfo) -> usize
    ensures { result ≡ width_of (bare to) }
{
    match to.role {
        Role::Client => to.size,
        Role::Server => 1,
    }
}

/// How many request states lie beside what comes from the port.
fn states(from: PortInfo) -> usize
    ensures { result ≡ states_of (bare from) }
{
    match from.role {
        Role::Client => from.size,
        Role::Server => 0,
    }
}

/// How many messages may wait on one lane, where a port of that role sends.
fn buffer(settings: Settings, role: Role) -> usize
    ensures { result ≡ buffer_from (settings_of settings) role }
{
    match role {
        Role::Client => settings.active_requests,
        Role::Server => settings.response_buffer,
    }
}

/// How many messages of one lane a receiver may have, where a port of that role sends.
fn limit(settings: Settings, role: Role) -> usize
    ensures { result ≡ limit_from (settings_of settings) role }
{
    match role {
        Role::Client => settings.active_requests,
        Role::Server => settings.borrowed_responses,
    }
}

/// How many ports of the other role there may be.
fn most_others(settings: Settings, role: Role) -> u64
    ensures { result ≡ most_of (settings_of settings) (other_role role) }
{
    match role {
        Role::Client => settings.servers,
        Role::Server => settings.clients,
    }
}

/// How many ports that are gone a port of this role keeps the messages of.
fn gone_kept(settings: Settings, role: Role) -> usize
    ensures { result ≡ room_for_gone (settings_of settings) role }
{
    match role {
        Role::Client => settings.client_expired,
        Role::Server => {
            if settings.fire_and_forget {
                settings.server_expired
            } else {
                0
            }
        }
    }
}

/// The pipe from one port to another, on which nothing was ever sent. It fails for want of memory.
fn new_pipe(
    alloc: Global,
    settings: Settings,
    from: PortInfo,
    to: PortInfo,
) -> Result<Pipe, AllocError>
    ensures { IfOk result (λ q. q ≡ pipe_between (settings_of settings) (bare from) (bare to)) }
{
    let buffer = buffer(settings, from.role);
    let limit = limit(settings, from.role);
    if buffer.checked_add(limit).is_none() {
        return Err(AllocError);
    }
    Pipe::new(
        alloc,
        from.number,
        from.pool,
        width(to),
        buffer,
        limit,
        states(from),
    )
}

/// What comes to a new port: a pipe from each connected port of the other role. It fails only for
/// want of memory.
pub fn incoming_of(
    alloc: Global,
    settings: Settings,
    ports: &Ports,
    new: PortInfo,
) -> Result<Incoming, AllocError>
    ensures { IfOk result (λ c. c ≡ all_connected
        (no_pipes (most_of (settings_of settings) (other_role new.role)))
        (map (λ p. pipe_between (settings_of settings) p (bare new))
        (filter (λ p. is_other p (bare new)) ports.now.ports))) }
{
    let mut incoming = Incoming::new(alloc, most_others(settings, new.role) as usize)?;
    for place in 0..ports.len() {
        let Some(info) = ports.at(place) else {
            return Err(AllocError);
        };
        if is_other(info, new) {
            incoming.connect(new_pipe(alloc, settings, info, new)?);
        }
    }
    Ok(incoming)
}

/// Room for what a new port keeps from ports that are gone. It fails only for want of memory.
pub fn expired_of(alloc: Global, settings: Settings, role: Role) -> Result<Expired, AllocError>
    ensures { IfOk result (λ c. c ≡ no_pipes (room_for_gone (settings_of settings) role)) }
{
    Expired::new(alloc, gone_kept(settings, role))
}

/// The pipes from a new port to each connected port of the other role. It fails only for want of
/// memory.
pub fn links_of(
    alloc: Global,
    settings: Settings,
    ports: &Ports,
    new: PortInfo,
) -> Result<Vec<Link>, AllocError>
    ensures { IfOk result (λ links. links.items
        ≡ links_between (settings_of settings) ports.now.ports (bare new)) }
{
    let mut links = Vec::new(alloc);
    for place in 0..ports.len() {
        let Some(info) = ports.at(place) else {
            return Err(AllocError);
        };
        if is_other(info, new) {
            let pipe = new_pipe(alloc, settings, new, info)?;
            links.push(Link {
                to: info.number,
                pipe,
            })?;
        }
    }
    Ok(links)
}
