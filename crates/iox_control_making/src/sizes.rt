//! How many ports of each role there are, how many messages they have, and what they keep of ports
//! that are gone.
ghost use Rattle.std.specs.Prelude.{◌≡◌, ◌+◌, ◌*◌, IfSome};
ghost use Rattle.iox_control_making.specs.Sizes.{all_handles, all_lanes};
ghost use Rattle.iox_control_making.specs.Sizes.{no_sizes, sizes_among, with_kept, with_size};

use iox_hub_ports::ports::Ports;
use iox_model::kind::Role;

/// How many ports of each role there are, how many messages these have together, and how many lanes
/// the pipes have that lead to them from ports that are gone.
#[derive(Clone, Copy)]
pub struct Sizes {
    /// How many clients are connected.
    pub clients: usize,
    /// How many servers are connected.
    pub servers: usize,
    /// How many messages the clients have together.
    pub client_messages: usize,
    /// How many messages the servers have together.
    pub server_messages: usize,
    /// How many lanes the pipes have together that clients keep of servers that are gone.
    pub client_kept: usize,
    /// How many lanes the pipes have together that servers keep of clients that are gone.
    pub server_kept: usize,
}

/// No port.
fn no_sizes() -> Sizes
    ensures { result ≡ no_sizes }
{
    Sizes {
        clients: 0,
        servers: 0,
        client_messages: 0,
        server_messages: 0,
        client_kept: 0,
        server_kept: 0,
    }
}

/// One port more, unless that is too large to be counted.
pub fn with_size(sizes: Sizes, role: Role, size: usize) -> Option<Sizes>
    ensures { IfSome result (λ s. s ≡ with_size sizes role size) }
{
    match role {
        Role::Client => Some(Sizes {
            clients: sizes.clients.checked_add(1)?,
            servers: sizes.servers,
            client_messages: sizes.client_messages.checked_add(size)?,
            server_messages: sizes.server_messages,
            client_kept: sizes.client_kept,
            server_kept: sizes.server_kept,
        }),
        Role::Server => Some(Sizes {
            clients: sizes.clients,
            servers: sizes.servers.checked_add(1)?,
            client_messages: sizes.client_messages,
            server_messages: sizes.server_messages.checked_add(size)?,
            client_kept: sizes.client_kept,
            server_kept: sizes.server_kept,
        }),
    }
}

/// With so many pipes from ports that are gone to a port of that role and size, unless that is too
/// large to be counted.
fn with_kept(sizes: Sizes, role: Role, size: usize, kept: usize) -> Option<Sizes>
    ensures { IfSome result (λ s. s ≡ with_kept sizes role size kept) }
{
    match role {
        Role::Client => Some(Sizes {
            clients: sizes.clients,
            servers: sizes.servers,
            client_messages: sizes.client_messages,
            server_messages: sizes.server_messages,
            client_kept: sizes.client_kept.checked_add(kept.checked_mul(size)?)?,
            server_kept: sizes.server_kept,
        }),
        Role::Server => Some(Sizes {
            clients: sizes.clients,
            servers: sizes.servers,
            client_messages: sizes.client_messages,
            server_messages: sizes.server_messages,
            client_kept: sizes.client_kept,
            server_kept: sizes.server_kept.checked_add(kept)?,
        }),
    }
}

/// What the connected ports come to, unless that is too large to be counted.
pub fn sizes_of(ports: &Ports) -> Option<Sizes>
    ensures { IfSome result (λ s. s ≡ sizes_among ports.now.ports) }
{
    let mut sizes = no_sizes();
    for place in 0..ports.len() {
        let info = ports.at(place)?;
        let more = with_size(sizes, info.role, info.size)?;
        sizes = with_kept(more, info.role, info.size, ports.kept(place))?;
    }
    Some(sizes)
}

/// How many lanes lead to so many ports.
pub fn lanes_of(sizes: Sizes) -> Option<usize>
    ensures { IfSome result (λ n. n ≡ all_lanes sizes) }
{
    let from_each = sizes.client_messages.checked_add(sizes.clients)?;
    let kept = sizes.client_kept.checked_add(sizes.server_kept)?;
    sizes.servers.checked_mul(from_each)?.checked_add(kept)
}

/// The most handles that so many ports may have, where so many responses, and so many requests, may
/// be received on one lane.
pub fn handles_of(sizes: Sizes, responses: usize, requests: usize) -> Option<usize>
    ensures { IfSome result (λ n. n ≡ all_handles sizes responses requests) }
{
    let received = sizes.client_messages.checked_mul(responses)?;
    let asked = sizes.clients.checked_mul(requests)?;
    let from_each = received.checked_add(asked)?;
    let kept_responses = sizes.client_kept.checked_mul(responses)?;
    let kept_requests = sizes.server_kept.checked_mul(requests)?;
    let kept = kept_responses.checked_add(kept_requests)?;
    let own = sizes.client_messages.checked_add(sizes.server_messages)?;
    sizes
        .servers
        .checked_mul(from_each)?
        .checked_add(kept)?
        .checked_add(own)
}
