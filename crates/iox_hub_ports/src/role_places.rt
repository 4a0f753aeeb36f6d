//! The places of ports, by their roles.
ghost use Rattle.std.specs.Prelude.{◌≡◌, ◌≤◌, ◌<◌, ◌++◌, ◌∷◌, [], if◌then◌else◌, IfOk, OnErr, OnOk, Some, length, slice_get};
ghost use Rattle.std.specs.Vec.{vec_capacity};
ghost use Rattle.iox_model.specs.Settings.{same_role};
ghost use Rattle.iox_hub_ports.specs.InPlace.{none_listed, places_of, listed};

use crate::port::Port;
use crate::walks::is_same_role;
use iox_model::kind::Role;
use std::alloc::{AllocError, Global};
use std::marker::Model;

/// The places of clients, and of servers, ascending. Only `new` and `reserve` take memory.
#[derive(Drop)]
pub struct RolePlaces {
    most: usize,
    clients: Vec<usize>,
    servers: Vec<usize>,
}

impl Model for RolePlaces {
    ghost use Rattle.std.specs.Vec.{vec_capacity};
    ghost use Rattle.iox_hub_ports.specs.InPlace.{HaveRoom, RolePlacesState};

    ghost Value = { RolePlacesState };

    ghost view = { λ s. record {
      most = s.most;
      clients = s.clients.items;
      servers = s.servers.items;
    } };

    ghost invariant = { λ s. HaveRoom s.most (vec_capacity s.clients) (vec_capacity s.servers) };
}

/// Puts the place behind the others, if the port is of that role.
fn put(list: &mut Vec<usize>, place: usize, port: &Port, role: Role)
    requires { length list.old.items < vec_capacity list.old }
    ensures items { list.new.items
        ≡ (if same_role port.now.role role then list.old.items ++ place ∷ [] else list.old.items) }
    ensures capacity { vec_capacity list.new ≡ vec_capacity list.old }
{
    if is_same_role(port.role(), role) {
        list.push_reserved(place);
    }
}

/// Lists the places of the ports of that role. There is memory for all.
fn list_places(list: &mut Vec<usize>, ports: &Vec<Port>, role: Role)
    requires { length ports.now.items ≤ vec_capacity list.old }
    ensures places { list.new.items ≡ places_of role ports.now.items }
    ensures capacity { vec_capacity list.new ≡ vec_capacity list.old }
{
    list.clear();
    for place in 0..ports.len() {
        put(list, place, &ports[place], role);
    }
}

/// Tells the port in the place its rank, if one is there.
fn tell_rank(ports: &mut Vec<Port>, place: usize, rank: usize)
    ensures ports { ports.new.items ≡ ports.old.items }
    ensures capacity { vec_capacity ports.new ≡ vec_capacity ports.old }
{
    if place < ports.len() {
        ports[place].set_rank(rank);
    }
}

/// Tells the ports in these places their ranks.
fn tell_ranks(ports: &mut Vec<Port>, places: &Vec<usize>)
    ensures ports { ports.new.items ≡ ports.old.items }
    ensures capacity { vec_capacity ports.new ≡ vec_capacity ports.old }
{
    for rank in 0..places.len() {
        tell_rank(ports, places[rank], rank);
    }
}

/// Lists where the ports are, and tells each its rank among those of its role.
pub fn arrange(ports: &mut Vec<Port>, lists: &mut RolePlaces)
    requires { length ports.old.items ≤ lists.old.most }
    ensures ports { ports.new.items ≡ ports.old.items }
    ensures capacity { vec_capacity ports.new ≡ vec_capacity ports.old }
    ensures lists { lists.new ≡ listed lists.old.most ports.old.items }
{
    lists.fill(ports);
    tell_ranks(ports, &lists.clients);
    tell_ranks(ports, &lists.servers);
}

impl RolePlaces {
    /// No port, and room for so many.
    pub fn new(alloc: Global, most: usize) -> Result<RolePlaces, AllocError>
        ensures { IfOk result (λ lists. lists ≡ none_listed most) }
    {
        Ok(RolePlaces {
            most,
            clients: Vec::with_capacity(alloc, most)?,
            servers: Vec::with_capacity(alloc, most)?,
        })
    }

    /// Makes room for so many ports in all.
    pub fn reserve(&mut self, most: usize) -> Result<(), AllocError>
        ensures reserved { OnOk result (self.new ≡ record (self.old) { most = most }) }
        ensures unchanged { OnErr result (self.new ≡ self.old) }
    {
        self.clients.reserve(most)?;
        self.servers.reserve(most)?;
        self.most = most;
        Ok(())
    }

    /// These are the ports.
    pub fn fill(&mut self, ports: &Vec<Port>)
        requires { length ports.now.items ≤ self.old.most }
        ensures { self.new ≡ listed self.old.most ports.now.items }
    {
        list_places(&mut self.clients, ports, Role::Client);
        list_places(&mut self.servers, ports, Role::Server);
    }

    /// How many clients there are.
    #[inline(always)]
    pub fn clients_len(&self) -> usize
        ensures { result ≡ length self.now.clients }
    {
        self.clients.len()
    }

    /// How many servers there are.
    #[inline(always)]
    pub fn servers_len(&self) -> usize
        ensures { result ≡ length self.now.servers }
    {
        self.servers.len()
    }

    /// The place of the client of that rank among all.
    #[inline(always)]
    pub fn client(&self, rank: usize) -> usize
        requires { rank < length self.now.clients }
        ensures { slice_get self.now.clients rank ≡ Some result }
    {
        self.clients[rank]
    }

    /// The place of the server of that rank among all.
    #[inline(always)]
    pub fn server(&self, rank: usize) -> usize
        requires { rank < length self.now.servers }
        ensures { slice_get self.now.servers rank ≡ Some result }
    {
        self.servers[rank]
    }
}
