//! Single changes as ports come and go.
ghost use Rattle.std.specs.Prelude.{◌≡◌, ◌<◌, ◌+◌, ◌^◌, IfOk, IsSome, None, OnErr, OnOk, false};
ghost use Rattle.std.specs.Option.{option_map_or};
ghost use Rattle.iox_model.specs.Maps.{has_number};
ghost use Rattle.iox_lanes.specs.Incomings.{has_room_for};
ghost use Rattle.iox_hub_ports.specs.HubStates.Tables.{numbers_of, port_in};
ghost use Rattle.iox_hub_ports.specs.HubMaking.OneByOne.{without_first_pipe};
ghost use Rattle.iox_hub_ports.specs.HubStates.Ways.{with_port};
ghost use Rattle.iox_hub_ports.specs.Ports.{gone_from, with_connected, without_port};
ghost use Rattle.iox_slots.specs.Pools.{place_for_one, with_one_more, without_pool};
ghost use Rattle.iox_slots.specs.Slots.{new_pool};
ghost use Rattle.iox_control.specs.Controls.{with_number, with_pools, with_port_added, with_port_removed, with_ports};

use crate::control::Control;
use iox_hub_ports::port::Port;
use iox_hub_ports::ports::Ports;
use iox_lanes::pipe::Pipe;
use iox_slots::Pools;
use iox_types::identifiers::UniqueSystemId;
use std::alloc::{AllocError, Global};

/// Each port's pool is told where the port is.
fn tell_places(ports: &Ports, pools: &mut Pools)
    ensures { pools.new ≡ pools.old }
{
    for at in 0..ports.len() {
        if let Some(port) = ports.at(at) {
            pools.set_at(port.pool, at);
        }
    }
}

impl Control {
    // ---- room

    /// Makes room for so many handles more.
    pub fn reserve_handles(&mut self, more: usize) -> Result<(), AllocError>
        ensures reserved { OnOk result (self.new
            ≡ record (self.old) { room = self.old.room + more }) }
        ensures unchanged { OnErr result (self.new ≡ self.old) }
    {
        self.handles.reserve(more)
    }

    /// Makes room for so many ports more.
    pub fn reserve_ports(&mut self, more: usize) -> Result<(), AllocError>
        ensures reserved { OnOk result (self.new
            ≡ record (self.old) { port_room = self.old.port_room + more }) }
        ensures unchanged { OnErr result (self.new ≡ self.old) }
    {
        self.ports.reserve(more)
    }

    // ---- pools

    /// Makes a pool of so many slots that nobody has, and tells its place. It fails only for want
    /// of memory.
    pub fn add_pool(
        &mut self,
        alloc: Global,
        port: u64,
        node_id: UniqueSystemId,
        port_id: UniqueSystemId,
        size: usize,
    ) -> Result<usize, AllocError>
        ensures place { IfOk result (λ place. place ≡ place_for_one self.old.tables.pools) }
        ensures added { OnOk result (self.new ≡ with_pools self.old
            (with_one_more self.old.tables.pools (new_pool port node_id port_id size))) }
        ensures unchanged { OnErr result (self.new ≡ self.old) }
    {
        let place = self.pools.add(alloc, port, node_id, port_id, size)?;
        self.pools.set_at(place, self.ports.len());
        Ok(place)
    }

    /// Removes the pool in this place, if there is one.
    pub fn remove_pool(&mut self, place: usize)
        ensures { self.new ≡ with_pools self.old (without_pool self.old.tables.pools place) }
    {
        self.pools.remove(place);
    }

    // ---- ports

    /// Adds a port of a new number.
    pub fn add_port(&mut self, port: Port)
        requires room { 0 < self.old.port_room }
        requires fresh { has_number port.number (numbers_of self.old.tables.ports) ≡ false }
        ensures { self.new ≡ with_port_added self.old port }
    {
        self.ports.add(port);
    }

    /// Takes the port of that number out, if there is one.
    pub fn remove_port(&mut self, number: u64) -> Option<Port>
        ensures port { result ≡ port_in self.old.tables.ports number }
        ensures removed { IsSome result → self.new ≡ with_port_removed self.old number }
        ensures unchanged { result ≡ None → self.new ≡ self.old }
    {
        let port = self.ports.remove(number)?;
        tell_places(&self.ports, &mut self.pools);
        Some(port)
    }

    /// One more pipe leads to the port of that number. It says whether there was room.
    pub fn connect(&mut self, number: u64, pipe: Pipe) -> bool
        ensures room { result
            ≡ option_map_or (λ p. has_room_for p.incoming)
            (port_in self.old.tables.ports number) false }
        ensures connected { self.new ≡ with_ports self.old
            (with_port (λ p. with_connected p pipe) self.old.tables.ports number) }
    {
        self.ports.connect(number, pipe)
    }

    /// This connected sender to the port of that number is gone: the pipe from it is kept if
    /// something waits there. It tells the pipe that goes, if one does.
    pub fn expire(&mut self, number: u64, sender: u64) -> Option<Pipe>
        ensures gone { result
            ≡ option_map_or (λ p. gone_from p sender)
            (port_in self.old.tables.ports number) None }
        ensures left { self.new ≡ with_ports self.old
            (with_port (without_first_pipe sender) self.old.tables.ports number) }
    {
        self.ports.expire(number, sender)
    }

    /// Counts one port more, whose number is the next one.
    pub fn count_port(&mut self)
        requires number { self.old.tables.next_number + 1 < 2 ^ 64 }
        requires made { self.old.tables.ports_made + 1 < 2 ^ 64 }
        ensures { self.new ≡ with_number self.old }
    {
        self.next_number += 1;
        self.ports_made += 1;
    }
}
