//! The handlers of a hub's ports.
ghost use Rattle.std.specs.Prelude.{◌≡◌, ◌<◌, ◌≤◌, [], IsSome, OnOk, filter, vec_capacity, vec_len};
ghost use Rattle.std.specs.Option.{option_map};
ghost use Rattle.iox_backpressure.specs.Answers.{shown_by};
ghost use Rattle.iox_backpressure.specs.Handlers.{handler_in, handlers_with, is_kept};

use crate::backpressure::Backpressure;
use iox_hub_ports::ports::Ports;
use std::alloc::{AllocError, Global};
use std::marker::Model;

/// The handler of the port of that number.
#[derive(Clone, Copy, Drop)]
pub struct PortHandler<H> {
    port: u64,
    handler: H,
}

/// Which ports have a handler, and which. Callers see the words of each port's handler, in
/// the order in which they were set, and for how many more there is room.
#[derive(Drop)]
pub struct Handlers<H: Backpressure> {
    items: Vec<PortHandler<H>>,
}

impl<H: Backpressure> Model for Handlers<H> {
    ghost use Rattle.std.specs.Prelude.{◌-◌, length, map, vec_capacity};
    ghost use Rattle.iox_backpressure.specs.Answers.{shown_by};
    ghost use Rattle.iox_backpressure.specs.Handlers.{HandlersState};

    ghost Value = { HandlersState };

    ghost view = { λ h. record {
      list = map (λ x. (x.port, shown_by H.action x.handler)) h.items.items;
      room = vec_capacity h.items - length h.items.items;
    } };
}

/// Whether the handler of this port stays once that port has another.
fn stays(ports: &Ports, port: u64, other: u64) -> bool
    ensures { result ≡ is_kept ports.now.ports port other }
{
    other != port && ports.find(other).is_some()
}

/// Lets go of the handlers of that port, and of ports that are gone.
fn keep<H: Backpressure>(items: &mut Vec<PortHandler<H>>, ports: &Ports, port: u64)
    ensures items { items.new.items
        ≡ filter (λ x. is_kept ports.now.ports port x.port) items.old.items }
    ensures bound { vec_len items.new ≤ vec_len items.old }
    ensures capacity { vec_capacity items.new ≡ vec_capacity items.old }
{
    items.retain(|x| stays(ports, port, x.port));
}

impl<H: Backpressure> Handlers<H> {
    /// No port has a handler.
    pub fn new(alloc: Global) -> Self
        ensures { result.list ≡ [] }
    {
        Handlers {
            items: Vec::new(alloc),
        }
    }

    /// The handler of that port, if it has one.
    pub fn find(&self, port: u64) -> Option<H>
        ensures { option_map (shown_by H.action) result ≡ handler_in self.now.list port }
    {
        for x in &self.items {
            if x.port == port {
                return Some(x.handler);
            }
        }
        None
    }

    /// Makes room for this handler, if it is one.
    pub fn make_room(&mut self, handler: Option<H>) -> Result<(), AllocError>
        ensures room { OnOk result (IsSome handler → 0 < self.new.room) }
        ensures unchanged { self.new.list ≡ self.old.list }
    {
        if handler.is_none() {
            return Ok(());
        }
        self.items.reserve(1)
    }

    /// The port has this handler, or none. Those of other ports stay, and those of ports that are
    /// gone go.
    pub fn set(&mut self, ports: &Ports, port: u64, handler: Option<H>)
        requires room { IsSome handler → 0 < self.old.room }
        ensures { self.new.list ≡ handlers_with ports.now.ports port
            (option_map (shown_by H.action) handler) self.old.list }
    {
        keep(&mut self.items, ports, port);
        if let Some(handler) = handler {
            self.items.push_reserved(PortHandler { port, handler });
        }
    }
}
