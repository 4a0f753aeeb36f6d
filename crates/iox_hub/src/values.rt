//! Which values nodes have.
ghost use Rattle.std.specs.Prelude.{◌≡◌, ◌↔◌, ◌==◌, ◌&&◌, IfSome, IsTrue, Some, true};
ghost use Rattle.iox_tables.specs.HubLoans.Questions.{kind_in, kind_of_role};
ghost use Rattle.iox_hub.specs.Hubs.{HasValue};
ghost use Rattle.iox_hub.specs.Sending.{is_handle};

use crate::hub::Hub;
use iox_backpressure::Backpressure;
use iox_hub_ports::info::PortInfo;
use iox_model::kind::{Kind, Role};
use iox_store::Payload;
use iox_words::Words;

/// The kind of a port of that role.
fn kind_of(role: Role) -> Kind
    ensures { result ≡ kind_of_role role }
{
    match role {
        Role::Client => Kind::Client,
        Role::Server => Kind::Server,
    }
}

/// Whether the port of which that is said is the node's, and not released.
#[inline(always)]
fn is_held_by(port: PortInfo, node: u64) -> bool
    ensures { result ≡ (port.held && (port.node == node)) }
{
    port.held && port.node == node
}

impl<Q: Payload, QH: Words, P: Payload, PH: Words, H: Backpressure> Hub<Q, QH, P, PH, H> {
    /// The kind of the node's port or handle of that number, if it has one that is not released. It
    /// is looked for at the hint first.
    #[inline(always)]
    pub fn kind(&self, node: u64, number: u64, hint: usize) -> Option<Kind>
        ensures { result ≡ kind_in self.now.control.tables node number }
    {
        if let Some(entry) = self.control.near(node, number, hint) {
            return Some(entry.kind);
        }
        if let Some(port) = self.control.ports().near(number, hint) {
            if is_held_by(port, node) {
                return Some(kind_of(port.role));
            }
            return None;
        }
        self.kind_far(node, number)
    }

    /// The same, where it is not at the hint. A call of its own, so that the others are short.
    #[inline(never)]
    #[cold]
    fn kind_far(&self, node: u64, number: u64) -> Option<Kind>
        ensures { result ≡ kind_in self.now.control.tables node number }
    {
        match self.control.ports().find(number) {
            Some(port) => {
                if port.held && port.node == node {
                    return Some(kind_of(port.role));
                }
                None
            }
            None => match self.control.entry(node, number, 0) {
                Some(entry) => Some(entry.kind),
                None => None,
            },
        }
    }

    /// The kind of the node's handle or port of that number, if it has one that is not released and
    /// stands where one of that number is likely. With it comes that place, which calls take as a
    /// hint. `None` tells nothing: [`Hub::kind`] says whether there is one. A wrong place is only
    /// slower.
    #[inline(always)]
    pub fn likely(&self, node: u64, number: u64) -> Option<(Kind, usize)>
        ensures { IfSome result (λ found. HasValue self.now node number found.0) }
    {
        let place = self.control.likely_handle(number);
        if let Some(entry) = self.control.near(node, number, place) {
            return Some((entry.kind, place));
        }
        let place = number as usize;
        if self.control.ports().is_near(number, place) {
            return self.likely_port(node, number, place);
        }
        self.likely_port_far(node, number)
    }

    /// The same, of a port, if it is at the hint.
    #[inline(always)]
    fn likely_port(&self, node: u64, number: u64, hint: usize) -> Option<(Kind, usize)>
        ensures { IfSome result (λ found. HasValue self.now node number found.0) }
    {
        let port = self.control.ports().near(number, hint)?;
        if !is_held_by(port, node) {
            return None;
        }
        Some((kind_of(port.role), hint))
    }

    /// The same, where no port stands in the place of its number. A call of its own, so that the
    /// others are short.
    #[inline(never)]
    #[cold]
    fn likely_port_far(&self, node: u64, number: u64) -> Option<(Kind, usize)>
        ensures { IfSome result (λ found. HasValue self.now node number found.0) }
    {
        self.likely_port(node, number, self.place_of(number))
    }

    /// Where the handle that came last is: it may be looked for there first.
    #[inline(always)]
    pub fn last_place(&self) -> usize {
        self.control.last_place()
    }

    /// Where the port of that number stands: it may be looked for there first.
    pub fn place_of(&self, number: u64) -> usize {
        self.control.likely_place(number, 0)
    }

    /// Whether the node has a port or a handle of that number and kind, which is not released. It
    /// is looked for at the hint first.
    #[inline(always)]
    pub fn has(&self, node: u64, number: u64, kind: Kind, hint: usize) -> bool
        ensures { IsTrue result ↔ HasValue self.now node number kind }
    {
        match kind {
            Kind::Client | Kind::Server => self.has_port(node, number, kind, hint),
            _ => self.has_handle(node, number, kind, hint),
        }
    }

    /// The same, where a port is looked for at the hint first.
    #[inline(always)]
    fn has_port(&self, node: u64, number: u64, kind: Kind, hint: usize) -> bool
        ensures { IsTrue result ↔ HasValue self.now node number kind }
    {
        match self.control.ports().near(number, hint) {
            Some(port) => {
                if is_held_by(port, node) {
                    return kind_of(port.role) == kind;
                }
                false
            }
            None => self.has_far(node, number, kind),
        }
    }

    /// The same, where no port is at the hint. A call of its own, so that the others are short.
    #[inline(never)]
    #[cold]
    fn has_far(&self, node: u64, number: u64, kind: Kind) -> bool
        ensures { IsTrue result ↔ HasValue self.now node number kind }
    {
        match self.kind_far(node, number) {
            Some(other) => other == kind,
            None => false,
        }
    }

    /// Whether the node has a handle of that number and kind. It is looked for at the hint first,
    /// and no port is.
    #[inline(always)]
    fn has_handle(&self, node: u64, number: u64, kind: Kind, hint: usize) -> bool
        requires { is_handle kind ≡ true }
        ensures { IsTrue result ↔ HasValue self.now node number kind }
    {
        match self.control.near(node, number, hint) {
            Some(entry) => entry.kind == kind,
            None => self.has_handle_far(node, number, kind),
        }
    }

    /// The same, where it is not at the hint. A call of its own, so that the others are short.
    #[inline(never)]
    #[cold]
    fn has_handle_far(&self, node: u64, number: u64, kind: Kind) -> bool
        requires { is_handle kind ≡ true }
        ensures { IsTrue result ↔ HasValue self.now node number kind }
    {
        match self.control.entry(node, number, 0) {
            Some(entry) => entry.kind == kind,
            None => false,
        }
    }
}
