//! What a hub tells of its service: its settings, its ports by role, and what a node has.
ghost use Rattle.std.specs.List.{list_all};
ghost use Rattle.std.specs.Option.{option_map, option_map_or};
ghost use Rattle.std.specs.Prelude.{◌≡◌, [], IfOk, IfSome, IsSome, None, not, ℕ};
ghost use Rattle.std.specs.Prelude.{false, nat_lt, take, true};
ghost use Rattle.std.specs.Fn.{CalledAt};
ghost use Rattle.iox_attributes.specs.Visits.{VisitsInOrder};
ghost use Rattle.iox_model.specs.Maps.{first_of, is_empty};
ghost use Rattle.iox_model.specs.Peers.{ports_of_role};
ghost use Rattle.iox_model.specs.Services.{numbers_of_node};
ghost use Rattle.iox_handles.specs.Least.{least, lesser};
ghost use Rattle.iox_tables.specs.HubLoans.Questions.{kind_in};
ghost use Rattle.iox_tables.specs.HubStates.States.{Given};
ghost use Rattle.iox_laws.specs.ServiceLaws.Listings.{are_ascending};
ghost use Rattle.iox_tables.specs.HubStates.Tables.{numbers_of};
ghost use Rattle.iox_tables.specs.HubStates.Wirings.{numbers_of_role};
ghost use Rattle.iox_hub_ports.specs.Ports.{info_at};
ghost use Rattle.iox_control.specs.Settings.{settings_of};
ghost use Rattle.iox_hub.specs.Hubs.{state_of_hub};
ghost use Rattle.iox_hub.specs.Listings.{NoneBefore, held_number, held_ports, ids_of_role};
ghost use Rattle.iox_hub.specs.Listings.{role_id, role_ids, role_number};
ghost use Rattle.iox_hub.specs.Sending.{HasNothing};

use crate::hub::Hub;
use iox_backpressure::Backpressure;
use iox_control::Settings;
use iox_handles::{Numbered, lesser};
use iox_hub_ports::ports::Ports;
use iox_hub_ports::walks::is_same_role;
use iox_model::kind::Role;
use iox_store::Payload;
use iox_types::identifiers::{UniqueId, UniqueSystemId};
use iox_words::{CallbackProgression, Words};
use std::alloc::{AllocError, Global};

/// What is ahead where nothing is known: no number is less than 0.
pub(crate) const START: Option<Numbered> = Some(Numbered {
    number: 0,
    place: 0,
});

/// The number of the port in that place, if it is of that role.
fn number_at(ports: &Ports, at: usize, role: Role) -> Option<u64>
    ensures { result ≡ role_number role (info_at ports.now.ports at) }
{
    let port = ports.at(at)?;
    if is_same_role(port.role, role) {
        return Some(port.number);
    }
    None
}

/// The numbers of the ports of that role, in their order.
fn list(ports: &Ports, alloc: Global, role: Role) -> Result<Vec<u64>, AllocError>
    ensures { IfOk result (λ numbers. numbers.items ≡ numbers_of_role role ports.now.ports) }
{
    let mut numbers = Vec::with_capacity(alloc, ports.len())?;
    for at in 0..ports.len() {
        if let Some(number) = number_at(ports, at, role) {
            numbers.push(number)?;
        }
    }
    Ok(numbers)
}

/// The id of the port in that place, if it is of that role.
fn id_at(ports: &Ports, at: usize, role: Role) -> Option<UniqueSystemId>
    ensures { result ≡ role_id role (info_at ports.now.ports at) }
{
    let port = ports.at(at)?;
    if is_same_role(port.role, role) {
        return Some(port.id);
    }
    None
}

/// Calls `callback` with the id of each port of that role, in their order, as far as it says
/// `Continue`.
fn list_ids<K, F: FnMut(&UniqueId<K>) -> CallbackProgression>(
    ports: &Ports,
    role: Role,
    mut callback: F,
)
    requires { F.IsAlwaysCallable callback }
    ensures { VisitsInOrder (CalledAt F.FnMut) callback (role_ids role ports.now.ports) }
{
    for at in 0..ports.len() {
        let Some(id) = id_at(ports, at, role) else {
            continue;
        };
        if callback(&UniqueId::new(id)) == CallbackProgression::Stop {
            return;
        }
    }
}

/// The number of the port in that place, if it is of that node and its own value is still there.
fn held_at(ports: &Ports, at: usize, node: u64) -> Option<u64>
    ensures { result ≡ held_number node (info_at ports.now.ports at) }
{
    let info = ports.at(at)?;
    if info.node == node && info.held {
        return Some(info.number);
    }
    None
}

/// Whether the port in that place has a number less than that.
#[inline]
fn is_below(ports: &Ports, at: usize, number: u64) -> bool
    ensures { result ≡ option_map_or (λ i. nat_lt i.number number) (info_at ports.now.ports at)
        false }
{
    match ports.at(at) {
        Some(port) => port.number < number,
        None => false,
    }
}

/// A place before which each port has a number less than that, from the hint on downwards.
fn place_from(ports: &Ports, number: u64, hint: usize) -> usize
    requires { are_ascending (numbers_of ports.now.ports) ≡ true }
    ensures { list_all (λ p. nat_lt p.number number) (take result ports.now.ports) ≡ true }
{
    let mut place = hint.min(ports.len());
    while place > 0 {
        if is_below(ports, place - 1, number) {
            return place;
        }
        place -= 1;
    }
    place
}

/// The first of the node's ports whose own values are still there, from that place on.
fn held_from(ports: &Ports, node: u64, place: usize) -> Option<Numbered>
    requires { held_ports (take place ports.now.ports) node ≡ [] }
    ensures { option_map (λ v. v.number) result ≡ first_of (held_ports ports.now.ports node) }
{
    for at in place..ports.len() {
        if let Some(number) = held_at(ports, at, node) {
            return Some(Numbered { number, place: at });
        }
    }
    None
}

/// The number of the port or the handle, if there is one.
#[inline]
fn number_of(value: Option<Numbered>) -> Option<u64>
    ensures { result ≡ option_map (λ v. v.number) value }
{
    Some(value?.number)
}

/// The lesser of a port and of a handle, or the one that there is.
fn lesser_value(port: Option<Numbered>, handle: Option<Numbered>) -> Option<Numbered>
    ensures { option_map (λ v. v.number) result
        ≡ lesser (option_map (λ v. v.number) port) (option_map (λ v. v.number) handle) }
{
    match (port, handle) {
        (Some(one), Some(other)) if other.number < one.number => handle,
        (Some(_), _) => port,
        (None, _) => handle,
    }
}

impl<Q: Payload, QH: Words, P: Payload, PH: Words, H: Backpressure> Hub<Q, QH, P, PH, H> {
    /// The numbers and strategies of its service: what the hub was made with, where each limit of 0
    /// is 1, but for those of what is kept of ports that are gone.
    #[inline]
    pub fn settings(&self) -> Settings
        ensures { settings_of result ≡ self.now.control.tables.settings }
    {
        self.control.settings()
    }

    /// The numbers of the connected ports of that role, ascending. It looks at each port once, and
    /// fails only for want of memory.
    pub fn list_ports(&self, alloc: Global, role: Role) -> Result<Vec<u64>, AllocError>
        ensures { IfOk result (λ numbers. (x : Given)
            → numbers.items ≡ ports_of_role (state_of_hub x self.now).fixed role) }
    {
        list(self.control.ports(), alloc, role)
    }

    /// Calls `callback` with the id of each connected port of that role, in the order of their
    /// numbers, as far as it says `Continue`. It looks at each port once, and takes no memory.
    pub fn list_ids<K, F: FnMut(&UniqueId<K>) -> CallbackProgression>(
        &self,
        role: Role,
        callback: F,
    )
        requires { F.IsAlwaysCallable callback }
        ensures { (x : Given) → VisitsInOrder (CalledAt F.FnMut) callback
            (ids_of_role (state_of_hub x self.now).fixed role) }
    {
        list_ids(self.control.ports(), role, callback);
    }

    /// The node's port of the least number whose own value is still there, if one is. What is ahead
    /// says that none has a lesser number, and where it is looked for first; it is nothing if none
    /// is left.
    pub(crate) fn next_port(&self, node: u64, ahead: Option<Numbered>) -> Option<Numbered>
        requires { NoneBefore ahead (held_ports self.now.control.tables.ports node) }
        ensures { option_map (λ v. v.number) result
            ≡ least (held_ports self.now.control.tables.ports node) }
    {
        self.is_in_order();
        let Some(ahead) = ahead else {
            return None;
        };
        let ports = self.control.ports();
        held_from(ports, node, place_from(ports, ahead.number, ahead.place))
    }

    /// The least number of the node's ports and handles that are not released. It looks at each
    /// port and each handle at most once.
    pub fn first_number(&self, node: u64) -> Option<u64>
        ensures first { (x : Given)
            → result ≡ first_of (numbers_of_node (state_of_hub x self.now).fixed node) }
        ensures has { IfSome result (λ n. IsSome (kind_in self.now.control.tables node n)) }
        ensures none { result ≡ None → (n : ℕ) → HasNothing self.now node n }
    {
        lesser(
            number_of(self.next_port(node, START)),
            self.control.handles().least_of(node),
        )
    }

    /// The same number, where that port is the node's first one, and where its handle is looked for
    /// first. Where a node's values are released one after another, and this is asked before each,
    /// it looks at each handle a few times in all.
    pub(crate) fn first_value(&mut self, node: u64, port: Option<Numbered>) -> Option<Numbered>
        requires port { option_map (λ v. v.number) port
            ≡ least (held_ports self.old.control.tables.ports node) }
        ensures first { (x : Given) → option_map (λ v. v.number) result
            ≡ first_of (numbers_of_node (state_of_hub x self.old).fixed node) }
        ensures has { IfSome result (λ v. IsSome (kind_in self.old.control.tables node v.number)) }
        ensures none { result ≡ None → (n : ℕ) → HasNothing self.old node n }
        ensures unchanged { self.new ≡ self.old }
    {
        let handle = self.control.first_handle(node);
        lesser_value(port, handle)
    }

    /// Whether the node has a port or a handle that is not released.
    pub fn has_values(&self, node: u64) -> bool
        ensures { (x : Given)
            → result ≡ not (is_empty (numbers_of_node (state_of_hub x self.now).fixed node)) }
    {
        self.first_number(node).is_some()
    }
}
