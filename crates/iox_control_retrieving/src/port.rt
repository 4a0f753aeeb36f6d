//! What was given back to one port.
ghost use Rattle.std.specs.Prelude.{◌≡◌, ◌<◌, Some, false, length, slice_get, true};
ghost use Rattle.iox_model.specs.declared.kind.Role.TheVariants.{Client, Server};
ghost use Rattle.iox_tables.specs.HubStates.Tables.{PortState, port_in};
ghost use Rattle.iox_tables.specs.HubLoans.Lenders.{ways_by};
ghost use Rattle.iox_hub_ports.specs.declared.info.PortInfo.{PortInfo};
ghost use Rattle.iox_hub_ports.specs.Ports.{info_at, info_in, info_of, place_in};
ghost use Rattle.iox_tables.specs.HubLending.Emptying.{AreGotBack, with_back};
ghost use Rattle.iox_control.specs.Controls.{ControlState, IsControl, with_tables};
ghost use Rattle.iox_control_retrieving.specs.Retrieving.{GetsBack, IsOther, ways_before, ways_to};

use iox_control::Control;
use iox_hub_ports::info::PortInfo;
use iox_lanes::pipe::Left;
use iox_model::kind::Role;

/// Gets back all that the port in that place, which is of the other role, gave back to the sender.
/// The pipe from it is looked for at the hint first.
#[inline(always)]
fn retrieve_from(control: &mut Control, sender: &PortInfo, at: usize, hint: usize)
    requires order { IsControl control.old }
    requires from { info_in control.old.tables.ports sender.now.number ≡ Some sender.now }
    requires to { IsOther sender.now.role control.old.tables.ports at }
    ensures { (p : PortState) → slice_get control.old.tables.ports at ≡ Some p
        → GetsBack control.old
        (ways_to sender.now.role control.old.tables sender.now.number (info_of p)) control.new }
{
    while let Some(next) = control.get_next_in(at, sender.number, hint) {
        control.let_go_of(sender.pool, next.place);
        if !next.more {
            return;
        }
    }
}

/// Gets back all that was given back to a port of which that is said. The pipes from it are looked
/// for at the hint first.
#[inline(always)]
pub fn retrieve_all_of(control: &mut Control, sender: &PortInfo, hint: usize)
    requires order { IsControl control.old }
    requires said { info_in control.old.tables.ports sender.now.number ≡ Some sender.now }
    ensures left { (p : PortState)
        → port_in control.old.tables.ports sender.now.number ≡ Some p
        → control.new ≡ with_tables control.old
        (with_back control.old.tables p control.new.tables.pools) }
    ensures back { (p : PortState)
        → port_in control.old.tables.ports sender.now.number ≡ Some p
        → AreGotBack control.old.tables p control.new.tables.pools }
    ensures order { IsControl control.new }
{
    for rank in 0..control.ports().others_len(sender.role) {
        let at = control.ports().other(sender.role, rank);
        retrieve_from(control, sender, at, hint);
    }
}

/// Gets back all that the port in that place, which is of the other role, gave back to the sender.
/// It is likely one message at most: that one is got back with no loop.
#[inline(always)]
fn retrieve_few(control: &mut Control, sender: &PortInfo, at: usize, hint: usize)
    requires order { IsControl control.old }
    requires from { info_in control.old.tables.ports sender.now.number ≡ Some sender.now }
    requires to { IsOther sender.now.role control.old.tables.ports at }
    ensures { (p : PortState) → slice_get control.old.tables.ports at ≡ Some p
        → GetsBack control.old
        (ways_to sender.now.role control.old.tables sender.now.number (info_of p)) control.new }
{
    let Some(first) = control.get_next_in(at, sender.number, hint) else {
        return;
    };
    control.let_go_of(sender.pool, first.place);
    if !first.more {
        return;
    }
    while let Some(later) = control.get_next_in(at, sender.number, hint) {
        control.let_go_of(sender.pool, later.place);
        if !later.more {
            return;
        }
    }
}

/// Gets back all that the port in that place, which is of the other role, gave back to the sender,
/// where that is likely one message at most. Else it is another way: `false` says that nothing
/// changed. Both arms say the same, so that each knows how much is left.
#[inline(always)]
fn retrieve_usual(control: &mut Control, sender: &PortInfo, at: usize, hint: usize) -> bool
    requires order { IsControl control.old }
    requires from { info_in control.old.tables.ports sender.now.number ≡ Some sender.now }
    requires to { IsOther sender.now.role control.old.tables.ports at }
    ensures back { result ≡ true → (p : PortState)
        → slice_get control.old.tables.ports at ≡ Some p → GetsBack control.old
        (ways_to sender.now.role control.old.tables sender.now.number (info_of p)) control.new }
    ensures unchanged { result ≡ false → control.new ≡ control.old }
{
    match control.ports().left_in(at, sender.number, hint) {
        Left::Nothing => {
            retrieve_few(control, sender, at, hint);
            true
        }
        Left::One => {
            retrieve_few(control, sender, at, hint);
            true
        }
        Left::Other => false,
    }
}

/// Gets back what the ports of the other role, from that rank on, gave back to a port that is in
/// that place. Where all before had been got back, all is. A call of its own, so that the others
/// are short.
#[inline(never)]
#[cold]
fn retrieve_rest(control: &mut Control, at: usize, from: usize)
    requires order { IsControl control.old }
    requires there { at < length control.old.tables.ports }
    ensures { (c : ControlState) → (sender : PortInfo) → IsControl c
        → Some sender ≡ info_at control.old.tables.ports at
        → info_in c.tables.ports sender.number ≡ Some sender
        → GetsBack c (ways_before c sender from) control.old → (p : PortState)
        → port_in c.tables.ports sender.number ≡ Some p
        → GetsBack c (ways_by p.role c.tables p.number) control.new }
{
    let sender = control.ports().known_at(at);
    let hint = control.ports().rank(at);
    for rank in from..control.ports().others_len(sender.role) {
        let other = control.ports().other(sender.role, rank);
        retrieve_from(control, &sender, other, hint);
    }
}

/// Gets back all that was given back to a port of that role, which is in that place.
#[inline(always)]
fn retrieve_each(control: &mut Control, role: Role, at: usize)
    requires order { IsControl control.old }
    requires there { (p : PortState) × (slice_get control.old.tables.ports at ≡ Some p)
        × (p.role ≡ role) }
    ensures left { (p : PortState) → slice_get control.old.tables.ports at ≡ Some p
        → control.new ≡ with_tables control.old
        (with_back control.old.tables p control.new.tables.pools) }
    ensures back { (p : PortState) → slice_get control.old.tables.ports at ≡ Some p
        → AreGotBack control.old.tables p control.new.tables.pools }
    ensures order { IsControl control.new }
{
    let sender = PortInfo {
        role,
        ..control.ports().known_at(at)
    };
    let hint = control.ports().rank(at);
    for rank in 0..control.ports().others_len(role) {
        let other = control.ports().other(role, rank);
        if !retrieve_usual(control, &sender, other, hint) {
            retrieve_rest(control, at, rank);
            return;
        }
    }
}

/// The same of a client. A call of its own, so that others are short.
#[inline(never)]
#[cold]
fn retrieve_of_client(control: &mut Control, at: usize)
    requires order { IsControl control.old }
    requires there { (p : PortState) × (slice_get control.old.tables.ports at ≡ Some p)
        × (p.role ≡ Client) }
    ensures left { (p : PortState) → slice_get control.old.tables.ports at ≡ Some p
        → control.new ≡ with_tables control.old
        (with_back control.old.tables p control.new.tables.pools) }
    ensures back { (p : PortState) → slice_get control.old.tables.ports at ≡ Some p
        → AreGotBack control.old.tables p control.new.tables.pools }
    ensures order { IsControl control.new }
{
    retrieve_each(control, Role::Client, at);
}

/// The same of a server. A call of its own, so that others are short.
#[inline(never)]
#[cold]
fn retrieve_of_server(control: &mut Control, at: usize)
    requires order { IsControl control.old }
    requires there { (p : PortState) × (slice_get control.old.tables.ports at ≡ Some p)
        × (p.role ≡ Server) }
    ensures left { (p : PortState) → slice_get control.old.tables.ports at ≡ Some p
        → control.new ≡ with_tables control.old
        (with_back control.old.tables p control.new.tables.pools) }
    ensures back { (p : PortState) → slice_get control.old.tables.ports at ≡ Some p
        → AreGotBack control.old.tables p control.new.tables.pools }
    ensures order { IsControl control.new }
{
    retrieve_each(control, Role::Server, at);
}

/// Gets back all that was given back to a port that is in that place. A call of its own, so that
/// others are short.
#[inline(never)]
#[cold]
fn retrieve_several(control: &mut Control, at: usize)
    requires order { IsControl control.old }
    requires there { at < length control.old.tables.ports }
    ensures left { (p : PortState) → slice_get control.old.tables.ports at ≡ Some p
        → control.new ≡ with_tables control.old
        (with_back control.old.tables p control.new.tables.pools) }
    ensures back { (p : PortState) → slice_get control.old.tables.ports at ≡ Some p
        → AreGotBack control.old.tables p control.new.tables.pools }
    ensures order { IsControl control.new }
{
    let sender = control.ports().known_at(at);
    let hint = control.ports().rank(at);
    retrieve_all_of(control, &sender, hint);
}

/// Gets back all that was given back to a port of which that is said, and which is in that place.
/// Where there is one port of the other role, it is no call.
#[inline(always)]
pub fn retrieve_all_in(control: &mut Control, sender: &PortInfo, at: usize)
    requires order { IsControl control.old }
    requires said { info_in control.old.tables.ports sender.now.number ≡ Some sender.now }
    requires there { place_in control.old.tables.ports sender.now.number ≡ Some at }
    ensures left { (p : PortState)
        → port_in control.old.tables.ports sender.now.number ≡ Some p
        → control.new ≡ with_tables control.old
        (with_back control.old.tables p control.new.tables.pools) }
    ensures back { (p : PortState)
        → port_in control.old.tables.ports sender.now.number ≡ Some p
        → AreGotBack control.old.tables p control.new.tables.pools }
    ensures order { IsControl control.new }
{
    if control.ports().others_len(sender.role) == 1 {
        let hint = control.ports().rank(at);
        let only = control.ports().other(sender.role, 0);
        retrieve_from(control, sender, only, hint);
        return;
    }
    match sender.role {
        Role::Client => retrieve_of_client(control, at),
        Role::Server => retrieve_of_server(control, at),
    }
}

/// Gets back all that was given back to the port.
pub fn retrieve_all(control: &mut Control, port: u64)
    requires order { IsControl control.old }
    requires there { (p : PortState) × (port_in control.old.tables.ports port ≡ Some p) }
    ensures left { (p : PortState) → port_in control.old.tables.ports port ≡ Some p
        → control.new ≡ with_tables control.old
        (with_back control.old.tables p control.new.tables.pools) }
    ensures back { (p : PortState) → port_in control.old.tables.ports port ≡ Some p
        → AreGotBack control.old.tables p control.new.tables.pools }
    ensures order { IsControl control.new }
{
    let at = control.ports().known_place(port, 0);
    retrieve_several(control, at);
}
