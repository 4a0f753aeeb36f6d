//! Loans, by who lends.
ghost use Rattle.std.specs.Prelude.{◌≡◌, ◌+◌, ◌<◌, ◌^◌, ◌-◌, IfSome, None, Some, true};
ghost use Rattle.std.specs.List.{list_all};
ghost use Rattle.std.specs.Option.{option_map_or};
ghost use Rattle.iox_model.specs.Loans.{kind_of_loan};
ghost use Rattle.iox_tables.specs.HubStates.Tables.{PortState, port_in, slots_of};
ghost use Rattle.iox_hub_ports.specs.Ports.{info_of, place_in};
ghost use Rattle.iox_tables.specs.HubLoans.Loans.{loaned_handle};
ghost use Rattle.iox_tables.specs.HubLending.Keeping.{has_holder};
ghost use Rattle.iox_control.specs.Controls.{ControlState, IsControl};
ghost use Rattle.iox_control.specs.Entries.{handle_state};
ghost use Rattle.iox_control_lending.specs.Lends.{LoanIsMade, IsPortOf, lender_of, with_handed};
ghost use Rattle.iox_control_lending.specs.Retakes.{IsTakenFor};

use crate::asked::{Asked, Lending, Loaned};
use crate::taking::take;
use iox_control::Control;
use iox_handles::{Entry, kept_place};
use iox_model::kind::{Kind, Role};

/// The kind of a loan by a port of that role.
#[inline(always)]
fn loan_kind(role: Role, uninit: bool) -> Kind
    ensures { result ≡ kind_of_loan role uninit }
{
    match role {
        Role::Client => {
            if uninit {
                return Kind::RequestMutUninit;
            }
            Kind::RequestMut
        }
        Role::Server => {
            if uninit {
                return Kind::ResponseMutUninit;
            }
            Kind::ResponseMut
        }
    }
}

/// The handle of a loan in that slot, whose port is likely in that place.
#[inline(always)]
fn loan_entry(control: &Control, lender: &Lending, at: usize, uninit: bool, slot: u64) -> Entry
    ensures number { result.number ≡ control.now.tables.next_number }
    ensures handle { (p : PortState) → lender.now.port ≡ info_of p → handle_state result
        ≡ loaned_handle control.now.tables (lender_of p lender.now) uninit slot }
{
    Entry {
        node: lender.port.node,
        number: control.next_number(),
        kind: loan_kind(lender.port.role, uninit),
        at: kept_place(at),
        port: lender.port.number,
        pool: lender.port.pool,
        slot,
        client: lender.client,
        connections: 0,
    }
}

/// The loan in that slot is handed out, whose port is in that place; it answers the number of its
/// handle.
#[inline(always)]
fn hand_out(control: &mut Control, lender: &Lending, at: usize, uninit: bool, slot: u64) -> u64
    requires there { place_in control.old.tables.ports lender.now.port.number ≡ Some at }
    requires room { 0 < control.old.room }
    requires number { control.old.tables.next_number + 1 < 2 ^ 64 }
    requires calls { control.old.tables.calls + 1 < 2 ^ 64 }
    requires loans { option_map_or (λ p. p.loans)
        (port_in control.old.tables.ports lender.now.port.number) 0 < 2 ^ 64 - 1 }
    ensures number { result ≡ control.old.tables.next_number }
    ensures left { (p : PortState) → lender.now.port ≡ info_of p
        → control.new ≡ with_handed control.old (lender_of p lender.now) uninit slot }
{
    let entry = loan_entry(control, lender, at, uninit, slot);
    control.count_loan_in(at, lender.port.number);
    control.add_handle(entry);
    control.count_call();
    entry.number
}

/// The loan in that slot, which was taken for it, is handed out. Its port is in that place.
#[inline(always)]
pub(crate) fn hand_taken(
    control: &mut Control,
    lender: &Lending,
    at: usize,
    asked: Asked,
    slot: u64,
) -> Loaned
    requires taken { (c : ControlState)
        × IsTakenFor c lender.now asked.elements slot control.old }
    requires there { place_in control.old.tables.ports lender.now.port.number ≡ Some at }
    ensures { (c : ControlState)
        → IsTakenFor c lender.now asked.elements slot control.old
        → (p : PortState) → port_in c.tables.ports lender.now.port.number ≡ Some p
        → LoanIsMade c (lender_of p lender.now) asked result control.new }
{
    let number = hand_out(control, lender, at, asked.uninit, slot);
    Loaned {
        number,
        pool: lender.port.pool,
        slot,
    }
}

/// The loan of a port in that place is made in a slot that nobody has. It is `None` where there is
/// none, and then nothing changes.
#[inline(always)]
pub(crate) fn lend_free(
    control: &mut Control,
    lender: &Lending,
    at: usize,
    asked: Asked,
) -> Option<Loaned>
    requires port { IsPortOf control.old.tables lender.now }
    requires there { place_in control.old.tables.ports lender.now.port.number ≡ Some at }
    requires order { IsControl control.old }
    requires calls { control.old.tables.calls < 2 ^ 56 }
    ensures unchanged { result ≡ None → control.new ≡ control.old }
    ensures full { result ≡ None
        → list_all has_holder (slots_of control.old.tables.pools lender.now.port.pool) ≡ true }
    ensures made { IfSome result (λ l. (p : PortState)
        → port_in control.old.tables.ports lender.now.port.number ≡ Some p
        → LoanIsMade control.old (lender_of p lender.now) asked l control.new) }
{
    let Some(slot) = take(control, lender, asked.elements) else {
        return None;
    };
    Some(hand_taken(control, lender, at, asked, slot))
}
