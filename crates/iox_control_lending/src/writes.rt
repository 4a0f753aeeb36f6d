//! Writes, and loans that are filled by who holds them.
ghost use Rattle.std.specs.Prelude.{◌≡◌, IfSome, None, Some, false, true};
ghost use Rattle.iox_model.specs.declared.call.Call.TheVariants.{Write};
ghost use Rattle.iox_model.specs.Commands.{Payload};
ghost use Rattle.iox_model.specs.Handles.{filled_kind};
ghost use Rattle.iox_model.specs.Names.{suits};
ghost use Rattle.iox_model.specs.Values.{Filling, IsFilling, MayFill};
ghost use Rattle.iox_model.specs.WholeCalls.{IsWholeCall};
ghost use Rattle.iox_tables.specs.HubStates.Tables.{HandleState};
ghost use Rattle.iox_tables.specs.HubStates.States.{Given, fixed_of, state_shown};
ghost use Rattle.iox_tables.specs.HubStates.Releases.{handle_shown};
ghost use Rattle.iox_tables.specs.HubStates.Wirings.{handle_in};
ghost use Rattle.iox_tables.specs.HubLoans.Fillings.{contents_of};
ghost use Rattle.iox_tables.specs.HubLoans.Slots.{with_contents};
ghost use Rattle.iox_tables.specs.HubLending.Filling.{with_kind};
ghost use Rattle.iox_control.specs.Controls.{IsControl, with_tables};
ghost use Rattle.iox_control.specs.Entries.{handle_state};
ghost use Rattle.iox_control_lending.specs.Fills.{IsLoan, Writes, fits_loan, given_written, kind_after, words_place, reply_of_write};
ghost use Rattle.iox_control_lending.specs.declared.asked.Written.TheVariants.{Done};

use crate::asked::{Place, Written};
use crate::counts::is_request_loan;
use iox_control::Control;
use iox_handles::Entry;
use iox_model::kind::Kind;

/// The kind of a loan once it is filled.
fn filled_kind(kind: Kind) -> Kind
    ensures { result ≡ filled_kind kind }
{
    if is_request_loan(kind) {
        return Kind::RequestMut;
    }
    Kind::ResponseMut
}

/// The kind of a loan once its holder filled all of it, or some.
fn kind_after(all: bool, kind: Kind) -> Kind
    ensures { result ≡ kind_after all kind }
{
    if all {
        return filled_kind(kind);
    }
    kind
}

/// The kind of the loan is another now.
fn set_kind(control: &mut Control, entry: Entry, kind: Kind, hint: usize)
    ensures { control.new ≡ with_tables control.old
        (with_kind control.old.tables (handle_state entry) kind) }
{
    let changed = Entry {
        node: entry.node,
        number: entry.number,
        kind,
        at: entry.at,
        port: entry.port,
        pool: entry.pool,
        slot: entry.slot,
        client: entry.client,
        connections: entry.connections,
    };
    control.change_handle(changed, hint);
}

/// Fills a loan with a payload of so many whole elements, or of no whole elements. Its handle is
/// looked for at the hint first.
#[inline(always)]
pub fn write(
    control: &mut Control,
    node: u64,
    number: u64,
    hint: usize,
    elements: Option<u64>,
) -> Written
    requires loan { IsLoan control.old.tables node number }
    requires order { IsControl control.old }
    ensures left { (h : HandleState) → handle_in control.old.tables.handles node number ≡ Some h
        → Writes control.old h elements result control.new }
    ensures order { IsControl control.new }
    ensures whole { (x : Given) (h : HandleState) (p : Payload)
        → handle_in control.old.tables.handles node number ≡ Some h
        → suits false (Write number p) h.kind ≡ true → p.elements ≡ elements
        → IsWholeCall (state_shown x control.old.tables) node (Write number p)
        (reply_of_write result)
        (state_shown (given_written x control.old.tables h p.words result) control.new.tables) }
{
    let Some(entry) = control.fill_handle(node, number, hint, elements) else {
        return Written::WrongLength;
    };
    Written::Done(Place {
        pool: entry.pool,
        slot: entry.slot,
    })
}

/// Fills a loan, which is of that kind once it is filled, with a payload of as many whole elements
/// as its message has, if its handle is at the hint. It tells where its words lie. `None` says that
/// nothing changed.
#[inline(always)]
pub fn write_whole(
    control: &mut Control,
    node: u64,
    number: u64,
    hint: usize,
    kind: Kind,
    elements: u64,
) -> Option<Place>
    requires loan { IsLoan control.old.tables node number }
    requires order { IsControl control.old }
    requires fits { (h : HandleState) → handle_in control.old.tables.handles node number ≡ Some h
        → fits_loan control.old.tables h (Some elements) ≡ true }
    requires kind { (h : HandleState) → handle_in control.old.tables.handles node number ≡ Some h
        → filled_kind h.kind ≡ kind }
    ensures left { IfSome result (λ place. (h : HandleState)
        → handle_in control.old.tables.handles node number ≡ Some h
        → Writes control.old h (Some elements) (Done place) control.new) }
    ensures order { IsControl control.new }
    ensures whole { IfSome result (λ place. (x : Given) (h : HandleState) (p : Payload)
        → handle_in control.old.tables.handles node number ≡ Some h
        → suits false (Write number p) h.kind ≡ true → p.elements ≡ Some elements
        → IsWholeCall (state_shown x control.old.tables) node (Write number p)
        (reply_of_write (Done place))
        (state_shown (given_written x control.old.tables h p.words (Done place))
        control.new.tables)) }
    ensures unchanged { result ≡ None → control.new ≡ control.old }
{
    let entry = control.fill_near(node, number, hint, kind, elements)?;
    Some(Place {
        pool: entry.pool,
        slot: entry.slot,
    })
}

/// The same, wherever its handle stands. A call of its own, so that the other is short.
#[inline(never)]
#[cold]
pub fn write_known(
    control: &mut Control,
    node: u64,
    number: u64,
    hint: usize,
    elements: u64,
) -> Place
    requires loan { IsLoan control.old.tables node number }
    requires order { IsControl control.old }
    requires fits { (h : HandleState) → handle_in control.old.tables.handles node number ≡ Some h
        → fits_loan control.old.tables h (Some elements) ≡ true }
    ensures left { (h : HandleState) → handle_in control.old.tables.handles node number ≡ Some h
        → Writes control.old h (Some elements) (Done result) control.new }
    ensures order { IsControl control.new }
    ensures whole { (x : Given) (h : HandleState) (p : Payload)
        → handle_in control.old.tables.handles node number ≡ Some h
        → suits false (Write number p) h.kind ≡ true → p.elements ≡ Some elements
        → IsWholeCall (state_shown x control.old.tables) node (Write number p)
        (reply_of_write (Done result))
        (state_shown (given_written x control.old.tables h p.words (Done result))
        control.new.tables) }
{
    let Written::Done(place) = write(control, node, number, hint, Some(elements)) else {
        unreachable!();
    };
    place
}

/// The holder of a loan filled some of it, or all of it, and this is where its words lie. Its
/// handle is looked for at the hint first.
pub fn fill(control: &mut Control, node: u64, number: u64, hint: usize, all: bool) -> Place
    requires loan { IsLoan control.old.tables node number }
    requires order { IsControl control.old }
    ensures place { (h : HandleState) → handle_in control.old.tables.handles node number ≡ Some h
        → result ≡ words_place h }
    ensures left { (h : HandleState) → handle_in control.old.tables.handles node number ≡ Some h
        → control.new ≡ with_tables control.old
        (with_kind control.old.tables h (kind_after all h.kind)) }
    ensures order { IsControl control.new }
    ensures filled { (x : Given) (h : HandleState) (z : Filling)
        → handle_in control.old.tables.handles node number ≡ Some h
        → z.kind ≡ kind_after all h.kind
        → MayFill (fixed_of x control.old.tables) (handle_shown x control.old.tables h) z
        → IsFilling (state_shown x control.old.tables) node number z
        (state_shown (with_contents x h.pool h.slot (contents_of z)) control.new.tables) }
{
    let Some(entry) = control.entry(node, number, hint) else {
        unreachable!();
    };
    set_kind(control, entry, kind_after(all, entry.kind), hint);
    Place {
        pool: entry.pool,
        slot: entry.slot,
    }
}
