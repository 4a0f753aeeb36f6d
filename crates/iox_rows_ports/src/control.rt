//! Tests of `iox_control`, and of what makes ports and lends in it. A test is a list of what is
//! done and of what has to come of it, which one function plays.
ghost use Rattle.iox_control.specs.Controls.{IsControl};

mod starts;

use crate::expected::{equal, holds, is_so};
use iox_control::{Control, Settings};
use iox_control_lending::{
    Asked, Lending, LoanRefusal, free_lane, is_lane_taken, loan_refusal, pendings_of,
    requests_on_loan, responses_on_loan, responses_to,
};
use iox_control_making::{Asked as AskedPort, NotMade, make_port};
use iox_handles::Entry;
use iox_hub_ports::info::PortInfo;
use iox_model::kind::Role;
use iox_types::BackpressureStrategy;
use iox_types::identifiers::UniqueSystemId;
use std::alloc::Global;
use std::process::Abort;

/// What is done, or asked, and what has to come of it.
pub enum Deed {
    /// A port of this node and role is made, with so many messages. It may be too large.
    Makes(u64, Role, usize, bool, Result<u64, NotMade>),
    /// A loan of so many elements by a port of this role; the shape may have so many.
    Lends(Role, u64, bool, Option<LoanRefusal>),
    /// The entry of the node 0 and the number 0.
    Entry(Option<Entry>),
    /// For how many handles there is room.
    Room(usize),
    PortsMade(u64),
    NextNumber(u64),
    /// How many messages the pool of this place has.
    PoolLen(usize, usize),
    /// How many loans the client 0 has, and the server 0, and of these to one request; and how many
    /// pending responses the client has.
    OnLoan([usize; 4]),
    /// Whether the lane 0 of the client 0 is taken.
    IsLaneTaken(bool),
    /// Of so many lanes of the client 0, the first that is free.
    FreeLane(usize, Option<u64>),
}

const NODE: UniqueSystemId = UniqueSystemId {
    process: 7,
    seconds: 1,
    nanoseconds: 2,
    counter: 3,
};

/// Makes a port. Of what `make_port` promises, it passes on what the next one needs.
fn makes(
    control: &mut Control,
    alloc: Global,
    of: (u64, Role),
    size: usize,
    large: bool,
) -> Result<u64, NotMade>
    requires { IsControl control.old }
    ensures { IsControl control.new }
{
    let asked = AskedPort {
        large,
        size,
        longest: 1,
        grows: false,
        strategy: BackpressureStrategy::DiscardData,
        loaned_responses: 2,
    };
    let (node, role) = of;
    make_port(control, alloc, node, role, NODE, asked)
}

/// Why such a loan is refused. The port sends at most 8 elements; a server of it may have no
/// response on loan.
fn refusal(control: &Control, role: Role, elements: u64, is_count: bool) -> Option<LoanRefusal> {
    let id = UniqueSystemId {
        process: 1,
        seconds: 2,
        nanoseconds: 3,
        counter: 4,
    };
    let port = PortInfo {
        number: 0,
        node: 0,
        role,
        node_id: id,
        id,
        pool: 0,
        size: 2,
        longest: 8,
        grows: false,
        strategy: BackpressureStrategy::DiscardData,
        loaned_responses: 0,
        held: true,
        loans: 0,
    };
    let lender = Lending {
        port,
        client: 0,
        lane: 0,
        request: 0,
    };
    let asked = Asked {
        elements,
        uninit: true,
        is_count,
        has_layout: true,
    };
    loan_refusal(control, lender, asked)
}

/// How many loans and pending responses there are.
fn on_loan(control: &Control) -> [usize; 4] {
    [
        requests_on_loan(control, 0),
        responses_on_loan(control, 0),
        responses_to(control, 0, 0, 0),
        pendings_of(control, 0),
    ]
}

/// Ends the test if something else is seen.
fn sees(rt: &impl Abort, control: &Control, deed: &Deed) {
    match deed {
        Deed::Lends(role, elements, is_count, wanted) => {
            equal(rt, refusal(control, *role, *elements, *is_count), *wanted);
        }
        Deed::Entry(wanted) => equal(rt, control.entry(0, 0, 0), *wanted),
        Deed::Room(wanted) => equal(rt, control.handles().room(), *wanted),
        Deed::PortsMade(wanted) => equal(rt, control.ports_made(), *wanted),
        Deed::NextNumber(wanted) => equal(rt, control.next_number(), *wanted),
        Deed::PoolLen(place, wanted) => equal(rt, control.pools().len(*place), *wanted),
        Deed::OnLoan(wanted) => equal(rt, on_loan(control), *wanted),
        Deed::IsLaneTaken(wanted) => equal(rt, is_lane_taken(control, 0, 0), *wanted),
        Deed::FreeLane(lanes, wanted) => equal(rt, free_lane(control, 0, *lanes), *wanted),
        _ => holds(rt, false),
    }
}

/// Does all of it.
fn goes(rt: &impl Abort, alloc: Global, control: &mut Control, list: &[Deed])
    requires { IsControl control.old }
{
    for deed in list {
        match deed {
            Deed::Makes(node, role, size, large, wanted) => {
                let made = makes(control, alloc, (*node, *role), *size, *large);
                equal(rt, made, *wanted);
            }
            _ => sees(rt, control, deed),
        }
    }
}

/// Does all of it with a new control of these settings.
pub fn plays(rt: &impl Abort, alloc: Global, settings: &Settings, list: &[Deed]) {
    is_so(rt, settings.active_requests >= 1);
    is_so(rt, settings.response_buffer >= 1);
    let mut control = Control::new(alloc, *settings).expect(rt, "a control");
    goes(rt, alloc, &mut control, list);
}
