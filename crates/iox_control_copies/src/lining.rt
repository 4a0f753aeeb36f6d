//! The copy of a response that waits for its client.
ghost use Rattle.std.specs.Prelude.{◌≡◌, ◌+◌, ◌-◌, ◌<◌, ◌^◌, ◌∷◌, [], Some, is_some, true};
ghost use Rattle.std.specs.Option.{option_map_or};
ghost use Rattle.iox_tables.specs.HubStates.Tables.{PortState, pool_at, port_in};
ghost use Rattle.iox_hub_ports.specs.InPlace.{AllApart};
ghost use Rattle.iox_hub_ports.specs.Ports.{info_of, place_in, pushed};
ghost use Rattle.iox_tables.specs.HubStates.Changes.{with_lanes};
ghost use Rattle.iox_control_responses.specs.Responses.{pools_after_push};
ghost use Rattle.iox_slots.specs.Pools.{free_count};
ghost use Rattle.iox_control_lending.specs.Lends.{lender_of};
ghost use Rattle.iox_control.specs.Controls.{with_tables};
ghost use Rattle.iox_control_copies.specs.Answers.{IsPushed, with_copy_pushed};

use iox_control::Control;
use iox_control_lending::{Asked, Lending, Place};
use iox_control_responses::Target;
use iox_model::way::Way;

/// Puts the message in that slot last in line on the way, whose receiver is there. What is pushed
/// out has one holder less.
#[inline(always)]
fn push_out(control: &mut Control, way: Way, to: Target, pool: usize, slot: u64)
    requires there { place_in control.old.tables.ports way.receiver ≡ Some to.place }
    requires apart { AllApart control.old.tables.ports }
    ensures { control.new ≡ with_tables control.old
        (record (with_lanes (λ l. pushed l slot) control.old.tables (way ∷ [])) {
          pools = pools_after_push control.old.tables way pool;
        }) }
{
    match control.push_in(to.place, to.rank, way, slot) {
        Some(oldest) => {
            control.let_go(pool, oldest);
        }
        None => {}
    }
}

/// Puts the copy's message, which is in that slot, last in line for its client, who is there. What
/// is pushed out has one holder less. The loan of the port, which is in that place, its call and
/// its send are counted.
#[inline(always)]
fn push_copy(control: &mut Control, lender: &Lending, at: usize, to: Target, slot: u64)
    requires loans { option_map_or (λ p. p.loans)
        (port_in control.old.tables.ports lender.now.port.number) 0 < 2 ^ 64 - 1 }
    requires calls { control.old.tables.calls + 2 < 2 ^ 64 }
    requires place { place_in control.old.tables.ports lender.now.port.number ≡ Some at }
    requires there { place_in control.old.tables.ports lender.now.client ≡ Some to.place }
    requires apart { AllApart control.old.tables.ports }
    ensures { (p : PortState) → lender.now.port ≡ info_of p
        → control.new ≡ with_copy_pushed control.old (lender_of p lender.now) slot }
{
    let port = &lender.port;
    let way = Way {
        sender: port.number,
        receiver: lender.client,
        lane: lender.lane,
    };
    control.count_loan_in(at, port.number);
    push_out(control, way, to, port.pool, slot);
    control.count_call();
    control.count_call();
}

/// Puts the copy last in line for its client, who is there, in a slot that nobody had, and says
/// where its words belong. The port is in that place.
#[inline(always)]
pub(crate) fn put_in_line(
    control: &mut Control,
    lender: &Lending,
    at: usize,
    to: Target,
    asked: Asked,
) -> Place
    requires free { 0 < free_count control.old.tables.pools lender.now.port.pool }
    requires pool { is_some (pool_at control.old.tables.pools lender.now.port.pool) ≡ true }
    requires loans { option_map_or (λ p. p.loans)
        (port_in control.old.tables.ports lender.now.port.number) 0 < 2 ^ 64 - 1 }
    requires calls { control.old.tables.calls + 2 < 2 ^ 64 }
    requires place { place_in control.old.tables.ports lender.now.port.number ≡ Some at }
    requires there { place_in control.old.tables.ports lender.now.client ≡ Some to.place }
    requires apart { AllApart control.old.tables.ports }
    ensures pool { result.pool ≡ lender.now.port.pool }
    ensures left { (p : PortState) → lender.now.port ≡ info_of p
        → IsPushed control.old (lender_of p lender.now) asked result.slot control.new }
{
    let port = &lender.port;
    let Some(slot) = control.take(
        port.pool,
        port.loans,
        lender.lane,
        lender.request,
        asked.elements,
    ) else {
        unreachable!();
    };
    push_copy(control, lender, at, to, slot);
    Place {
        pool: port.pool,
        slot,
    }
}
