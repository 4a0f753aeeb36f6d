//! A response that is put in line for its client.
ghost use Rattle.std.specs.Prelude.{◌≡◌, ◌<◌, ◌^◌, None, Some, false, true};
ghost use Rattle.iox_model.specs.declared.kind.Kind.TheVariants.{ResponseMut};
ghost use Rattle.iox_tables.specs.HubStates.Tables.{HandleState};
ghost use Rattle.iox_tables.specs.HubStates.Wirings.{handle_in};
ghost use Rattle.iox_hub_ports.specs.InPlace.{AllApart, in_place};
ghost use Rattle.iox_hub_ports.specs.Known.{is_from};
ghost use Rattle.iox_hub_ports.specs.Ports.{on_way, place_in, pushed_out};
ghost use Rattle.iox_control_ending.specs.Endings.{IsLoan};
ghost use Rattle.iox_control_responses.specs.Responses.{with_handed_over};

use crate::targets::Target;
use iox_control::Control;
use iox_handles::Entry;
use iox_model::kind::Kind;
use iox_model::way::Way;

/// Puts the handle's message last in line on the way, whose receiver is there, in place of its
/// handle, which is looked for at the hint first, and counts the call. What is pushed out has one
/// holder less.
pub(crate) fn hand_over(
    control: &mut Control,
    node: u64,
    number: u64,
    hint: usize,
    entry: Entry,
    way: Way,
    to: Target,
)
    requires loan { IsLoan control.old.tables node number }
    requires calls { control.old.tables.calls < 2 ^ 56 }
    requires there { place_in control.old.tables.ports way.receiver ≡ Some to.place }
    requires apart { AllApart control.old.tables.ports }
    ensures { control.new ≡ with_handed_over control.old node number way entry.pool entry.slot }
{
    match control.push_in(to.place, to.rank, way, entry.slot) {
        Some(oldest) => {
            control.let_go(entry.pool, oldest);
        }
        None => {}
    }
    control.remove_handle(node, number, hint);
    control.count_call();
}

/// The same of a filled response, where nothing is pushed out, and it is known from whom the pipe
/// is.
#[inline(always)]
pub(crate) fn hand_over_alone(
    control: &mut Control,
    node: u64,
    number: u64,
    hint: usize,
    entry: Entry,
    way: Way,
    to: Target,
)
    requires loan { IsLoan control.old.tables node number }
    requires kind { (h : HandleState) → handle_in control.old.tables.handles node number ≡ Some h
        → h.kind ≡ ResponseMut }
    requires calls { control.old.tables.calls < 2 ^ 56 }
    requires there { place_in control.old.tables.ports way.receiver ≡ Some to.place }
    requires apart { AllApart control.old.tables.ports }
    requires from { in_place (is_from to.rank way.sender) false control.old.tables.ports to.place
        ≡ true }
    requires none { on_way pushed_out None control.old.tables.ports way ≡ None }
    ensures { control.new ≡ with_handed_over control.old node number way entry.pool entry.slot }
{
    control.remove_known(node, number, hint, Kind::ResponseMut);
    control.push_on(to.place, to.rank, way, entry.slot);
    control.count_call();
}
