//! The lender of a port, from the map and the terms of a wire.
ghost use Rattle.std.specs.Prelude.{◌≡◌};
ghost use Rattle.iox_model.specs.declared.kind.Role.TheVariants.{Client, Server};
ghost use Rattle.iox_wire_ways.specs.Plans.{IsPortAt, IsSlotAt, number_at};
ghost use Rattle.iox_wire_lenders.specs.Terms.{FitsPlan, IsSettingWith};
ghost use Rattle.iox_wire_ways.specs.Lenders.{HasClientLimits, LenderIsTold, HasServerLimits, IsWhole};
ghost use Rattle.iox_wire_ways.specs.Tables.{Setting};
ghost use Rattle.iox_wire_ways.specs.PlannedSlots.{HasHeader, longest_of, planned_slots};
ghost use Rattle.iox_wire_ways.specs.Visits.{pool_of};

use crate::terms::WireTerms;
use iox_model::kind::Role;
use iox_wire_ways::{Lender, WordMap, slot_places};

/// The lender of the port at an index, as the map and the terms of the wire tell it. So many
/// messages may return on each of its ways.
#[inline(always)]
pub fn make_lender<'a>(map: &WordMap, terms: &'a WireTerms, port: usize, room: usize) -> Lender<'a>
    requires slot { IsSlotAt map.now port 0 }
    requires header { HasHeader map.now port }
    requires fits { FitsPlan map.now terms.now }
    ensures lender { (p : Setting) → IsSettingWith map.now terms.now p
        → LenderIsTold p result }
    ensures client { (p : Setting) → IsSettingWith map.now terms.now p
        → IsPortAt map.now Client port → HasClientLimits p result }
    ensures server { (p : Setting) → IsSettingWith map.now terms.now p
        → IsPortAt map.now Server port → HasServerLimits p result }
    ensures whole { IsWhole result }
    ensures number { result.port ≡ number_at map.now port }
    ensures room { result.room ≡ room }
    ensures places { result.places ≡ planned_slots map.now port }
    ensures longest { result.longest
        ≡ longest_of map.now (number_at map.now port) }
    ensures pool { result.pool ≡ pool_of map.now (number_at map.now port) }
{
    let plan = map.plan();
    let at = plan.ports[port];
    let own = &terms.ports[port];
    let messages = terms.messages(at.role);
    let each = own.loaned_responses;
    let limit = match at.role {
        Role::Client => terms.loaned_requests,
        Role::Server => each * plan.limits.active_requests as u64 * terms.clients,
    };
    Lender {
        port: at.number,
        role: at.role,
        many: messages.many,
        longest: at.longest as u64,
        limit,
        each,
        pool: at.pool as u64,
        room,
        ids: &own.ids,
        user: &messages.user,
        places: slot_places(map, port),
    }
}
