//! Where a node finds the words of a message.
#![tactic(auto)]

ghost use Rattle.std.specs.Prelude.{ℕ, ◌≡◌};
ghost use Rattle.iox_word_places.specs.Plans.{IsSlotAt, number_at};
ghost use Rattle.iox_wire_locals.specs.declared.table.Entry.{Entry};
ghost use Rattle.iox_wire_locals.specs.Tables.{Setting, words_to_read};
ghost use Rattle.iox_wire_layouts.specs.PlansOf.{IsSettingOf};
ghost use Rattle.iox_wire_seats.specs.Aims.{IsPayloadAt, StandAt};

pub use iox_wire_layouts::is_plan;
pub use iox_wire_locals::{Borrowed, Entry, Visit};
pub use iox_wire_seats::{
    Counts, Desks, Entries, MessagePlaces, Popper, Pusher, SeatReply, Stop, StoredDesk, StoredSeat,
};
use iox_word_map::MessagePart;
pub use iox_word_places::{PlanLimits, PlanPort, WayIndex, WirePlan, WordMap, WordMapNewError};

/// Where the words of the message in a slot of a port stand.
pub fn message_places(map: &WordMap, port: usize, slot: usize) -> MessagePlaces
    requires { IsSlotAt map.now port slot }
    ensures { (p : Setting) → (e : Entry) → IsSettingOf map.now p
        → e.sender ≡ number_at map.now port → e.slot ≡ slot
        → StandAt p e result (words_to_read p e) }
{
    let plan = map.plan();
    let role = plan.ports[port].role;
    let details = plan.details(role);
    MessagePlaces {
        user: map.part(port, slot, MessagePart::UserHeader),
        user_count: details.user_header.size() / 8,
        payload: map.part(port, slot, MessagePart::Payload),
    }
}

/// Where the payload of the message in a slot of a port begins.
pub fn payload_place(map: &WordMap, port: usize, slot: usize) -> usize
    requires { IsSlotAt map.now port slot }
    ensures { (p : Setting) → (e : Entry) → (count : ℕ) → IsSettingOf map.now p
        → e.port ≡ number_at map.now port → e.slot ≡ slot → IsPayloadAt p e result count }
{
    // only what this promises is wanted
    let _plan = map.plan();
    map.part(port, slot, MessagePart::Payload)
}
