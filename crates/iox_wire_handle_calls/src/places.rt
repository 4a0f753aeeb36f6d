//! Where the words of a message stand, in memory.
ghost use Rattle.std.specs.Prelude.{ℕ, ◌≡◌, ◌<◌, ◌≤◌, ◌/◌, ◌^◌};
ghost use Rattle.iox_word_map.specs.WordMaps.{total_words};
ghost use Rattle.iox_wire_stops.specs.Plans.{IsSlotAt, details_of, number_at, role_of, sizes_of};
ghost use Rattle.iox_wire_stops.specs.PlansOf.{IsSettingOf};
ghost use Rattle.iox_wire_stops.specs.Entry.{Entry};
ghost use Rattle.iox_wire_stops.specs.Tables.{Setting, words_to_read};
ghost use Rattle.iox_wire_stops.specs.Aims.{IsPayloadAt, StandAt};
ghost use Rattle.iox_wire_handle_calls.specs.PlacedHandles.{words_behind_header as words_in};

use iox_wire_stops::{MessagePlaces, WordMap};
use iox_word_map::MessagePart;

/// Where the payload of the message in a slot of a port begins.
#[inline]
pub fn payload_of(map: &WordMap, port: usize, slot: usize) -> usize
    requires there { IsSlotAt map.now port slot }
    requires fits { total_words (sizes_of map.now) < 2 ^ 64 }
    ensures payload { (p : Setting) → (e : Entry) → (count : ℕ) → IsSettingOf map.now p
        → e.port ≡ number_at map.now port → e.slot ≡ slot → IsPayloadAt p e result count }
    ensures within { result ≤ total_words (sizes_of map.now) }
{
    // only what this promises is wanted
    let _plan = map.plan();
    map.part(port, slot, MessagePart::Payload)
}

/// Where the words of the message in a slot of a port stand behind its header.
#[inline]
pub fn message_of(map: &WordMap, port: usize, slot: usize) -> MessagePlaces
    requires there { IsSlotAt map.now port slot }
    requires fits { total_words (sizes_of map.now) < 2 ^ 64 }
    ensures places { (p : Setting) → (e : Entry) → IsSettingOf map.now p
        → e.sender ≡ number_at map.now port → e.slot ≡ slot
        → StandAt p e result (words_to_read p e) }
    ensures count { result.user_count
        ≡ (details_of map.now (role_of map.now (number_at map.now port))).user_header.size / 8 }
    ensures user { result.user ≤ total_words (sizes_of map.now) }
    ensures payload { result.payload ≤ total_words (sizes_of map.now) }
{
    let plan = map.plan();
    let role = plan.ports[port].role;
    let details = plan.details(role);
    MessagePlaces {
        user: map.part(port, slot, MessagePart::UserHeader),
        user_count: details.user_header.size() / 8,
        payload: map.part(port, slot, MessagePart::Payload),
    }
}

/// How many words a message of so many elements has behind its header, of the port there.
#[inline]
pub fn words_behind_header(map: &WordMap, port: usize, slot: usize, elements: u64) -> usize
    requires there { IsSlotAt map.now port slot }
    requires fits { words_in map.now (number_at map.now port) elements < 2 ^ 64 }
    ensures words { result ≡ words_in map.now (number_at map.now port) elements }
    ensures read { (p : Setting) → (e : Entry) → IsSettingOf map.now p
        → e.sender ≡ number_at map.now port → e.elements ≡ elements
        → result ≡ words_to_read p e }
{
    let plan = map.plan();
    let role = plan.ports[port].role;
    let details = plan.details(role);
    details.user_header.size() / 8 + elements as usize * (details.payload.size() / 8)
}
