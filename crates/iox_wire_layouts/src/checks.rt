//! Whether a map can be made of a plan.
ghost use Rattle.std.specs.Prelude.{◌≡◌, ◌↔◌, ◌+◌, ◌<◌, ◌≤◌, ◌^◌, IsTrue, map};
ghost use Rattle.std.specs.Int.{IsPowerOfTwo};
ghost use Rattle.std.specs.List.{All};
ghost use Rattle.iox_model.specs.Maps.{AreDistinct, has_number};
ghost use Rattle.iox_types.specs.Places.{IsAlignedTo, aligned_place};
ghost use Rattle.iox_word_map.specs.MessageWords.{IsInWords, IsSlotFor};
ghost use Rattle.iox_wire_layouts.specs.PlansOf.{bytes_with};
ghost use Rattle.iox_word_places.specs.Plans.{HasSlots, IsPlan};

use iox_types::{MessageTypeDetails, TypeDetail};
use iox_word_places::{PlanPort, WirePlan};

/// Whether a map can be made of the plan, as far as it does not want for words or memory: no two
/// ports have one number, messages are of whole words, and each slot is for the longest message.
pub fn is_plan(plan: &WirePlan) -> bool
    ensures { IsTrue result ↔ IsPlan plan.now }
{
    have_own_numbers(&plan.ports)
        && is_in_words(&plan.request)
        && is_in_words(&plan.response)
        && have_slots(plan)
}

/// Whether no two ports have one number.
fn have_own_numbers(ports: &[PlanPort]) -> bool
    ensures { IsTrue result ↔ AreDistinct (map (λ p. p.number) ports.now) }
{
    let mut rest = ports;
    while let Some((first, later)) = rest.split_first() {
        if has_port(later, first.number) {
            return false;
        }
        rest = later;
    }
    true
}

/// Whether one of the ports has that number.
fn has_port(ports: &[PlanPort], number: u64) -> bool
    ensures { result ≡ has_number number (map (λ p. p.number) ports.now) }
{
    ports.iter().any(|port| port.number == number)
}

/// Whether each part of a message may stand at a power of two, and has whole words.
fn is_in_words(details: &MessageTypeDetails) -> bool
    ensures { IsTrue result ↔ IsInWords details.now }
{
    is_part_in_words(&details.header)
        && is_part_in_words(&details.user_header)
        && is_part_in_words(&details.payload)
}

/// Whether a part may stand at a power of two, and has whole words.
fn is_part_in_words(part: &TypeDetail) -> bool
    ensures power { IsPowerOfTwo part.now.alignment }
    ensures whole { IsTrue result ↔ IsAlignedTo 8 part.now.size }
{
    // a power of two, as that of any part
    let _alignment = part.alignment();
    part.size() % 8 == 0
}

/// Whether the slots of each port are for its longest message.
fn have_slots(plan: &WirePlan) -> bool
    ensures { IsTrue result ↔ All (HasSlots plan.now) plan.now.ports.items }
{
    let mut rest: &[PlanPort] = &plan.ports;
    while let Some((first, later)) = rest.split_first() {
        if !has_slots(plan, first) {
            return false;
        }
        rest = later;
    }
    true
}

/// Whether the slots of a port are for its longest message.
fn has_slots(plan: &WirePlan, port: &PlanPort) -> bool
    ensures { IsTrue result ↔ HasSlots plan.now port.now }
{
    is_slot_for(plan.details(port.role), port.longest, port.slot_words)
}

/// Whether a slot of so many words is for messages of up to so many elements.
fn is_slot_for(details: &MessageTypeDetails, longest: usize, slot_words: usize) -> bool
    ensures { IsTrue result ↔ IsSlotFor details.now longest slot_words }
{
    let slot = slot_words as u128 * 8;
    let elements = longest as u128 * details.payload.size() as u128;
    let alignment = details.header.alignment() as u128;
    elements <= slot && aligned_place(bytes_with(details, elements), alignment) == slot
}

/// The bytes of a message at most, if its elements have so many in all.
fn bytes_with(details: &MessageTypeDetails, elements: u128) -> u128
    requires { elements < 2 ^ 68 }
    ensures value { result ≡ bytes_with details.now elements }
    ensures within { result < 2 ^ 69 }
{
    let header = details.header.size() as u128;
    let user_header = details.user_header.size() as u128;
    let before_user_header = details.user_header.alignment() as u128 - 1;
    let before_payload = details.payload.alignment() as u128 - 1;
    header + user_header + before_user_header + elements + before_payload
}

/// The least multiple of the alignment that is not below the place.
fn aligned_place(place: u128, alignment: u128) -> u128
    requires positive { 0 < alignment }
    requires fits { place + alignment ≤ 2 ^ 128 }
    ensures { result ≡ aligned_place place alignment }
{
    (place + (alignment - 1)) / alignment * alignment
}
