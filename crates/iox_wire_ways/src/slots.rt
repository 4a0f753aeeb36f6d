//! Where the messages of a port stand.
ghost use Rattle.std.specs.Prelude.{ℕ, ◌≡◌, ◌*◌, ◌≤◌};
ghost use Rattle.iox_word_map.specs.MessageWords.{in_words as words_of};
ghost use Rattle.iox_wire_messages.specs.Plans.{IsSlotAt, number_at, slot_words_of};
ghost use Rattle.iox_wire_messages.specs.PlansOf.{IsSettingOf};
ghost use Rattle.iox_wire_copies.specs.Lenders.{AreSlots, IsWithin};
ghost use Rattle.iox_wire_messages.specs.Tables.{Setting, port_shape};
ghost use Rattle.iox_wire_copies.specs.Copies.{ArePayloads};
ghost use Rattle.iox_wire_copies.specs.Payloads.{SlotsHold};
ghost use Rattle.iox_wire_ways.specs.PlannedSlots.{HasHeader, planned_payloads, planned_slots};
ghost use Rattle.iox_wire_ways.specs.PlannedSlots.{element_words, longest_of, words_in_front};

use iox_wire_copies::{PayloadPlaces, SlotPlaces};
use iox_wire_messages::WordMap;

/// An alignment of bytes as one of words.
fn in_words(alignment: usize) -> usize
    ensures { result ≡ words_of alignment }
{
    if alignment < 16 { 1 } else { alignment / 8 }
}

/// The slots of the port at an index, as the plan tells them.
fn planned(map: &WordMap, port: usize) -> SlotPlaces
    requires slot { IsSlotAt map.now port 0 }
    requires header { HasHeader map.now port }
    ensures { result ≡ planned_slots map.now port }
{
    let plan = map.plan();
    let at = plan.ports[port];
    let details = plan.details(at.role);
    SlotPlaces {
        region: map.region(port),
        slots: at.pool as u64,
        slot_words: at.slot_words,
        header: details.header.size() / 8,
        user: details.user_header.size() / 8,
        step: in_words(details.user_header.alignment()),
    }
}

/// Where the messages of the port at an index stand.
pub fn slot_places(map: &WordMap, port: usize) -> SlotPlaces
    requires slot { IsSlotAt map.now port 0 }
    requires header { HasHeader map.now port }
    ensures planned { result ≡ planned_slots map.now port }
    ensures slots { (p : Setting) → IsSettingOf map.now p
        → AreSlots p (number_at map.now port) result }
    ensures within { IsWithin result }
{
    // only what these promise is wanted
    let _total = map.total();
    let _plan = map.plan();
    planned(map, port)
}

/// How many words a slot of the port at an index has in front of its payload at most.
fn words_before(map: &WordMap, port: usize) -> usize
    requires slot { IsSlotAt map.now port 0 }
    requires header { HasHeader map.now port }
    ensures front { result ≡ words_in_front map.now port }
    ensures within { result ≤ slot_words_of map.now (number_at map.now port) }
{
    // only what this promises is wanted
    let _total = map.total();
    let plan = map.plan();
    let details = plan.details(plan.ports[port].role);
    let slots = planned(map, port);
    slots.header + (slots.step - 1) + slots.user + (in_words(details.payload.alignment()) - 1)
}

/// The payloads of the port at an index, as the plan tells them.
fn planned_behind(map: &WordMap, port: usize) -> PayloadPlaces
    requires slot { IsSlotAt map.now port 0 }
    requires header { HasHeader map.now port }
    ensures { result ≡ planned_payloads map.now port }
{
    let plan = map.plan();
    let at = plan.ports[port];
    let details = plan.details(at.role);
    PayloadPlaces {
        step: in_words(details.payload.alignment()),
        room: at.slot_words - words_before(map, port),
    }
}

/// Where the payloads of the port at an index stand. Each has room for its longest message.
pub fn payload_places(map: &WordMap, port: usize) -> PayloadPlaces
    requires slot { IsSlotAt map.now port 0 }
    requires header { HasHeader map.now port }
    ensures planned { result ≡ planned_payloads map.now port }
    ensures payloads { (p : Setting) → IsSettingOf map.now p
        → ArePayloads p (number_at map.now port) (planned_slots map.now port) result }
    ensures room { SlotsHold (planned_slots map.now port) result }
    ensures fits { (k : ℕ) → k ≤ longest_of map.now (number_at map.now port)
        → k * element_words map.now port ≤ result.room }
    ensures longest { (p : Setting) → (k : ℕ) → IsSettingOf map.now p
        → k ≤ (p.port (number_at map.now port)).longest
        → k * (port_shape p (number_at map.now port)).width ≤ result.room }
{
    // only what this promises is wanted
    let _plan = map.plan();
    planned_behind(map, port)
}
