//! Where the payloads of a port stand.
ghost use Rattle.std.specs.Prelude.{◌≡◌, ◌+◌, ◌*◌, ◌<◌, ◌≤◌, ◌^◌};

use iox_wire_request_sends::SlotPlaces;

/// Where the payload stands in a slot, behind both headers.
#[derive(Clone, Copy, Debug)]
pub struct PayloadPlaces {
    /// It begins at a multiple of so many words.
    pub step: usize,
    /// How many words it may have.
    pub room: usize,
}

impl PayloadPlaces {
    ghost use Rattle.std.specs.Prelude.{◌≡◌, ◌+◌, ◌*◌, ◌<◌, ◌≤◌, ◌^◌};
    ghost use Rattle.iox_wire_request_sends.specs.Lenders.{IsWithin};
    ghost use Rattle.iox_wire_copies.specs.Payloads.{SlotsHold, payload_at};

    /// Where it stands in that slot.
    #[inline(always)]
    pub fn place(self, slots: SlotPlaces, slot: u64) -> usize
        requires within { IsWithin slots }
        requires room { SlotsHold slots self }
        ensures there { slot < slots.slots → result ≡ payload_at slots self slot }
        ensures within { result + self.room < 2 ^ 64 }
    {
        let headers = slots.start(slot) + slots.header + (slots.step - 1);
        let user = headers / slots.step * slots.step;
        let last = user + slots.user + (self.step - 1);
        slots.region + last / self.step * self.step
    }
}
