//! Where the messages of a port stand.
ghost use Rattle.std.specs.Prelude.{◌≡◌, ◌+◌, ◌*◌, ◌<◌, ◌≤◌, ◌^◌};

/// Where the messages of a port stand: so many slots of so many words each.
#[derive(Clone, Copy, Debug)]
pub struct SlotPlaces {
    /// The place of the first slot.
    pub region: usize,
    /// How many slots there are.
    pub slots: u64,
    /// How many words each slot has.
    pub slot_words: usize,
    /// How many words a header has.
    pub header: usize,
    /// How many words a user header has.
    pub user: usize,
    /// The user header begins at a multiple of so many words.
    pub step: usize,
}

impl SlotPlaces {
    ghost use Rattle.std.specs.Prelude.{◌≡◌, ◌+◌, ◌*◌, ◌<◌, ◌≤◌, ◌^◌};
    ghost use Rattle.iox_wire_loans.specs.Lenders.{IsWithin, start_in, user_in};

    /// How far behind the first a slot begins. What is no slot is told as the first.
    #[inline(always)]
    pub fn start(self, slot: u64) -> usize
        requires { IsWithin self }
        ensures there { slot < self.slots → result ≡ start_in self slot }
        ensures within { result + self.slot_words ≤ self.slots * self.slot_words }
    {
        if slot < self.slots {
            slot as usize * self.slot_words
        } else {
            0
        }
    }

    /// Where the header stands in a slot.
    #[inline(always)]
    pub fn header_place(self, slot: u64) -> usize
        requires { IsWithin self }
        ensures there { slot < self.slots → result ≡ self.region + start_in self slot }
        ensures within { result + self.header < 2 ^ 64 }
    {
        self.region + self.start(slot)
    }

    /// Where the user header stands in a slot.
    #[inline(always)]
    pub fn user_place(self, slot: u64) -> usize
        requires { IsWithin self }
        ensures there { slot < self.slots → result ≡ self.region + user_in self slot }
        ensures within { result + self.user < 2 ^ 64 }
    {
        let last = self.start(slot) + self.header + (self.step - 1);
        self.region + last / self.step * self.step
    }
}
