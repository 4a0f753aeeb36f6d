//! The place of the party that pops as the definitions have it, and back.
ghost use Rattle.std.specs.Prelude.{◌≡◌};

use super::{PopAt, StoredPopper};
use iox_steps::{EmptyLook, Pop, Popping, Site};

impl StoredPopper {
    ghost use Rattle.std.specs.Prelude.{◌≡◌, ◌+◌, ◌^◌, ◌<◌};
    ghost use Rattle.iox_steps.specs.Sites.{size};

    /// Where it is.
    pub(crate) fn place(&self) -> Popping
        ensures { result ≡ self.now.place }
    {
        match self.at {
            PopAt::Rest => Popping::AtRest,
            PopAt::LoadsRead => Popping::Pops(Pop::LoadsRead),
            PopAt::LoadsWrite => Popping::Pops(Pop::LoadsWrite(self.position)),
            PopAt::LoadsCell => Popping::Pops(Pop::LoadsCell(self.position, self.cell)),
            PopAt::Takes => Popping::Pops(Pop::Takes(self.position, self.value)),
            PopAt::LookLoadsRead => Popping::Looks(EmptyLook::LoadsRead),
            PopAt::LookLoadsWrite => Popping::Looks(EmptyLook::LoadsWrite(self.position)),
        }
    }

    /// Goes to this place.
    pub(crate) fn put(&mut self, place: Popping)
        ensures { self.new ≡ record { site = self.old.site; place = place } }
    {
        match place {
            Popping::AtRest => self.at = PopAt::Rest,
            Popping::Pops(Pop::LoadsRead) => self.at = PopAt::LoadsRead,
            Popping::Pops(Pop::LoadsWrite(read)) => {
                self.position = read;
                self.at = PopAt::LoadsWrite;
            }
            Popping::Pops(Pop::LoadsCell(read, cell)) => {
                self.position = read;
                self.cell = cell;
                self.at = PopAt::LoadsCell;
            }
            Popping::Pops(Pop::Takes(read, value)) => {
                self.position = read;
                self.value = value;
                self.at = PopAt::Takes;
            }
            Popping::Looks(EmptyLook::LoadsRead) => self.at = PopAt::LookLoadsRead,
            Popping::Looks(EmptyLook::LoadsWrite(read)) => {
                self.position = read;
                self.at = PopAt::LookLoadsWrite;
            }
        }
    }

    /// The queue that it is a party of, which is in memory.
    pub(crate) fn site(&self) -> Site
        ensures site { result ≡ self.now.site }
        ensures memory { result.base + size result < 2 ^ 64 }
    {
        self.site
    }
}
