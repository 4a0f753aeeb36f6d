//! The place of the party that pushes as the definitions have it, and back.
ghost use Rattle.std.specs.Prelude.{◌≡◌};

use super::{PushAt, StoredPusher};
use iox_steps::{FullLook, Push, Pushing, Site};

impl StoredPusher {
    ghost use Rattle.std.specs.Prelude.{◌≡◌, ◌+◌, ◌^◌, ◌<◌};
    ghost use Rattle.iox_steps.specs.Sites.{size};

    /// Where it is.
    pub(crate) fn place(&self) -> Pushing
        ensures { result ≡ self.now.place }
    {
        let full = if self.full { Some(self.read) } else { None };
        match self.at {
            PushAt::Rest => Pushing::AtRest,
            PushAt::LoadsWrite => Pushing::Pushes(Push::LoadsWrite(self.value)),
            PushAt::LoadsRead => Pushing::Pushes(Push::LoadsRead(self.value, self.position)),
            PushAt::StoresCell => {
                Pushing::Pushes(Push::StoresCell(self.value, self.cell, self.position, full))
            }
            PushAt::StoresWrite => {
                Pushing::Pushes(Push::StoresWrite(self.value, self.position, full))
            }
            PushAt::Evicts => Pushing::Pushes(Push::Evicts(self.read)),
            PushAt::TakesOld => Pushing::Pushes(Push::TakesOld(self.oldest)),
            PushAt::LookLoadsWrite => Pushing::Looks(FullLook::LoadsWrite),
            PushAt::LookLoadsRead => Pushing::Looks(FullLook::LoadsRead(self.position)),
        }
    }

    /// Goes to this place.
    pub(crate) fn put(&mut self, place: Pushing)
        ensures { self.new ≡ record { site = self.old.site; place = place } }
    {
        match place {
            Pushing::AtRest => self.at = PushAt::Rest,
            Pushing::Pushes(Push::LoadsWrite(value)) => {
                self.value = value;
                self.at = PushAt::LoadsWrite;
            }
            Pushing::Pushes(Push::LoadsRead(value, write)) => {
                self.value = value;
                self.position = write;
                self.at = PushAt::LoadsRead;
            }
            Pushing::Pushes(Push::StoresCell(value, cell, next, full)) => {
                self.value = value;
                self.cell = cell;
                self.position = next;
                self.full = full.is_some();
                self.read = full.unwrap_or(0);
                self.at = PushAt::StoresCell;
            }
            Pushing::Pushes(Push::StoresWrite(value, next, full)) => {
                self.value = value;
                self.position = next;
                self.full = full.is_some();
                self.read = full.unwrap_or(0);
                self.at = PushAt::StoresWrite;
            }
            Pushing::Pushes(Push::Evicts(read)) => {
                self.read = read;
                self.at = PushAt::Evicts;
            }
            Pushing::Pushes(Push::TakesOld(cell)) => {
                self.oldest = cell;
                self.at = PushAt::TakesOld;
            }
            Pushing::Looks(FullLook::LoadsWrite) => self.at = PushAt::LookLoadsWrite,
            Pushing::Looks(FullLook::LoadsRead(write)) => {
                self.position = write;
                self.at = PushAt::LookLoadsRead;
            }
        }
    }

    /// The queue that it is a party of, which is in memory.
    pub(crate) fn site(&self) -> Site
        ensures site { result ≡ self.now.site }
        ensures memory { result.base + size result < 2 ^ 64 }
    {
        self.site
    }
}
