//! The accesses of a push, and of a look at fullness, that are quiet.

use super::{PushAt, Pusher};
use iox_steps::Site;

impl Pusher {
    ghost use Rattle.std.specs.Prelude.{◌≡◌, ◌+◌, ◌<◌, ◌^◌, IfSome, None, length};
    ghost use Rattle.iox_steps.specs.Accesses.{IsWithin};
    ghost use Rattle.iox_steps.specs.Sides.{pushing_access};
    ghost use Rattle.iox_steps.specs.Sites.{size};
    ghost use Rattle.iox_wire_seats.specs.QuietSteps.{LooksQuietly, PushesQuietly};

    /// Makes the next access of a push, if that neither publishes nor evicts, and tells what it
    /// found. `None` says that nothing changed.
    #[inline(always)]
    pub fn quiet_push(&mut self, site: Site, words: &mut Vec<u64>) -> Option<u64>
        requires memory { site.base + size site < 2 ^ 64 }
        requires within { IsWithin 0 (length words.old.items) (pushing_access site self.old) }
        ensures quiet { IfSome result
            (λ seen. PushesQuietly site self.old words.old.items seen self.new words.new.items) }
        ensures unchanged { result ≡ None → self.new ≡ self.old }
        ensures words_unchanged { result ≡ None → words.new ≡ words.old }
    {
        match self.at {
            PushAt::LoadsWrite => {
                let seen = words[site.base];
                self.position = seen;
                self.at = PushAt::LoadsRead;
                Some(seen)
            }
            PushAt::LoadsRead => {
                let seen = words[site.base + 1];
                let _event = self.compare(site, seen);
                Some(seen)
            }
            PushAt::StoresCell => {
                let seen = words[self.cell];
                words[self.cell] = self.value;
                self.at = PushAt::StoresWrite;
                Some(seen)
            }
            _ => None,
        }
    }

    /// Makes the first load of a look at fullness, if that comes next, and tells what it found.
    /// `None` says that nothing changed.
    #[inline(always)]
    pub fn quiet_look(&mut self, site: Site, words: &[u64]) -> Option<u64>
        requires within { IsWithin 0 (length words.now) (pushing_access site self.old) }
        ensures quiet { IfSome result
            (λ seen. LooksQuietly site self.old words.now seen self.new) }
        ensures unchanged { result ≡ None → self.new ≡ self.old }
    {
        match self.at {
            PushAt::LookLoadsWrite => {
                let seen = words[site.base];
                self.position = seen;
                self.at = PushAt::LookLoadsRead;
                Some(seen)
            }
            _ => None,
        }
    }
}
