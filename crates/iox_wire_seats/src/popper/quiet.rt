//! The accesses of a pop that are quiet.

use super::{PopAt, Popper};
use iox_steps::Site;

impl Popper {
    ghost use Rattle.std.specs.Prelude.{◌≡◌, ◌+◌, ◌<◌, ◌^◌, IfSome, None, length};
    ghost use Rattle.iox_steps.specs.Accesses.{IsWithin};
    ghost use Rattle.iox_steps.specs.Sides.{popping_access};
    ghost use Rattle.iox_steps.specs.Sites.{size};
    ghost use Rattle.iox_wire_seats.specs.QuietSteps.{PopsQuietly};

    /// Makes the next access of a pop, if that is a load after which the pop goes on, and tells
    /// what it found. `None` says that nothing changed.
    #[inline(always)]
    pub fn quiet_pop(&mut self, site: Site, words: &[u64]) -> Option<u64>
        requires memory { site.base + size site < 2 ^ 64 }
        requires within { IsWithin 0 (length words.now) (popping_access site self.old) }
        ensures quiet { IfSome result
            (λ seen. PopsQuietly site self.old words.now seen self.new) }
        ensures unchanged { result ≡ None → self.new ≡ self.old }
    {
        match self.at {
            PopAt::LoadsRead => {
                let seen = words[site.base + 1];
                self.position = seen;
                self.at = PopAt::LoadsWrite;
                Some(seen)
            }
            PopAt::LoadsWrite => {
                let seen = words[site.base];
                if site.is_empty(self.position, seen) {
                    return None;
                }
                self.cell = site.cell_at(self.position);
                self.at = PopAt::LoadsCell;
                Some(seen)
            }
            PopAt::LoadsCell => {
                let seen = words[self.cell];
                self.value = seen;
                self.at = PopAt::Takes;
                Some(seen)
            }
            _ => None,
        }
    }
}
