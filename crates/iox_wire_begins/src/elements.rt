//! How many elements a payload has.
ghost use Rattle.std.specs.Prelude.{ℕ, ◌≡◌, ◌*◌, Some};
ghost use Rattle.iox_wire_begins.specs.WholeElements.{elements_in};

/// How many elements so many words are, of a width each: `None` for no whole number of them. No
/// words of no width are no element where a message may have any number of them, and else one.
pub fn elements_of(many: bool, width: usize, words: usize) -> Option<u64>
    ensures elements { result ≡ elements_in many width words }
    ensures whole { (k : ℕ) → result ≡ Some k → words ≡ k * width }
{
    if width == 0 {
        if words > 0 {
            return None;
        }
        return Some(if many { 0 } else { 1 });
    }
    if words % width != 0 {
        return None;
    }
    Some((words / width) as u64)
}
