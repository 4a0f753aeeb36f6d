//! The steps of a node of a wire that are quiet.
use super::Member;

impl Member {
    ghost use Rattle.std.specs.Prelude.{◌≡◌, ◌<◌, ℕ, IfSome, List, None};
    ghost use Rattle.iox_steps.specs.Accesses.{seen_at, words_after};
    ghost use Rattle.iox_wire_weaves.specs.Aims.{IsAimed};
    ghost use Rattle.iox_wire_weaves.specs.Laws.{LivesAs};
    ghost use Rattle.iox_wire_weaves.specs.Nodes.{seat_in};
    ghost use Rattle.iox_wire_weaves.specs.Rooms.{KeepsRooms};
    ghost use Rattle.iox_wire_weaves.specs.SlotEvents.{slot_event};
    ghost use Rattle.iox_wire_weaves.specs.Steps.{most_accesses};
    ghost use Rattle.iox_wire_weaves.specs.Tables.{Setting};
    ghost use Rattle.iox_wire.specs.Kept.{HasGoneOn, MayAccess, access_in};

    /// Makes its next access and continues, if that is no moment and its call goes on behind it;
    /// tells what it found. `None` says that nothing changed.
    #[inline(always)]
    pub(crate) fn quiet_step(&mut self, words: &mut Vec<u64>) -> Option<u64>
        requires may { (p : Setting) × MayAccess p self.old.node words.old.items }
        requires few { (seat_in self.old.node).accesses < most_accesses }
        ensures seen { IfSome result (λ seen. (p : Setting)
            → MayAccess p self.old.node words.old.items
            → seen ≡ seen_at (access_in p self.old.node) words.old.items) }
        ensures words { IfSome result (λ seen. (p : Setting)
            → MayAccess p self.old.node words.old.items
            → words.new.items ≡ words_after (access_in p self.old.node) words.old.items) }
        ensures event { IfSome result (λ seen. (p : Setting) → IsAimed p self.old.node
            → None ≡ slot_event p (seat_in self.old.node).local seen) }
        ensures made { IfSome result (λ seen. (p : Setting) → (ws : List ℕ)
            → MayAccess p self.old.node ws → seen ≡ seen_at (access_in p self.old.node) ws
            → HasGoneOn p self.old.node ws None self.new.node) }
        ensures number { self.new.number ≡ self.old.number }
        ensures lives { LivesAs self.old self.new }
        ensures call { self.new.call ≡ self.old.call }
        ensures read { self.new.read ≡ self.old.read }
        ensures rooms { KeepsRooms self.old.node self.new.node }
        ensures unchanged { result ≡ None → self.new ≡ self.old }
        ensures words_unchanged { result ≡ None → words.new ≡ words.old }
    {
        let seen = self.node.quiet_step(words)?;
        Some(seen)
    }
}
