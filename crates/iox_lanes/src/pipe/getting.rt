//! What a sender gets back of a pipe: one message after another.
ghost use Rattle.std.specs.Option.{option_map};
ghost use Rattle.std.specs.Prelude.{◌≡◌, IfSome, None, Some, is_some, slice_get, true};
ghost use Rattle.iox_lanes.specs.Lanes.{without_returned};
ghost use Rattle.iox_lanes.specs.Marks.{has_returned_at};
ghost use Rattle.iox_lanes.specs.Pipes.{lane_to_get, on_lane, with_lane};

use crate::pipe::{Left, Next, Pipe};

impl Pipe {
    /// Gets back the oldest message of those that were given back on that lane, and says whether
    /// something is left there. There is one.
    #[inline]
    fn get_one_back(&mut self, lane: usize) -> (u64, bool)
        requires some { has_returned_at self.old.lanes lane ≡ true }
        ensures oldest { on_lane (λ l. slice_get l.returned 0) None self.old lane
            ≡ Some result.0 }
        ensures got_back { self.new ≡ with_lane without_returned self.old lane }
        ensures more { result.1 ≡ has_returned_at self.new.lanes lane }
    {
        let l = &mut self.lanes[lane];
        let place = l.get_one_back();
        if l.has_returned() {
            return (place, true);
        }
        self.marks.remove(lane);
        (place, false)
    }

    /// The lowest lane on which something that was given back is left to get back, if there is one.
    #[inline]
    pub fn lane_to_get(&mut self) -> Option<usize>
        ensures lowest { result ≡ lane_to_get self.old }
        ensures unchanged { self.new ≡ self.old }
    {
        self.marks.first()
    }

    /// What is left to get back. Any answer is right: it tells which way is short.
    #[inline(always)]
    pub fn left(&self) -> Left {
        if self.marks.has_none() {
            return Left::Nothing;
        }
        if self.marks.has_first_alone() {
            if self.lanes[0].has_one_returned() {
                return Left::One;
            }
        }
        Left::Other
    }

    /// Gets back the oldest message of those that were given back on the lowest lane on which
    /// something is left to get back, if there is one. Where that is the first lane alone, it is
    /// no call.
    #[inline(always)]
    pub fn get_next(&mut self) -> Option<Next>
        ensures lowest { option_map (λ n. n.lane) result ≡ lane_to_get self.old }
        ensures oldest { IfSome result (λ n.
            on_lane (λ l. slice_get l.returned 0) None self.old n.lane ≡ Some n.place) }
        ensures got_back { IfSome result (λ n.
            self.new ≡ with_lane without_returned self.old n.lane) }
        ensures more { IfSome result (λ n. n.more ≡ is_some (lane_to_get self.new)) }
        ensures unchanged { result ≡ None → self.new ≡ self.old }
    {
        if self.marks.has_first_alone() {
            let (place, more) = self.get_one_back(0);
            return Some(Next {
                lane: 0,
                place,
                more,
            });
        }
        if self.marks.has_none() {
            return None;
        }
        self.get_next_other()
    }

    /// The same, where it is not the first lane alone. What the call tells is put together anew, so
    /// that it stays in registers where it is not called.
    #[inline(always)]
    fn get_next_other(&mut self) -> Option<Next>
        ensures lowest { option_map (λ n. n.lane) result ≡ lane_to_get self.old }
        ensures oldest { IfSome result (λ n.
            on_lane (λ l. slice_get l.returned 0) None self.old n.lane ≡ Some n.place) }
        ensures got_back { IfSome result (λ n.
            self.new ≡ with_lane without_returned self.old n.lane) }
        ensures more { IfSome result (λ n. n.more ≡ is_some (lane_to_get self.new)) }
        ensures unchanged { result ≡ None → self.new ≡ self.old }
    {
        let Next { lane, place, more } = self.get_next_far()?;
        Some(Next { lane, place, more })
    }

    /// The same. A call of its own, so that the others are short.
    #[inline(never)]
    #[cold]
    fn get_next_far(&mut self) -> Option<Next>
        ensures lowest { option_map (λ n. n.lane) result ≡ lane_to_get self.old }
        ensures oldest { IfSome result (λ n.
            on_lane (λ l. slice_get l.returned 0) None self.old n.lane ≡ Some n.place) }
        ensures got_back { IfSome result (λ n.
            self.new ≡ with_lane without_returned self.old n.lane) }
        ensures more { IfSome result (λ n. n.more ≡ is_some (lane_to_get self.new)) }
        ensures unchanged { result ≡ None → self.new ≡ self.old }
    {
        let lane = self.lane_to_get()?;
        let (place, _) = self.get_one_back(lane);
        let more = self.lane_to_get().is_some();
        Some(Next { lane, place, more })
    }
}
