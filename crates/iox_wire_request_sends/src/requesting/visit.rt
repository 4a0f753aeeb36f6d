//! How the send of a request continues to the next server, in each of its rounds.
ghost use Rattle.std.specs.Prelude.{◌≡◌};

use super::Requesting;
use crate::at::{RequestAt, RequestReply};
use crate::target::Target;
use iox_model::way::Way;
use iox_wire_seats::StoredSeat;

impl Requesting {
    ghost use Rattle.std.specs.Prelude.{◌≡◌, ◌+◌, ◌≤◌, None, Some, false, if◌then◌else◌, is_none, length, true};
    ghost use Rattle.iox_model.specs.Maps.{not_in};
    ghost use Rattle.iox_model.specs.Messages.{request_way};
    ghost use Rattle.iox_steps.specs.declared.pop.Pop.TheVariants.{LoadsRead};
    ghost use Rattle.iox_steps.specs.declared.side.Popping.TheVariants.{Pops};
    ghost use Rattle.iox_wire_locals.specs.declared.local.Local.TheVariants.{SendEmpties};
    ghost use Rattle.iox_wire_locals.specs.Begins.{is_busy};
    ghost use Rattle.iox_wire_locals.specs.Courses.{delivering, emptying, looking, opening};
    ghost use Rattle.iox_wire_locals.specs.Tables.{Setting};
    ghost use Rattle.iox_wire_seats.specs.Desks.{MayGiveUp};
    ghost use Rattle.iox_wire_seats.specs.Lends.{MayLend};
    ghost use Rattle.iox_wire_request_sends.specs.Aims.{IsSameSend, Knows, LeadsTo, LeavesSeat};
    ghost use Rattle.iox_wire_request_sends.specs.RequestDispatches.{delivery_to};
    ghost use Rattle.iox_wire_request_sends.specs.Targets.{full_ways, states_to, ways_to};
    ghost use Rattle.iox_wire_request_sends.specs.Targets.{IsWithin, fails_at_full, returning_at, with_room};

    /// The way to the server that it visits.
    #[inline(always)]
    pub(super) fn way(&self) -> Way
        ensures { result ≡ request_way self.now.loan.port self.now.target.server }
    {
        Way {
            sender: self.loan.port,
            receiver: self.target.server,
            lane: 0,
        }
    }

    /// Goes on to get back from the next server. Without one it looks at each, or with overflow
    /// opens the request states; until it is at one of them it is as before it opens any.
    pub(super) fn empty_next(&mut self, seat: &mut StoredSeat) -> Option<RequestReply>
        requires busy { is_busy self.old.local ≡ true }
        requires rests { is_busy seat.old.seat.local ≡ false }
        requires made { self.old.copied ≡ true
            → MayLend seat.old self.old.loan.number self.old.loan.port }
        requires held { MayGiveUp self.old.loan seat.old.seat.desks }
        ensures next { (p : Setting) → Knows p seat.old.seat self.old
            → LeadsTo p (emptying p seat.old.seat
            (delivery_to self.old.loan self.old.copied self.old.targets)
            (ways_to self.old.loan.port self.old.left)) seat.new self.new result }
        ensures leaves { LeavesSeat seat.old seat.new self.new result }
        ensures same { IsSameSend self.old self.new }
    {
        let Some(target) = self.targets.next() else {
            self.at = RequestAt::Opens;
            self.full.clear();
            self.targets.restart();
            if self.terms.overflow {
                return self.open_next(seat);
            }
            return self.look_next(seat);
        };
        self.empty(target);
        None
    }

    /// Goes on to look at the next server. Without one it fails if one that is full makes it fail,
    /// and else opens the request states.
    pub(super) fn look_next(&mut self, seat: &mut StoredSeat) -> Option<RequestReply>
        requires busy { is_busy self.old.local ≡ true }
        requires rests { is_busy seat.old.seat.local ≡ false }
        requires made { self.old.copied ≡ true
            → MayLend seat.old self.old.loan.number self.old.loan.port }
        requires held { MayGiveUp self.old.loan seat.old.seat.desks }
        requires room { length self.old.full + length self.old.left ≤ length self.old.targets }
        ensures next { (p : Setting) → Knows p seat.old.seat self.old
            → LeadsTo p (looking p seat.old.seat
            (delivery_to self.old.loan self.old.copied self.old.targets)
            (ways_to self.old.loan.port self.old.left)
            (full_ways self.old.loan.port self.old.full)) seat.new self.new result }
        ensures leaves { LeavesSeat seat.old seat.new self.new result }
        ensures same { IsSameSend self.old self.new }
    {
        let Some(target) = self.targets.next() else {
            if self.fails() {
                return self.fail(seat, RequestReply::UnableToDeliver);
            }
            self.at = RequestAt::Opens;
            self.targets.restart();
            return self.open_next(seat);
        };
        self.target = target;
        self.site = self.terms.messages(target);
        self.pusher.look();
        self.at = RequestAt::Looks;
        None
    }

    /// Goes on to open the next request state. Without one it delivers.
    pub(super) fn open_next(&mut self, seat: &mut StoredSeat) -> Option<RequestReply>
        requires busy { is_busy self.old.local ≡ true }
        requires rests { is_busy seat.old.seat.local ≡ false }
        requires made { self.old.copied ≡ true
            → MayLend seat.old self.old.loan.number self.old.loan.port }
        ensures next { (p : Setting) → Knows p seat.old.seat self.old
            → LeadsTo p (opening p seat.old.seat
            (delivery_to self.old.loan self.old.copied self.old.targets)
            (states_to self.old.loan.port self.old.loan.lane self.old.left)
            (full_ways self.old.loan.port self.old.full)) seat.new self.new result }
        ensures leaves { LeavesSeat seat.old seat.new self.new result }
        ensures same { IsSameSend self.old self.new }
    {
        let Some(target) = self.targets.next() else {
            self.at = RequestAt::Opens;
            self.targets.restart();
            self.last = None;
            self.count = 0;
            return self.deliver_next(seat);
        };
        self.target = target;
        self.state = self.terms.state(target);
        self.at = RequestAt::Opens;
        None
    }

    /// Goes on to deliver to the next server that was not seen full. Without one it is over.
    pub(super) fn deliver_next(&mut self, seat: &mut StoredSeat) -> Option<RequestReply>
        requires busy { is_busy self.old.local ≡ true }
        requires rests { is_busy seat.old.seat.local ≡ false }
        requires made { self.old.copied ≡ true
            → MayLend seat.old self.old.loan.number self.old.loan.port }
        requires count { self.old.count + length self.old.left ≤ length self.old.targets }
        ensures next { (p : Setting) → Knows p seat.old.seat self.old
            → LeadsTo p (delivering seat.old.seat
            (delivery_to self.old.loan self.old.copied self.old.targets) self.old.last
            (ways_to self.old.loan.port (with_room self.old.full self.old.left)) self.old.count)
            seat.new self.new result }
        ensures leaves { LeavesSeat seat.old seat.new self.new result }
        ensures same { IsSameSend self.old self.new }
    {
        let Some(target) = self.targets.next_with_room(&self.full) else {
            return self.finish(seat);
        };
        self.target = target;
        self.site = self.terms.messages(target);
        self.pusher.push(self.loan.slot);
        self.at = RequestAt::Pushes;
        None
    }

    /// Whether it fails at the servers that it saw full.
    #[inline(always)]
    fn fails(&self) -> bool
        ensures { result ≡ fails_at_full self.now.terms.fails self.now.full }
    {
        if self.full.len() == 0 {
            return false;
        }
        self.terms.fails
    }

    /// The way of a delivery that is done, if it may have to push out there.
    #[inline(always)]
    pub(super) fn may_evict(&self) -> Option<Way>
        ensures { result
            ≡ (if self.now.terms.overflow
            then Some (request_way self.now.loan.port self.now.target.server) else None) }
    {
        if self.terms.overflow {
            return Some(self.way());
        }
        None
    }

    /// Begins to get back from a server.
    #[inline(always)]
    pub(super) fn empty(&mut self, target: Target)
        requires { IsWithin self.old.terms target }
        ensures local { self.new.local
            ≡ SendEmpties (delivery_to self.old.loan self.old.copied self.old.targets)
            (request_way self.old.loan.port target.server) (Pops LoadsRead)
            (ways_to self.old.loan.port self.old.left) }
        ensures site { self.new.site ≡ returning_at self.old.terms target }
        ensures left { self.new.left ≡ self.old.left }
        ensures same { IsSameSend self.old self.new }
    {
        self.target = target;
        self.site = self.terms.returning(target);
        self.popper.pop();
        self.at = RequestAt::Empties;
    }
}
