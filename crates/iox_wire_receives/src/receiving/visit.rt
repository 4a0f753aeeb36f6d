//! How a receive begins, and continues to its next way.
ghost use Rattle.std.specs.Prelude.{◌≡◌};
ghost use Rattle.iox_model.specs.Settings.{other_role};
ghost use Rattle.iox_wire_locals.specs.Stored.{header_length as words_of_header};

use super::Receiving;
use crate::at::{ReceiveAt, ReceiveReply};
use crate::source::{ReceiveTerms, Source};
use iox_model::kind::Role;
use iox_wire_locals::Visit;
use iox_wire_seats::StoredSeat;

impl Receiving {
    ghost use Rattle.std.specs.Prelude.{◌≡◌, ◌≤◌, None, false, length, true, option_map};
    ghost use Rattle.iox_wire_locals.specs.Begins.{is_busy};
    ghost use Rattle.iox_wire_locals.specs.Courses.{placed};
    ghost use Rattle.iox_wire_locals.specs.NewLoans.{received_length};
    ghost use Rattle.iox_wire_locals.specs.ReceiveCourses.{visiting};
    ghost use Rattle.iox_wire_locals.specs.Tables.{Setting};
    ghost use Rattle.iox_wire_receives.specs.Aims.{MayTakeOneMore, IsAimed, KnowsTerms};
    ghost use Rattle.iox_wire_receives.specs.Aims.{after, answered};
    ghost use Rattle.iox_wire_receives.specs.Receipts.{reply_in};
    ghost use Rattle.iox_wire_receives.specs.Sources.{AreSources, AreWithin, ways_of};

    /// Begins to receive from these ways. No receive may be under way: what it took would be lost.
    pub fn begin(
        &mut self,
        seat: &StoredSeat,
        visit: Visit,
        terms: ReceiveTerms,
        sources: &[Source],
    )
        requires rests { is_busy self.old.local ≡ false }
        requires within { AreWithin terms (received_length visit) sources.now }
        requires fits { length sources.now ≤ self.old.room }
        ensures begun { (p : Setting) → AreSources p terms (received_length visit) sources.now
            → placed seat.now.seat self.new.local
            ≡ visiting p seat.now.seat visit (ways_of sources.now) false }
        ensures aimed { (p : Setting) → AreSources p terms (received_length visit) sources.now
            → KnowsTerms p seat.now.seat terms → IsAimed p seat.now.seat self.new }
        ensures counts { MayTakeOneMore seat.now.seat self.new.local }
        ensures terms { self.new.terms ≡ terms }
        ensures ways { self.new.room ≡ self.old.room }
    {
        self.left.fill(sources);
        self.visit = visit;
        self.terms = terms;
        self.waiting = false;
        self.at = ReceiveAt::TellsNothing;
        if sources.len() != 0 {
            self.visit_next(seat);
        }
    }

    /// Goes on to the next way: at the borrow limit it looks there, else it pops. Without one it is
    /// over.
    #[inline(always)]
    pub(super) fn visit_next(&mut self, seat: &StoredSeat) -> Option<ReceiveReply>
        requires busy { is_busy self.old.local ≡ true }
        requires within { AreWithin self.old.terms (received_length self.old.visit) self.old.left }
        ensures next { (p : Setting)
            → AreSources p self.old.terms (received_length self.old.visit) self.old.left
            → placed seat.now.seat self.new.local
            ≡ after p (visiting p seat.now.seat self.old.visit
            (ways_of self.old.left) self.old.waiting) }
        ensures over { (p : Setting)
            → AreSources p self.old.terms (received_length self.old.visit) self.old.left
            → answered p (visiting p seat.now.seat self.old.visit
            (ways_of self.old.left) self.old.waiting)
            ≡ option_map reply_in result }
        ensures aimed { (p : Setting)
            → AreSources p self.old.terms (received_length self.old.visit) self.old.left
            → KnowsTerms p seat.now.seat self.old.terms → IsAimed p seat.now.seat self.new }
        ensures counts { MayTakeOneMore seat.now.seat self.new.local }
        ensures terms { self.new.terms ≡ self.old.terms }
        ensures ways { self.new.room ≡ self.old.room }
    {
        let Some(source) = self.left.next() else {
            self.at = ReceiveAt::Rest;
            if self.waiting {
                return Some(ReceiveReply::ExceedsMaxBorrows);
            }
            return Some(ReceiveReply::Nothing);
        };
        self.source = source;
        self.again = false;
        self.site = self.terms.messages(source);
        if seat.has_as_many(source.way, self.terms.limit) {
            self.popper.look();
            self.at = ReceiveAt::Looks;
        } else {
            self.popper.pop();
            self.at = ReceiveAt::Pops;
        }
        None
    }
}

/// How many words the header has of what a port of that role receives.
#[inline(always)]
pub(super) fn header_length(role: Role) -> usize
    ensures { result ≡ words_of_header (other_role role) }
{
    match role {
        Role::Client => 6,
        Role::Server => 7,
    }
}
