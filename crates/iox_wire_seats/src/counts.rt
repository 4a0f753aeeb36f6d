//! How many messages of each way a node has as handles.
ghost use Rattle.std.specs.Prelude.{◌≡◌, ◌+◌, ◌-◌, ◌<◌, ◌^◌, IfSome, length, map, nat_le, position};
ghost use Rattle.std.specs.Bool.{OnFalse};
ghost use Rattle.iox_model.specs.Maps.{same_way};
ghost use Rattle.iox_wire_locals.specs.Desks.{with_count};
ghost use Rattle.iox_wire_seats.specs.Counts.{AreOfDifferentWays, IsBelow, count_at};

use iox_model::way::Way;
use iox_wire_locals::Borrowed;
use std::marker::Model;

/// How many messages of each way to a node's ports are its handles. Each way has one count.
#[derive(Drop)]
pub struct Counts {
    counts: Vec<Borrowed>,
}

impl Model for Counts {
    ghost use Rattle.std.specs.Prelude.{List};
    ghost use Rattle.iox_wire_locals.specs.declared.table.Borrowed.{Borrowed};
    ghost use Rattle.iox_wire_seats.specs.Counts.{AreOfDifferentWays};

    ghost Value = { List Borrowed };

    ghost view = { λ c. c.counts.items };

    ghost invariant = { λ c. AreOfDifferentWays c.counts.items };
}

impl Counts {
    /// The counts of these ways, no two of which are the same.
    pub fn new(counts: Vec<Borrowed>) -> Counts
        requires { AreOfDifferentWays counts.items }
        ensures { result ≡ counts.items }
    {
        Counts { counts }
    }

    /// Where the count of a way stands.
    fn place(&self, way: Way) -> Option<usize>
        ensures first { result ≡ position (λ b. same_way b.way way) self.now }
        ensures within { IfSome result (λ place. place < length self.now) }
    {
        self.counts
            .iter()
            .position(|borrowed| is_same_way(borrowed.way, way))
    }

    /// How many messages of the way are handles.
    fn count(&self, way: Way) -> u64
        ensures count { result ≡ count_at way self.now }
        ensures apart { AreOfDifferentWays self.now }
    {
        match self.place(way) {
            Some(place) => self.counts[place].count,
            None => 0,
        }
    }

    /// Whether as many messages of the way as that are handles.
    pub fn has_as_many(&self, way: Way, limit: u64) -> bool
        ensures many { result ≡ nat_le limit (count_at way self.now) }
        ensures below { OnFalse result (IsBelow (2 ^ 64 - 1) way self.now) }
    {
        limit <= self.count(way)
    }

    /// One more message of the way is a handle.
    pub fn add(&mut self, way: Way)
        requires { IsBelow (2 ^ 64 - 1) way self.old }
        ensures { self.new ≡ map (with_count way (λ n. n + 1)) self.old }
    {
        if let Some(place) = self.place(way) {
            let borrowed = self.counts[place];
            self.counts[place] = Borrowed {
                way: borrowed.way,
                count: borrowed.count + 1,
            };
        }
    }

    /// One message of the way is a handle no more.
    pub fn remove(&mut self, way: Way)
        ensures { self.new ≡ map (with_count way (λ n. n - 1)) self.old }
    {
        if let Some(place) = self.place(way) {
            let borrowed = self.counts[place];
            self.counts[place] = Borrowed {
                way: borrowed.way,
                count: borrowed.count.saturating_sub(1),
            };
        }
    }
}

/// Whether two ways are the same.
#[inline(always)]
pub(crate) fn is_same_way(way: Way, other: Way) -> bool
    ensures { result ≡ same_way way other }
{
    way.sender == other.sender && way.receiver == other.receiver && way.lane == other.lane
}
