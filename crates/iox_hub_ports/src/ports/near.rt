//! Ports that are looked for first where they are likely: a wrong hint is only slower.
#![tactic(auto, using(crate::proofs::Keeping::kept))]

ghost use Rattle.std.specs.Prelude.{◌≡◌, ◌<◌, ◌^◌, ◌-◌, ◌↔◌, IfSome, IsTrue, Some, is_some, length, true};
ghost use Rattle.std.specs.Option.{option_map_or};
ghost use Rattle.iox_tables.specs.Visited.{all_visits};
ghost use Rattle.iox_tables.specs.HubStates.Receives.{visited_port};
ghost use Rattle.iox_tables.specs.HubStates.Tables.{pipes_to, port_in};
ghost use Rattle.iox_tables.specs.HubStates.Ways.{with_port};
ghost use Rattle.iox_hub_ports.specs.Ports.{info_at, info_in, place_in, with_loan_counted, with_ports};

use crate::info::PortInfo;
use crate::ports::Ports;
use crate::walks::is_at;
use iox_tables::incoming::Visits;
use iox_tables::wanted::{Labels, Wanted};

impl Ports {
    /// Whether the port of that number is at the hint.
    #[inline(always)]
    pub fn is_near(&self, number: u64, hint: usize) -> bool
        ensures place { IsTrue result ↔ place_in self.now.ports number ≡ Some hint }
        ensures within { IsTrue result → hint < length self.now.ports }
    {
        is_at(&self.ports, hint, number)
    }

    /// The place of the port of that number, which is looked for at the hint first.
    #[inline(always)]
    pub fn place_at(&self, number: u64, hint: usize) -> Option<usize>
        ensures first { result ≡ place_in self.now.ports number }
        ensures within { IfSome result (λ place. place < length self.now.ports) }
    {
        if self.is_near(number, hint) {
            return Some(hint);
        }
        self.place_far(number)
    }

    /// The same, where it is not at the hint. A call of its own, so that the others are short.
    #[inline(never)]
    #[cold]
    fn place_far(&self, number: u64) -> Option<usize>
        ensures first { result ≡ place_in self.now.ports number }
        ensures within { IfSome result (λ place. place < length self.now.ports) }
    {
        self.place(number)
    }

    /// The place of the port of that number, which is there. It is looked for at the hint first.
    #[inline(always)]
    pub fn known_place(&self, number: u64, hint: usize) -> usize
        requires { is_some (port_in self.now.ports number) ≡ true }
        ensures first { place_in self.now.ports number ≡ Some result }
        ensures within { result < length self.now.ports }
    {
        match self.place_at(number, hint) {
            Some(place) => place,
            None => unreachable!(),
        }
    }

    /// A better hint: where the port of that number stands, if it is there.
    #[inline(always)]
    pub fn likely_place(&self, number: u64, hint: usize) -> usize {
        match self.place_at(number, hint) {
            Some(place) => place,
            None => hint,
        }
    }

    /// What is said of the port of that number, if it is at the hint.
    #[inline(always)]
    pub fn near(&self, number: u64, hint: usize) -> Option<PortInfo>
        ensures { IfSome result (λ info. Some info ≡ info_in self.now.ports number) }
    {
        if !self.is_near(number, hint) {
            return None;
        }
        Some(self.known_at(hint))
    }

    /// What is said of the port of that number, which is looked for at the hint first.
    #[inline(always)]
    pub fn find_near(&self, number: u64, hint: usize) -> Option<PortInfo>
        ensures { result ≡ info_in self.now.ports number }
    {
        match self.place_at(number, hint) {
            Some(place) => Some(self.ports[place].info()),
            None => None,
        }
    }

    /// What is said of the port of that number, which is there. It is looked for at the hint first.
    #[inline(always)]
    pub fn known(&self, number: u64, hint: usize) -> PortInfo
        requires { is_some (port_in self.now.ports number) ≡ true }
        ensures { Some result ≡ info_in self.now.ports number }
    {
        let place = self.known_place(number, hint);
        self.known_at(place)
    }

    /// What is said of the port in that place, where one is.
    #[inline(always)]
    pub fn known_at(&self, place: usize) -> PortInfo
        requires { place < length self.now.ports }
        ensures { Some result ≡ info_at self.now.ports place }
    {
        self.ports[place].info()
    }

    // ---- what is done by number, with a hint

    /// Counts one loan more of the port of that number, which is looked for at the hint first.
    #[inline(always)]
    pub fn count_loan_near(&mut self, number: u64, hint: usize)
        requires { option_map_or (λ p. p.loans) (port_in self.old.ports number) 0 < 2 ^ 64 - 1 }
        ensures { self.new
            ≡ with_ports self.old (with_port with_loan_counted self.old.ports number) }
    {
        match self.place_at(number, hint) {
            Some(place) => self.ports[place].count_loan(),
            None => {}
        }
    }

    /// Visits that lane of each sender to the port of that number, until one gives a message. The
    /// port is looked for at the hint first.
    #[inline(always)]
    pub fn visit_near<L: Labels>(
        &mut self,
        number: u64,
        hint: usize,
        lane: u64,
        wanted: Wanted,
        labels: &L,
    ) -> Visits
        ensures visits { result
            ≡ all_visits wanted (L.label_of labels.now) lane (pipes_to self.old.ports number) }
        ensures visited { self.new ≡ with_ports self.old
            (with_port (visited_port wanted (L.label_of labels.now) lane) self.old.ports number) }
    {
        match self.place_at(number, hint) {
            Some(place) => self.ports[place].visit(lane as usize, wanted, labels),
            None => Visits::Nothing,
        }
    }
}
