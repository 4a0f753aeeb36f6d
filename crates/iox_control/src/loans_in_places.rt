//! What a loan does to ports where their places are known, and likely those of their pipes, too.
//! Each leaves what the change by numbers leaves; a wrong hint is only slower.
ghost use Rattle.std.specs.Prelude.{◌≡◌, ◌<◌, ◌-◌, ◌^◌, IfSome, None, Some, is_some, length, slice_get};
ghost use Rattle.std.specs.Option.{option_map, option_map_or};
ghost use Rattle.iox_lanes.specs.Lanes.{without_returned};
ghost use Rattle.iox_hub_ports.specs.HubStates.Ends.{with_loan};
ghost use Rattle.iox_hub_ports.specs.HubStates.Tables.{port_in};
ghost use Rattle.iox_hub_ports.specs.InPlace.{AllApart};
ghost use Rattle.iox_hub_ports.specs.Ports.{lane_to_get_at, on_way_at, place_in, with_lane_at};
ghost use Rattle.iox_control.specs.Controls.{with_ports, with_tables};

use crate::control::Control;
use iox_lanes::pipe::Next;

impl Control {
    /// Gets back the oldest message of those that the port in that place gave back on the lowest
    /// lane from the sender on which something is left to get back, if there is one. Its slot stays
    /// as it is. The pipe is looked for at the hint first.
    #[inline(always)]
    pub fn get_next_in(&mut self, at: usize, sender: u64, hint: usize) -> Option<Next>
        requires there { at < length self.old.tables.ports }
        requires apart { AllApart self.old.tables.ports }
        ensures lowest { option_map (λ n. n.lane) result
            ≡ lane_to_get_at self.old.tables.ports at sender }
        ensures oldest { IfSome result (λ n.
            on_way_at (λ l. slice_get l.returned 0) None self.old.tables.ports at sender n.lane
            ≡ Some n.place) }
        ensures got_back { IfSome result (λ n. self.new ≡ with_ports self.old
            (with_lane_at without_returned self.old.tables.ports at sender n.lane)) }
        ensures more { IfSome result (λ n.
            n.more ≡ is_some (lane_to_get_at self.new.tables.ports at sender)) }
        ensures apart { AllApart self.new.tables.ports }
        ensures unchanged { result ≡ None → self.new ≡ self.old }
    {
        self.ports.len();
        self.ports.get_next_in(at, sender, hint)
    }

    /// Counts one loan more of the port of that number, which is in that place.
    #[inline(always)]
    pub fn count_loan_in(&mut self, at: usize, _port: u64)
        requires there { place_in self.old.tables.ports _port ≡ Some at }
        requires loans { option_map_or (λ p. p.loans) (port_in self.old.tables.ports _port) 0
            < 2 ^ 64 - 1 }
        ensures { self.new ≡ with_tables self.old (with_loan self.old.tables _port) }
    {
        self.ports.count_loan_in(at);
    }
}
