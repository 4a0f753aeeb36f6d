//! Receives on their usual way: all is tested before anything is changed. Where it is another way,
//! they answer `None`, and nothing changed.
ghost use Rattle.std.specs.Prelude.{◌≡◌, ◌<◌, ◌+◌, ◌-◌, ◌^◌, ℕ, IfSome, OnSome, None};
ghost use Rattle.iox_hub_ports.specs.HubStates.Receives.{got_reply, visits_at, with_visited};
ghost use Rattle.iox_hub_ports.specs.HubStates.Tables.{slot_at};
ghost use Rattle.iox_hub_ports.specs.HubStates.Wirings.{IsPending, IsServer};
ghost use Rattle.iox_lanes.specs.declared.incoming.Visits.TheVariants.{Got};
ghost use Rattle.iox_control.specs.Controls.{IsControl, with_tables};
ghost use Rattle.iox_control.specs.Receives.{ReceivesRequest, ReceivesResponse, with_rest};
ghost use Rattle.iox_control.specs.Replies.{came_of, received_as, reply_of_receive};

use crate::control::Control;
use crate::received::{Came, Received};
use iox_lanes::incoming::Visits;
use iox_lanes::wanted::Wanted;
use iox_model::kind::Role;

impl Control {
    /// Visits that lane of each sender to the port, where the port is at the hint, no pipe is kept
    /// of a sender that is gone, and nothing waits, or the first message that waits is wanted, and
    /// the port may have one more. Else it is another way: `None` says that nothing changed.
    #[inline(always)]
    pub fn visit_usual(&mut self, port: u64, at: usize, lane: u64, wanted: Wanted) -> Option<Visits>
        ensures visits { IfSome result (λ visits.
            visits ≡ visits_at self.old.tables port lane wanted) }
        ensures visited { OnSome result (self.new ≡ with_tables self.old
            (with_visited self.old.tables port lane wanted)) }
        ensures unchanged { result ≡ None → self.new ≡ self.old }
    {
        self.ports.visit_usual(port, at, lane, wanted, &self.pools)
    }

    /// Does for a port of that role what is left to do once its visits are made, and answers. The
    /// port is looked for at the hint first.
    #[inline(always)]
    pub(crate) fn receive_visited(
        &mut self,
        node: u64,
        role: Role,
        port: u64,
        at: usize,
        visits: Visits,
    ) -> Received
        requires room { (sender pool k : ℕ) → visits ≡ Got sender pool k → 0 < self.old.room }
        requires number { self.old.tables.next_number + 1 < 2 ^ 64 }
        requires calls { self.old.tables.calls + 1 < 2 ^ 64 }
        requires taken { (sender pool k : ℕ) → visits ≡ Got sender pool k
            → 0 < (slot_at self.old.tables.pools pool k).holders }
        requires fits { (sender pool k : ℕ) → visits ≡ Got sender pool k
            → (slot_at self.old.tables.pools pool k).holders < 2 ^ 64 - 1 }
        ensures reply { reply_of_receive result ≡ got_reply self.old.tables visits }
        ensures left { self.new ≡ with_rest self.old node role port visits }
        ensures last { result ≡ received_as (came_of result) self.new.tables.next_number }
    {
        match visits {
            Visits::Got(_, pool, slot) => {
                Received::Handle(self.got(node, role, port, at, pool, slot))
            }
            Visits::AtLimit => Received::AtLimit,
            Visits::Nothing => {
                self.count_call();
                Received::Nothing
            }
        }
    }

    /// What a receive came to: if it has a handle, that is the last one.
    #[inline(always)]
    pub(crate) fn received_as(&self, came: Came) -> Received
        ensures { result ≡ received_as came self.now.tables.next_number }
    {
        match came {
            Came::Handle => Received::Handle(self.next_number.saturating_sub(1)),
            Came::Nothing => Received::Nothing,
            Came::AtLimit => Received::AtLimit,
        }
    }

    /// Receives a request for that server, which is at the hint, on the usual way.
    #[inline(always)]
    pub(crate) fn receive_request_usual(
        &mut self,
        node: u64,
        server: u64,
        hint: usize,
    ) -> Option<Received>
        requires server { IsServer self.old.tables node server }
        requires order { IsControl self.old }
        requires calls { self.old.tables.calls < 2 ^ 56 }
        ensures received { IfSome result (λ received.
            ReceivesRequest self.old node server received self.new) }
        ensures unchanged { result ≡ None → self.new ≡ self.old }
    {
        let wanted = self.wanted_by_server();
        let visits = self.visit_usual(server, hint, 0, wanted)?;
        Some(self.receive_visited(node, Role::Server, server, hint, visits))
    }

    /// Receives a response for that pending response, whose handle is at the hint, on the usual
    /// way.
    #[inline(always)]
    pub(crate) fn receive_response_usual(
        &mut self,
        node: u64,
        number: u64,
        hint: usize,
    ) -> Option<Received>
        requires pending { IsPending self.old.tables node number }
        requires order { IsControl self.old }
        requires calls { self.old.tables.calls < 2 ^ 56 }
        ensures received { IfSome result (λ received.
            ReceivesResponse self.old node number received self.new) }
        ensures unchanged { result ≡ None → self.new ≡ self.old }
    {
        let entry = self.near_known(node, number, hint)?;
        let label = self.label_of(entry.pool, entry.slot);
        let at = entry.at as usize;
        let wanted = Wanted::Of(label.request);
        let visits = self.visit_usual(entry.port, at, label.lane, wanted)?;
        Some(self.receive_visited(node, Role::Client, entry.port, at, visits))
    }
}
