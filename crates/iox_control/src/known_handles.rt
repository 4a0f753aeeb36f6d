//! Changes of a handle that its node has, and of which the kind is known.
ghost use Rattle.std.specs.Prelude.{◌≡◌, Some, is_some, true};
ghost use Rattle.iox_handles.specs.Tables.{IsSound};
ghost use Rattle.iox_hub_ports.specs.HubStates.Ends.{with_changed};
ghost use Rattle.iox_hub_ports.specs.HubStates.Sendings.{pending_of};
ghost use Rattle.iox_hub_ports.specs.HubStates.Tables.{HandleState};
ghost use Rattle.iox_hub_ports.specs.HubStates.Wirings.{handle_in};
ghost use Rattle.iox_control.specs.Controls.{with_handle_dropped, with_tables};

use crate::control::Control;
use iox_handles::Table;
use iox_model::kind::Kind;

/// The table of handles is sound. It has nothing to do: it is there for its contract.
#[inline(always)]
pub(crate) fn is_sound(handles: &Table)
    ensures { IsSound handles.now }
{
    handles.room();
}

impl Control {
    /// Removes the node's handle of that number, which it has and which is of that kind. It is
    /// looked for at the hint first. It leaves room for another.
    #[inline(always)]
    pub fn remove_known(&mut self, _node: u64, number: u64, hint: usize, kind: Kind)
        requires there { is_some (handle_in self.old.tables.handles _node number) ≡ true }
        requires kind { (h : HandleState) → handle_in self.old.tables.handles _node number ≡ Some h
            → h.kind ≡ kind }
        ensures { self.new ≡ with_handle_dropped self.old _node number }
    {
        is_sound(&self.handles);
        self.handles.remove_known(number, hint, kind);
    }

    /// The node's handle of that number, which it has and which is of that kind, becomes a pending
    /// response with so many connections. It is looked for at the hint first.
    #[inline(always)]
    pub fn become_pending(
        &mut self,
        _node: u64,
        number: u64,
        hint: usize,
        kind: Kind,
        connections: u64,
    )
        requires there { is_some (handle_in self.old.tables.handles _node number) ≡ true }
        requires kind { (h : HandleState) → handle_in self.old.tables.handles _node number ≡ Some h
            → h.kind ≡ kind }
        ensures { (h : HandleState) → handle_in self.old.tables.handles _node number ≡ Some h
            → self.new ≡ with_tables self.old
            (with_changed self.old.tables (pending_of h connections)) }
    {
        is_sound(&self.handles);
        self.handles
            .turn_known(number, hint, kind, Kind::PendingResponse, connections);
    }
}
