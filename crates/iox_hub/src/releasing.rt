//! The releases of handles and of ports' own values.
ghost use Rattle.std.specs.Prelude.{◌≡◌, ◌↔◌, IfSome, IsTrue, None, Some, slice_set, true};
ghost use Rattle.std.specs.Bool.{OnFalse};
ghost use Rattle.iox_model.specs.declared.call.Call.TheVariants.{Release};
ghost use Rattle.iox_model.specs.declared.reply.Reply.TheVariants.{Done};
ghost use Rattle.iox_model.specs.Names.{is_port};
ghost use Rattle.iox_model.specs.WholeCalls.{IsWholeCall};
ghost use Rattle.iox_tables.specs.HubStates.States.{Given};
ghost use Rattle.iox_tables.specs.HubStates.Tables.{HandleState, PortState, port_in};
ghost use Rattle.iox_tables.specs.HubStates.Wirings.{handle_in};
ghost use Rattle.iox_control_releasing.specs.Goings.{StaysTidy};
ghost use Rattle.iox_hub.specs.Hubs.{state_of_hub, with_control};
ghost use Rattle.iox_hub.specs.Keeping.{KeepsOthers};
ghost use Rattle.iox_hub.specs.Reads.{HasOf};
ghost use Rattle.iox_hub.specs.ReleaseCalls.{ReleasesHandle};
ghost use Rattle.iox_hub.specs.Releases.{StillHas};
ghost use Rattle.iox_hub.specs.Sending.{HasNothing, is_handle, with_words_left};

use crate::all_words::AllWords;
use crate::hub::Hub;
use iox_backpressure::Backpressure;
use iox_control_releasing::{Ending, release, release_port, release_usual};
use iox_model::kind::Kind;
use iox_store::Payload;
use iox_words::Words;

/// The words in that place go. It is rare, so it is a call of its own.
#[cold]
#[inline(never)]
fn vacate<QE: Words, QH: Words, PE: Words, PH: Words>(
    words: &mut AllWords<QE, QH, PE, PH>,
    place: usize,
)
    ensures { words.new.pools ≡ slice_set words.old.pools place None }
{
    words.vacate(place);
}

impl<Q: Payload, QH: Words, P: Payload, PH: Words, H: Backpressure> Hub<Q, QH, P, PH, H> {
    /// The words beside the pool in that place go, if that pool is gone.
    pub(crate) fn drop_words(&mut self, place: usize)
        ensures left { self.new ≡ with_words_left self.old place }
        ensures shown { (x : Given) → state_of_hub x self.old ≡ state_of_hub x self.new }
    {
        match self.control.pools().ids(place) {
            Some(_) => {}
            None => vacate(&mut self.words, place),
        }
    }

    /// The words beside the pools go that may be gone by a release, if they are.
    #[inline(always)]
    fn drop_both(&mut self, ending: Ending)
        ensures shown { (x : Given) → state_of_hub x self.old ≡ state_of_hub x self.new }
        ensures stay { ending.place ≡ None → self.new ≡ self.old }
        ensures left { IfSome ending.place (λ place. self.new
            ≡ with_words_left (with_words_left self.old ending.entry.pool) place) }
    {
        match ending.place {
            None => {}
            Some(place) => {
                self.drop_words(ending.entry.pool);
                self.drop_words(place);
            }
        }
    }

    /// Releases the node's handle of that number, which is looked for at the hint first. Its port
    /// goes if nothing of it is left, and pools go of which nobody has a message, with their words.
    pub fn release(&mut self, node: u64, number: u64, hint: usize)
        requires has { HasOf is_handle self.old node number }
        ensures left { (h : HandleState)
            → handle_in self.old.control.tables.handles node number ≡ Some h
            → (p : PortState) → port_in self.old.control.tables.ports h.port ≡ Some p
            → self.new ≡ with_words_left
            (with_words_left (with_control self.old self.new.control) h.pool) p.pool }
        ensures whole { (x : Given) → IsWholeCall (state_of_hub x self.old) node
            (Release number) Done (state_of_hub x self.new) }
        ensures gone { HasNothing self.new node number }
        ensures keeps { KeepsOthers self.old node number self.new }
        ensures tidy { StaysTidy self.old.control.tables self.new.control.tables }
    {
        let Some(entry) = self.control.entry(node, number, hint) else {
            unreachable!();
        };
        if !self.release_if(node, number, entry.kind, hint) {
            unreachable!();
        }
    }

    /// The same where the node still has what a handle of that kind stands for: the handle, or the
    /// loan that a command filled meanwhile. It says whether it has it. Where it has not, nothing
    /// changes.
    #[inline(always)]
    pub fn release_if(&mut self, node: u64, number: u64, kind: Kind, hint: usize) -> bool
        requires { is_handle kind ≡ true }
        ensures told { IsTrue result ↔ StillHas self.old node number kind }
        ensures unchanged { OnFalse result (self.new ≡ self.old) }
        ensures left { IsTrue result → (h : HandleState)
            → handle_in self.old.control.tables.handles node number ≡ Some h
            → (p : PortState) → port_in self.old.control.tables.ports h.port ≡ Some p
            → self.new ≡ with_words_left
            (with_words_left (with_control self.old self.new.control) h.pool) p.pool }
        ensures whole { IsTrue result → (x : Given)
            → IsWholeCall (state_of_hub x self.old) node (Release number) Done
            (state_of_hub x self.new) }
        ensures gone { IsTrue result → HasNothing self.new node number }
        ensures keeps { IsTrue result → KeepsOthers self.old node number self.new }
        ensures tidy { IsTrue result
            → StaysTidy self.old.control.tables self.new.control.tables }
    {
        if self.release_usual(node, number, kind, hint) {
            return true;
        }
        self.release_far(node, number, kind, hint)
    }

    /// The same, if that is usual: neither a port nor a pool goes. Else it answers `false`, and
    /// nothing changes.
    #[inline(always)]
    fn release_usual(&mut self, node: u64, number: u64, kind: Kind, hint: usize) -> bool
        requires { is_handle kind ≡ true }
        ensures released { IsTrue result → ReleasesHandle self.old node number kind self.new }
        ensures unchanged { OnFalse result (self.new ≡ self.old) }
    {
        let Some(ending) = release_usual(&mut self.control, node, number, kind, hint) else {
            return false;
        };
        self.drop_both(ending);
        true
    }

    /// The same on any way. A call of its own, so that the other is short.
    #[inline(never)]
    #[cold]
    fn release_far(&mut self, node: u64, number: u64, kind: Kind, hint: usize) -> bool
        requires { is_handle kind ≡ true }
        ensures told { IsTrue result ↔ StillHas self.old node number kind }
        ensures released { IsTrue result → ReleasesHandle self.old node number kind self.new }
        ensures unchanged { OnFalse result (self.new ≡ self.old) }
    {
        let Some(ending) = release(&mut self.control, node, number, kind, hint) else {
            return false;
        };
        self.drop_both(ending);
        true
    }

    /// Releases the own value of that port, which goes if nothing of it is left.
    pub fn release_port(&mut self, node: u64, port: u64)
        requires has { HasOf is_port self.old node port }
        ensures left { (p : PortState) → port_in self.old.control.tables.ports port ≡ Some p
            → self.new ≡ with_words_left (with_control self.old self.new.control) p.pool }
        ensures whole { (x : Given) → IsWholeCall (state_of_hub x self.old) node
            (Release port) Done (state_of_hub x self.new) }
        ensures gone { HasNothing self.new node port }
        ensures keeps { KeepsOthers self.old node port self.new }
        ensures tidy { StaysTidy self.old.control.tables self.new.control.tables }
    {
        let Some(info) = self.control.ports().find(port) else {
            unreachable!();
        };
        release_port(&mut self.control, node, port);
        self.drop_words(info.pool);
    }
}
