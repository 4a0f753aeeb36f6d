//! All that a node has is released.
ghost use Rattle.std.specs.Prelude.{◌≡◌, ◌≢◌, [], IfSome, IsSome, None, ℕ};
ghost use Rattle.iox_model.specs.declared.call.Call.TheVariants.{Release};
ghost use Rattle.iox_model.specs.declared.reply.Reply.TheVariants.{Done};
ghost use Rattle.iox_model.specs.Maps.{first_of, rest_of};
ghost use Rattle.iox_model.specs.Names.{is_port};
ghost use Rattle.iox_model.specs.Services.{Releases, numbers_of_node};
ghost use Rattle.iox_model.specs.WholeCalls.{IsWholeCall};
ghost use Rattle.iox_tables.specs.HubLoans.Questions.{kind_in};
ghost use Rattle.iox_tables.specs.HubStates.States.{Given};
ghost use Rattle.iox_control_releasing.specs.Goings.{StaysTidy};
ghost use Rattle.iox_hub.specs.Hubs.{state_of_hub};
ghost use Rattle.iox_hub.specs.Keeping.{Keeps, KeepsOthers};
ghost use Rattle.iox_hub.specs.Listings.{NoneBefore, held_ports};
ghost use Rattle.iox_hub.specs.Sending.{HasNothing};

use crate::hub::Hub;
use crate::listings::START;
use iox_backpressure::Backpressure;
use iox_handles::Numbered;
use iox_model::kind::Kind;
use iox_store::Payload;
use iox_words::Words;

/// Whether a value of that kind is a port.
fn is_port(kind: Kind) -> bool
    ensures { result ≡ is_port kind }
{
    matches!(kind, Kind::Client | Kind::Server)
}

impl<Q: Payload, QH: Words, P: Payload, PH: Words, H: Backpressure> Hub<Q, QH, P, PH, H> {
    /// Releases the node's value of that number, a port's own or a handle. A handle is looked for
    /// at the hint first.
    fn release_value(&mut self, node: u64, number: u64, hint: usize)
        requires has { IsSome (kind_in self.old.control.tables node number) }
        ensures whole { (x : Given) → IsWholeCall (state_of_hub x self.old) node
            (Release number) Done (state_of_hub x self.new) }
        ensures gone { HasNothing self.new node number }
        ensures keeps { KeepsOthers self.old node number self.new }
        ensures request { self.new.request ≡ self.old.request }
        ensures response { self.new.response ≡ self.old.response }
        ensures tidy { StaysTidy self.old.control.tables self.new.control.tables }
    {
        self.is_in_order();
        let Some(kind) = self.kind(node, number, hint) else {
            unreachable!();
        };
        if is_port(kind) {
            self.release_port(node, number);
        } else {
            self.release(node, number, hint);
        }
    }

    /// Releases the node's value of the least number, and tells that number; nothing is changed if
    /// the node has none. None of the node's ports is before what is ahead, and afterwards what is
    /// ahead is the first of them.
    fn release_next(&mut self, node: u64, ahead: &mut Option<Numbered>) -> Option<u64>
        requires before { NoneBefore ahead.old
            (held_ports self.old.control.tables.ports node) }
        ensures before { NoneBefore ahead.new (held_ports self.new.control.tables.ports node) }
        ensures first { (x : Given)
            → result ≡ first_of (numbers_of_node (state_of_hub x self.old).fixed node) }
        ensures whole { IfSome result (λ n. (x : Given) → IsWholeCall (state_of_hub x self.old)
            node (Release n) Done (state_of_hub x self.new)) }
        ensures rest { (x : Given) → numbers_of_node (state_of_hub x self.new).fixed node
            ≡ rest_of (numbers_of_node (state_of_hub x self.old).fixed node) }
        ensures unchanged { result ≡ None → self.new ≡ self.old }
        ensures keeps { IfSome result (λ n. KeepsOthers self.old node n self.new) }
        ensures request { self.new.request ≡ self.old.request }
        ensures response { self.new.response ≡ self.old.response }
        ensures tidy { StaysTidy self.old.control.tables self.new.control.tables }
    {
        self.is_in_order();
        let port = self.next_port(node, *ahead);
        let value = self.first_value(node, port)?;
        *ahead = port;
        self.release_value(node, value.number, value.place);
        self.is_in_order();
        Some(value.number)
    }

    /// Releases all that the node has, in the order of the numbers. It takes no memory, so it never
    /// fails; beside what the releases do, it looks at all handles and at all ports a few times in
    /// all.
    pub fn release_all(&mut self, node: u64)
        ensures released { (x : Given) → Releases (state_of_hub x self.old) node
            (numbers_of_node (state_of_hub x self.old).fixed node) (state_of_hub x self.new) }
        ensures none { (x : Given) → numbers_of_node (state_of_hub x self.new).fixed node ≡ [] }
        ensures gone { (n : ℕ) → HasNothing self.new node n }
        ensures keeps { Keeps (λ other n. other ≢ node) self.old self.new }
        ensures request { self.new.request ≡ self.old.request }
        ensures response { self.new.response ≡ self.old.response }
        ensures tidy { StaysTidy self.old.control.tables self.new.control.tables }
    {
        let mut ahead = START;
        while let Some(_) = self.release_next(node, &mut ahead) {}
    }
}
