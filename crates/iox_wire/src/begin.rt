//! How a node of a wire begins a call.
ghost use Rattle.std.specs.Prelude.{◌≡◌, IfErr, OnErr, OnOk};
ghost use Rattle.iox_wire_weaves.specs.Asking.{BeginIsWoven, BeginsItsCall, IsBeginRefusal};
ghost use Rattle.iox_wire_weaves.specs.NodeCall.TheVariants.{HasRequests};
ghost use Rattle.iox_wire_weaves.specs.Steps.{KeepsReads};
ghost use Rattle.iox_wire_weaves.specs.declared.refusal.WireRefusal.TheVariants.{WantOfMemory};

use crate::wire::Wire;
use iox_wire_weaves::{NodeCall, WireRefusal};

impl Wire {
    /// The node begins a call of the port or the handle of its number. That takes no memory: room
    /// for what calls keep, and for all handles that the node may have, is made with the wire.
    pub fn begin(&mut self, node: u64, call: NodeCall<'_>) -> Result<(), WireRefusal>
        ensures begun { OnOk result (BeginsItsCall self.old node call.entry self.new) }
        ensures weave { OnOk result (BeginIsWoven self.old node call.entry self.new) }
        ensures read { KeepsReads self.old self.new }
        ensures room { self.new.room ≡ self.old.room }
        ensures refused { IfErr result (IsBeginRefusal self.old node call.entry) }
        ensures always { IfErr result (λ error. error ≡ WantOfMemory → ⊥) }
        ensures unchanged { OnErr result (self.new ≡ self.old) }
    {
        let place = self.living(node)?;
        let begun = self.events().len();
        let member = &mut self.members[place];
        let lists = &mut self.lists;
        let told = member.begin(&self.places, &self.terms, call, begun, lists);
        if let Err(refusal) = told {
            return Err(refusal);
        }
        Ok(())
    }

    /// The node begins to look whether a request waits for its server of that number.
    pub fn begin_has_requests(&mut self, node: u64, number: u64) -> Result<(), WireRefusal>
        ensures begun { OnOk result (BeginsItsCall self.old node (HasRequests number) self.new) }
        ensures weave { OnOk result (BeginIsWoven self.old node (HasRequests number) self.new) }
        ensures read { KeepsReads self.old self.new }
        ensures room { self.new.room ≡ self.old.room }
        ensures refused { IfErr result (IsBeginRefusal self.old node (HasRequests number)) }
        ensures always { IfErr result (λ error. error ≡ WantOfMemory → ⊥) }
        ensures unchanged { OnErr result (self.new ≡ self.old) }
    {
        self.begin(node, NodeCall::HasRequests { number })
    }
}
