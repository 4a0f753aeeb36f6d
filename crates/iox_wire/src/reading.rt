//! What the nodes of a wire read, which calls they have under way, and when they died.
ghost use Rattle.std.specs.Prelude.{◌≡◌, IfSome, None, Some, option_and_then, option_map};
ghost use Rattle.iox_wire.specs.Replies.{under_way_of};
ghost use Rattle.iox_wire_weaves.specs.Wires.{node_at, read_of};

use crate::finished::CallUnderWay;
use crate::wire::Wire;

impl Wire {
    /// The words of the last read of the node of that number that is over, if there is such a node.
    /// They stay until its next read is over, and where it dies.
    pub fn words_read(&self, node: u64) -> Option<&[u64]>
        ensures read { IfSome result (λ words. Some words.now ≡ read_of self.now.nodes node) }
        ensures unknown { result ≡ None → node_at node self.now.nodes ≡ None }
    {
        match self.place(node) {
            Some(place) => Some(self.members[place].words_read()),
            None => None,
        }
    }

    /// The call that the node of that number has under way, or had as it died, if there is one.
    pub fn under_way(&self, node: u64) -> Option<CallUnderWay<'_>>
        ensures { option_map under_way_of result
            ≡ option_and_then (λ x. x.call) (node_at node self.now.nodes) }
    {
        match self.place(node) {
            Some(place) => self.members[place].under_way(),
            None => None,
        }
    }

    /// How many events came before the death of the node of that number, if it died.
    pub fn died_after(&self, node: u64) -> Option<usize>
        ensures { result ≡ option_and_then (λ x. x.died) (node_at node self.now.nodes) }
    {
        match self.place(node) {
            Some(place) => self.members[place].died(),
            None => None,
        }
    }
}
