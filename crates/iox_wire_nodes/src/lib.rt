//! A node of a wire with whatever call is under way: what it keeps, how it begins a call of a
//! handle, the access that it makes next, and how it continues after that.
#![tactic(auto)]

mod call_at;
mod handle_call;
mod laws;
mod node;
mod node_call;
mod node_error;

pub use call_at::{CallAt, NodeReply};
pub use handle_call::HandleCall;
pub use iox_wire_begins::{
    Asked, BeginError, Borrowed, CopyReply, Counts, Desks, Entries, Entry, LendReply, Lists,
    MessagePlaces, PlanLimits, PlanPort, Popper, Pusher, ReceiveReply, Receiving, RequestReply,
    RespondReply, ResponseCopyReply, SeatReply, Stop, StoredDesk, StoredSeat, WayIndex, WirePlan,
    WireTerms, WordMap, WordMapNewError, begin_request_receive, is_plan,
};
pub use laws::{begins_keep_ports, nodes_with_as_much_room_begin, steps_keep_ports};
pub use node::StoredNode;
pub use node_call::{NodeCall, NodePayload};
pub use node_error::NodeError;
