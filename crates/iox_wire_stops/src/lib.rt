//! Where the words of the ways stand that a call of a node visits: the request states at which a
//! handle looks, the queues in which its messages wait, and those in which responses return.
#![tactic(auto)]

mod lane_returns;
mod states;
mod waiting;

pub use iox_wire_releases::{begin_release, client_place, place_of, server_place};
pub use iox_wire_ways::{
    Borrowed, CopyReply, CopyingClient, CopyingServer, Counts, Desks, Entries, Entry, LendReply,
    Lending, MessagePlaces, PlanLimits, PlanPort, Popper, Pusher, ReceiveReply, Receiving,
    RequestReply, RequestTerms, Requesting, RespondReply, Responding, ResponseCopyReply,
    ResponseTerms, SeatReply, Source, Stop, StoredDesk, StoredSeat, Target, WayIndex, WirePlan,
    WordMap, WordMapNewError, begin_request_receive, begin_response_receive, is_plan,
    list_request_returns, list_targets, payload_places, terms_of_response,
};
pub use lane_returns::list_response_returns;
pub use states::list_states_of;
pub use waiting::{list_waiting_requests, list_waiting_responses};
