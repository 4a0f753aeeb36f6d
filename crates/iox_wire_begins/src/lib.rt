//! How loans, sends and copies of a node of a wire begin: with the places that the map of
//! the wire tells, and what its terms tell of ports and messages.
#![tactic(auto)]

mod copying;
mod elements;
mod lending;
mod lists;
mod sending;
mod told;

pub use copying::{begin_request_copy, begin_response_copy};
pub use elements::elements_of;
pub use iox_wire_handle_calls::{
    Asked, BeginError, Borrowed, CopyReply, CopyingClient, CopyingServer, Counts, Desks, Entries,
    Entry, LendReply, Lending, MessagePlaces, PlanLimits, PlanPort, Popper, Pusher, ReceiveReply,
    Receiving, RequestReply, Requesting, RespondReply, Responding, ResponseCopyReply, SeatReply,
    Source, Stop, StoredDesk, StoredSeat, Target, WayIndex, WirePlan, WordMap, WordMapNewError,
    begin_has_hint, begin_has_response, begin_is_connected, begin_read, begin_release,
    begin_request_receive, begin_response_receive, begin_set_hint, begin_write, client_place,
    is_plan, list_waiting_requests, name_port, named, server_place,
};
pub use iox_wire_lenders::WireTerms;
pub use lending::{begin_request_loan, begin_response_loan};
pub use lists::Lists;
pub use sending::{begin_request_send, begin_response_send};
pub use told::{request_terms, response_terms};
