//! The ways that a call of a node of a wire visits, and where their words stand, as the map of the
//! wire tells them.
#![tactic(auto)]

mod receives;
mod response_terms;
mod responses;
mod returns;
mod slots;
mod sources;
mod targets;

pub use iox_wire_copies::{
    CopyReply, CopyingClient, CopyingServer, LendReply, Lender, Lending, RequestReply,
    RequestTerms, Requesting, RespondReply, Responding, ResponseCopyReply, ResponseTerms, Target,
};
pub use iox_wire_messages::{
    Borrowed, Counts, Desks, Entries, Entry, MessagePlaces, PlanLimits, PlanPort, Popper, Pusher,
    SeatReply, Stop, StoredDesk, StoredSeat, WayIndex, WirePlan, WordMap, WordMapNewError, is_plan,
};
pub use iox_wire_receives::{ReceiveReply, ReceiveTerms, Receiving, Source};
pub use receives::{begin_request_receive, begin_response_receive};
pub use response_terms::terms_of_response;
pub use responses::list_response_sources;
pub use returns::list_request_returns;
pub use slots::{payload_places, slot_places};
pub use sources::list_request_sources;
pub use targets::list_targets;
