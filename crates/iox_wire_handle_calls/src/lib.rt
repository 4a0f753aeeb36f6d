//! The calls of a node's handles that write or read a payload, ask or hint: begun by the handle's
//! number, and refused by name. The map tells where the words of writes and reads stand.
#![tactic(auto)]

mod asked;
mod asking;
mod error;
mod finding;
mod hinting;
mod naming;
mod places;
mod port_index;
mod port_naming;
mod reading;
mod seeking;
mod uses;
mod writing;

pub use asked::Asked;
pub use asking::{begin_has_hint, begin_is_connected};
pub use error::BeginError;
pub use finding::find_port;
pub use hinting::begin_set_hint;
pub use iox_wire_stops::{
    Borrowed, CopyReply, CopyingClient, CopyingServer, Counts, Desks, Entries, Entry, LendReply,
    Lending, MessagePlaces, PlanLimits, PlanPort, Popper, Pusher, ReceiveReply, Receiving,
    RequestReply, RequestTerms, Requesting, RespondReply, Responding, ResponseCopyReply,
    ResponseTerms, SeatReply, Source, Stop, StoredDesk, StoredSeat, Target, WayIndex, WirePlan,
    WordMap, WordMapNewError, begin_release, begin_request_receive, begin_response_receive,
    client_place, is_plan, list_request_returns, list_response_returns, list_targets,
    list_waiting_requests, payload_places, server_place, terms_of_response,
};
pub use naming::named;
pub use port_naming::name_port;
pub use reading::begin_read;
pub use seeking::begin_has_response;
pub use writing::begin_write;
