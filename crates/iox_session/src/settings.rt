//! The limits of a script's service, and what its messages are made of.
ghost use Rattle.std.specs.Prelude.{◌≡◌, ◌≤◌, ◌*◌, ◌^◌, ◌||◌, Bool, nat_le, not, true};
ghost use Rattle.iox_words.specs.Numbers.{no_word, one_word};
ghost use Rattle.iox_model.specs.Makings.{is_large};
ghost use Rattle.iox_model.specs.Settings.{has_layout, message_size};
ghost use Rattle.iox_model.specs.Defaults.{words};
ghost use Rattle.iox_nodes.specs.Settings.{settings_of};
ghost use Rattle.iox_nodes.specs.Shapes.{HaveParts, shape_of};
ghost use Rattle.iox_nodes.specs.Shown.{limits_for};
ghost use Rattle.iox_script.specs.Grammar.{options_of};
ghost use Rattle.iox_session.specs.Answers.{options_given};
ghost use Rattle.iox_session.specs.Limits.{limits_with};

use iox_model::kind::Role;
use iox_nodes::{MessageShape, Part, Settings};
use iox_types::{AllocationStrategy, BackpressureStrategy};

/// The most messages that a client needs: two on loan, four active, and at each of two servers
/// four that wait and four that were received.
const CLIENT_POOL: usize = 22;

/// The most messages that a server needs: two on loan for each of 32 active requests, and on each
/// lane of each of eight clients two that wait and two that were received.
const SERVER_POOL: usize = 768;

/// The words of a request's header, and of a response's.
pub(crate) const REQUEST_HEADER: usize = 7;

pub(crate) const RESPONSE_HEADER: usize = 6;

/// Messages of words, with a header of so many words.
pub(crate) fn words(header: usize) -> MessageShape<u64, ()>
    requires { header ≤ 7 }
    ensures shape { shape_of true 1 one_word no_word result ≡ words header }
    ensures parts { HaveParts result }
{
    MessageShape {
        default: Some(0),
        user_header: (),
        header_part: Part {
            size: 8 * header,
            alignment: 8,
        },
        user_part: Part {
            size: 0,
            alignment: 8,
        },
        element_part: Part {
            size: 8,
            alignment: 8,
        },
    }
}

/// The settings of a script's service.
pub(crate) fn settings(request_overflow: bool, response_overflow: bool) -> Settings
    ensures { limits_for (settings_of result) (words 7) (words 6)
        ≡ limits_with request_overflow response_overflow }
{
    Settings {
        clients: 8,
        servers: 2,
        nodes: 20,
        active_requests: 4,
        loaned_requests: 2,
        response_buffer: 2,
        borrowed_responses: 2,
        loaned_responses: 2,
        client_expired: 128,
        server_expired: 128,
        request_overflow,
        response_overflow,
        fire_and_forget: true,
        client_strategy: BackpressureStrategy::RetryUntilDelivered,
        server_strategy: BackpressureStrategy::RetryUntilDelivered,
        client_allocation: AllocationStrategy::Static,
        server_allocation: AllocationStrategy::Static,
    }
}

/// Whether a pool of so many messages is too large, each with a header of so many words, and with
/// so many words behind it.
fn is_large_pool(size: usize, header: usize, len: u64) -> bool
    requires size { size ≤ 768 }
    requires header { header ≤ 7 }
    ensures { result ≡ (not (has_layout (words header) len)
        || nat_le (2 ^ 64) (size * message_size (words header) len)) }
{
    let bytes = (8 * header as u128 + 7 + len as u128 * 8 + 7 + 7) / 8 * 8;
    bytes >= 1 << 63 || size as u128 * bytes >= 1 << 64
}

/// Whether a port of that role is too large, whose messages have at most so many words.
pub(crate) fn is_large(role: Role, len: u64) -> bool
    ensures { (requests responses : Bool) → result
        ≡ is_large (limits_with requests responses) role (options_given (options_of len)) }
{
    match role {
        Role::Client => is_large_pool(CLIENT_POOL, REQUEST_HEADER, len),
        Role::Server => is_large_pool(SERVER_POOL, RESPONSE_HEADER, len),
    }
}
