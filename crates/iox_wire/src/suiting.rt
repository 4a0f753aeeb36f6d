//! Whether the messages of a plan suit a wire.
ghost use Rattle.std.specs.Prelude.{◌≡◌, nat_lt};
ghost use Rattle.iox_wire.specs.NewRefusals.{has_wrong_header, is_unsuitable, message_refusal};

use crate::new_error::WireNewError;
use iox_model::kind::Role;
use iox_types::{MessageTypeDetails, TypeDetail};
use iox_wire_weaves::WirePlan;

/// The bytes of a request's header.
const REQUEST_HEADER: usize = 56;

/// And of a response's.
const RESPONSE_HEADER: usize = 48;

/// Whether the messages of that role have a header of another size.
fn has_wrong_header(plan: &WirePlan, role: Role) -> bool
    ensures { result ≡ has_wrong_header plan.now role }
{
    let size = plan.details(role).header.size();
    match role {
        Role::Client => size != REQUEST_HEADER,
        Role::Server => size != RESPONSE_HEADER,
    }
}

/// Whether a part is aligned to less than a word.
fn is_loose(part: &TypeDetail) -> bool
    ensures { result ≡ nat_lt part.now.alignment 8 }
{
    part.alignment() < 8
}

/// Whether a part of such messages is aligned to less than a word.
fn is_unsuitable(details: &MessageTypeDetails) -> bool
    ensures { result ≡ is_unsuitable details.now }
{
    is_loose(&details.header) || is_loose(&details.user_header) || is_loose(&details.payload)
}

/// Why messages do not suit a wire: a header has another size than the wire's own, or a part is
/// aligned to less than a word. The first that applies is told.
pub(crate) fn message_refusal(plan: &WirePlan) -> Option<WireNewError>
    ensures { result ≡ message_refusal plan.now }
{
    if has_wrong_header(plan, Role::Client) || has_wrong_header(plan, Role::Server) {
        return Some(WireNewError::WrongHeader);
    }
    if is_unsuitable(&plan.request) || is_unsuitable(&plan.response) {
        return Some(WireNewError::UnsuitableAlignment);
    }
    None
}
