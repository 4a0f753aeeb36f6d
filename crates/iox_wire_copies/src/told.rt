//! What a copy answers, by what its send does.
ghost use Rattle.std.specs.Prelude.{◌≡◌, true};
ghost use Rattle.iox_wire_request_sends.specs.Aims.{IsToldBy};
ghost use Rattle.iox_wire_request_sends.specs.RequestDispatches as requests;
ghost use Rattle.iox_wire_sends.specs.Dispatches as responses;
ghost use Rattle.iox_wire_copies.specs.CopyCalls as request_copies;
ghost use Rattle.iox_wire_copies.specs.ResponseCopies as response_copies;

use crate::at::{CopyReply, ResponseCopyReply};
use iox_wire_locals::CallRefusal;
use iox_wire_request_sends::RequestReply;
use iox_wire_sends::RespondReply;

/// What the copy of a request answers where its send answers that. It is told as the send of what
/// the same call lent.
pub(crate) fn request_sent(reply: RequestReply) -> CopyReply
    requires { IsToldBy true reply }
    ensures { request_copies.reply_in result ≡ requests.reply_in reply }
{
    match reply {
        RequestReply::Sent(_) => unreachable!(),
        RequestReply::Handle(number) => CopyReply::Handle(number),
        RequestReply::ExceedsMaxActiveRequests => {
            CopyReply::Refused(CallRefusal::ExceedsMaxActiveRequests)
        }
        RequestReply::UnableToDeliver => CopyReply::Refused(CallRefusal::UnableToDeliver),
    }
}

/// And what that of a response does.
pub(crate) fn response_sent(reply: RespondReply) -> ResponseCopyReply
    ensures { response_copies.reply_in result ≡ responses.reply_in reply }
{
    match reply {
        RespondReply::Done => ResponseCopyReply::Done,
        RespondReply::UnableToDeliver => ResponseCopyReply::Refused(CallRefusal::UnableToDeliver),
    }
}
