//! What a service answers, as replies to a script.
ghost use Rattle.std.specs.Prelude.{◌≡◌};
ghost use Rattle.iox_nodes.specs.Given as nodes;
ghost use Rattle.iox_session.specs.Answers.{no_cause, reply_given};
ghost use Rattle.iox_session.specs.Shown.{IsTold};

use iox_model::reply::{Refusal, Reply};
use iox_script::{Payload, ServiceReply};
use std::alloc::AllocError;
use std::convert::Infallible;

/// The same reply.
#[inline(always)]
fn reply_of(reply: Reply<Vec<u64>, Infallible>) -> ServiceReply
    ensures { nodes.reply_given no_cause reply ≡ reply_given result }
{
    match reply {
        Reply::Node(number) => Reply::Node(number),
        Reply::Client(number) => Reply::Client(number),
        Reply::Server(number) => Reply::Server(number),
        Reply::Handle(number) => Reply::Handle(number),
        Reply::Sent(count) => Reply::Sent(count),
        Reply::Done => Reply::Done,
        Reply::Nothing => Reply::Nothing,
        Reply::Words(words) => Reply::Words(Payload::new(words)),
        Reply::Answer(told) => Reply::Answer(told),
        Reply::Listed(numbers) => Reply::Listed(Payload::new(numbers)),
        Reply::Refused(refusal) => Reply::Refused(refusal),
    }
}

/// The reply, or that a port is too large, for which a service never has memory.
#[inline(always)]
pub(crate) fn told(
    answer: Result<Reply<Vec<u64>, Infallible>, AllocError>,
    large: bool,
) -> Result<ServiceReply, AllocError>
    ensures { IsTold answer large result }
{
    match answer {
        Ok(reply) => Ok(reply_of(reply)),
        Err(error) => {
            if !large {
                return Err(error);
            }
            Ok(Reply::Refused(Refusal::UnableToCreateDataSegment))
        }
    }
}
