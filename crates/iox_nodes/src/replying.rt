//! What a hub answers, as its service answers it.
ghost use Rattle.std.specs.Prelude.{◌≡◌};
ghost use Rattle.iox_nodes.specs.Given.{reply_of};

use iox_model::reply::{PortReply, Reply};

/// The same reply.
#[inline(always)]
pub(crate) fn reply_of<L, C>(reply: PortReply<L, C>) -> Reply<L, C>
    ensures { result ≡ reply_of reply }
{
    match reply {
        PortReply::Client(number) => Reply::Client(number),
        PortReply::Server(number) => Reply::Server(number),
        PortReply::Handle(number) => Reply::Handle(number),
        PortReply::Sent(count) => Reply::Sent(count),
        PortReply::Done => Reply::Done,
        PortReply::Nothing => Reply::Nothing,
        PortReply::Words(words) => Reply::Words(words),
        PortReply::Answer(told) => Reply::Answer(told),
        PortReply::Refused(refusal) => Reply::Refused(refusal),
    }
}
