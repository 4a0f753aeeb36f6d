//! Commands as methods of a hub.
ghost use Rattle.std.specs.Prelude.{◌≡◌, ◌||◌, IfOk, OnErr, true};
ghost use Rattle.iox_hub.specs.Hubs.{HubState};
ghost use Rattle.iox_hub.specs.Making.{StaysAs};
ghost use Rattle.iox_hub.specs.Keeping.{HaveSameShapes};
ghost use Rattle.iox_hub.specs.HandlerWords.{shown_by};
ghost use Rattle.iox_port_commands.specs.Applying.{GrowsIfLentFor, HadMemoryFor, HaveDefaults};
ghost use Rattle.iox_port_commands.specs.Applying.{IsApplied, LacksMemoryFor};
ghost use Rattle.iox_port_commands.specs.Asking.{is_making, takes_memory};
ghost use Rattle.iox_port_commands.specs.Telling.{tells_want, wants_memory, wants_segment};

use crate::applying::{apply, try_apply};
use crate::elements::Elements;
use iox_hub::{Backpressure, Hub};
use iox_model::command::PortCommand;
use iox_model::reply::PortReply;
use iox_store::Payload;
use iox_words::Words;
use std::alloc::{AllocError, Global};

/// To what commands can be applied: each method is the function of its name.
pub trait ApplyCommand {
    /// An element of a request.
    type Request: Words;

    /// An element of a response.
    type Response: Words;

    /// A handler of a port.
    type Handler: Backpressure;

    /// What it shows of its hub.
    ghost shown: { Self → HubState };

    /// Applies a command.
    fn apply<C>(
        &mut self,
        alloc: Global,
        command: PortCommand<Elements<Self::Request, Self::Response>, Self::Handler>,
    ) -> PortReply<Vec<u64>, C>
        requires { HaveDefaults (shown self.old) }
        ensures whole { IsApplied Self.Request.words Self.Response.words
            (shown_by Self.Handler.action) (shown self.old) command result (shown self.new) }
        ensures memory { wants_memory result ≡ true → takes_memory command ≡ true }
        ensures grows { wants_memory result ≡ true → GrowsIfLentFor Self.Request.words
            Self.Response.words (shown_by Self.Handler.action) (shown self.old) command }
        ensures segment { wants_segment result ≡ true → is_making command ≡ true }
        ensures unchanged { tells_want result ≡ true → StaysAs (shown self.old) (shown self.new) }
        ensures shapes { HaveSameShapes (shown self.old) (shown self.new) }
        ensures defaults { HaveDefaults (shown self.new) };

    /// Applies a command, where there is memory for it.
    fn try_apply<C>(
        &mut self,
        alloc: Global,
        command: PortCommand<Elements<Self::Request, Self::Response>, Self::Handler>,
    ) -> Result<PortReply<Vec<u64>, C>, AllocError>
        requires { HaveDefaults (shown self.old) }
        ensures whole { IfOk result (λ reply. IsApplied Self.Request.words Self.Response.words
            (shown_by Self.Handler.action) (shown self.old) command reply (shown self.new)) }
        ensures memory { IfOk result (λ reply. HadMemoryFor Self.Request.words Self.Response.words
            (shown_by Self.Handler.action) (shown self.old) command reply) }
        ensures wanting { OnErr result (LacksMemoryFor Self.Request.words Self.Response.words
            (shown_by Self.Handler.action) (shown self.old) command (shown self.new)) }
        ensures takes { OnErr result ((is_making command || takes_memory command) ≡ true) }
        ensures grows { OnErr result (GrowsIfLentFor Self.Request.words Self.Response.words
            (shown_by Self.Handler.action) (shown self.old) command) }
        ensures unchanged { OnErr result (StaysAs (shown self.old) (shown self.new)) }
        ensures shapes { HaveSameShapes (shown self.old) (shown self.new) }
        ensures defaults { HaveDefaults (shown self.new) };
}

impl<Q: Payload, QH: Words, P: Payload, PH: Words, H: Backpressure> ApplyCommand
    for Hub<Q, QH, P, PH, H> {
    type Request = Q::Element;

    type Response = P::Element;

    type Handler = H;

    ghost shown = { λ h. h };

    #[inline]
    fn apply<C>(
        &mut self,
        alloc: Global,
        command: PortCommand<Elements<Q::Element, P::Element>, H>,
    ) -> PortReply<Vec<u64>, C>
        requires { HaveDefaults self.old }
        ensures whole { IsApplied Q.Element.words P.Element.words (shown_by H.action) self.old
            command result self.new }
        ensures memory { wants_memory result ≡ true → takes_memory command ≡ true }
        ensures grows { wants_memory result ≡ true → GrowsIfLentFor Q.Element.words P.Element.words
            (shown_by H.action) self.old command }
        ensures segment { wants_segment result ≡ true → is_making command ≡ true }
        ensures unchanged { tells_want result ≡ true → StaysAs self.old self.new }
        ensures shapes { HaveSameShapes self.old self.new }
        ensures defaults { HaveDefaults self.new }
    {
        apply(self, alloc, command)
    }

    #[inline]
    fn try_apply<C>(
        &mut self,
        alloc: Global,
        command: PortCommand<Elements<Q::Element, P::Element>, H>,
    ) -> Result<PortReply<Vec<u64>, C>, AllocError>
        requires { HaveDefaults self.old }
        ensures whole { IfOk result (λ reply. IsApplied Q.Element.words P.Element.words
            (shown_by H.action) self.old command reply self.new) }
        ensures memory { IfOk result (λ reply. HadMemoryFor Q.Element.words P.Element.words
            (shown_by H.action) self.old command reply) }
        ensures wanting { OnErr result (LacksMemoryFor Q.Element.words P.Element.words
            (shown_by H.action) self.old command self.new) }
        ensures takes { OnErr result ((is_making command || takes_memory command) ≡ true) }
        ensures grows { OnErr result (GrowsIfLentFor Q.Element.words P.Element.words
            (shown_by H.action) self.old command) }
        ensures unchanged { OnErr result (StaysAs self.old self.new) }
        ensures shapes { HaveSameShapes self.old self.new }
        ensures defaults { HaveDefaults self.new }
    {
        try_apply(self, alloc, command)
    }
}
