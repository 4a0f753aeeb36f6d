//! Commands one after another, and what they are answered.
ghost use Rattle.std.specs.Prelude.{◌≡◌, ◌+◌, ◌-◌, ◌<◌, ◌≤◌, List, IfOk, OnErr, OnOk, true};
ghost use Rattle.std.specs.Prelude.{vec_capacity, vec_len, ℕ};
ghost use Rattle.iox_openers.specs.Causes.{cause_of};
ghost use Rattle.iox_service_laws.specs.Given.{command_given, is_listing};
ghost use Rattle.iox_service_laws.specs.Memory.{WantsRightly};
ghost use Rattle.iox_service_laws.specs.Served.{IsListingAt};
ghost use Rattle.iox_service_laws.specs.HandlerWords.{shown_by};
ghost use Rattle.iceoryx2_wire.specs.Services.{service_of};
ghost use Rattle.iceoryx2_wire.specs.Serving.{IsAnswered, IsAnsweredWithMemory, IsGivenAs};
ghost use Rattle.iceoryx2_wire.specs.Serving.{IsRunOf, MayFindNoMemory, WantsToGrowFor};

use crate::opener::Opener;
use crate::service::Service;
use iox_attributes::AttributeVerificationError;
use iox_model::command::Command;
use iox_model::reply::{Refusal, Reply};
use iox_openers::ServiceDescription;
use iox_service_laws::{Backpressure, Elements};
use iox_store::Payload;
use iox_words::Words;
use std::alloc::{AllocError, Global};

/// The same command, with what the description asks of an opener in place of the opener.
fn compared<'a, Q, P, H>(
    description: &ServiceDescription,
    command: Command<Elements<Q, P>, H, &'a Opener>,
) -> Command<Elements<Q, P>, H, Option<Refusal<AttributeVerificationError<'a>>>>
    ensures given { (q : Q → List ℕ) (p : P → List ℕ) (words : H → List ℕ) →
        IsGivenAs q p words description.now command.entry
        (command_given q p words cause_of result) }
    ensures listing { is_listing result ≡ is_listing command.entry }
{
    match command {
        Command::Join { id, asked } => Command::Join {
            id,
            asked: description.opener_refusal(&asked.types, &asked.verifier),
        },
        Command::Port(command) => Command::Port(command),
        Command::Leave { node } => Command::Leave { node },
        Command::DeclareDead { node } => Command::DeclareDead { node },
        Command::Cleanup { node } => Command::Cleanup { node },
        Command::ListNodes => Command::ListNodes,
        Command::ListClients => Command::ListClients,
        Command::ListServers => Command::ListServers,
    }
}

impl<Q: Payload, QH: Words, P: Payload, PH: Words, H: Backpressure> Service<Q, QH, P, PH, H> {
    /// Answers a command, where there is memory for it. Its replies are those of the machine with
    /// memory. It fails only where there is none for a join, for a port, for what is read, for a
    /// message that must grow or for a listing, and changes nothing then.
    ///
    /// For a port that is too large, a service never has memory. Nor has it for a join once 2^64 -
    /// 1 nodes joined.
    pub fn try_serve<'a>(
        &mut self,
        alloc: Global,
        command: Command<Elements<Q::Element, P::Element>, H, &'a Opener>,
    ) -> Result<Reply<Vec<u64>, AttributeVerificationError<'a>>, AllocError>
        ensures answered { IfOk result (λ reply. IsAnsweredWithMemory Q.Element.words
            P.Element.words (shown_by H.action) self.old.description (service_of self.old)
            command.entry reply (service_of self.new)) }
        ensures wanting { OnErr result (MayFindNoMemory Q.Element.words P.Element.words
            (shown_by H.action) self.old.description (service_of self.old) command.entry) }
        ensures says { self.new.description ≡ self.old.description }
        ensures identity { self.new.identity ≡ self.old.identity }
        ensures unchanged { OnErr result (self.new ≡ self.old) }
    {
        let command = compared(&self.description, command);
        self.nodes.try_serve(alloc, command)
    }

    /// Answers a command. A node that opens the service is compared with what the service says of
    /// itself, as by `open`. It fails only for want of memory for a listing, and changes nothing
    /// then. Want of memory for a join, for a port, for a read and for a message that must grow
    /// is a reply, as the machine has it; no other command is told so.
    pub fn serve<'a>(
        &mut self,
        alloc: Global,
        command: Command<Elements<Q::Element, P::Element>, H, &'a Opener>,
    ) -> Result<Reply<Vec<u64>, AttributeVerificationError<'a>>, AllocError>
        ensures answered { IfOk result (λ reply. IsAnswered Q.Element.words P.Element.words
            (shown_by H.action) self.old.description (service_of self.old) command.entry reply
            (service_of self.new)) }
        ensures want { IfOk result (λ reply. WantsRightly command.entry reply) }
        ensures grows { IfOk result (λ reply. WantsToGrowFor Q.Element.words P.Element.words
            (shown_by H.action) self.old.description (service_of self.old) command.entry reply) }
        ensures says { self.new.description ≡ self.old.description }
        ensures identity { self.new.identity ≡ self.old.identity }
        ensures unchanged { OnErr result (self.new ≡ self.old) }
        ensures listing { OnErr result (is_listing command.entry ≡ true) }
    {
        match command {
            Command::Port(command) => Ok(self.port(alloc, command)),
            command => self.serve_compared(alloc, command),
        }
    }

    /// The same of any command, at a greater cost for one of a port or a handle.
    fn serve_compared<'a>(
        &mut self,
        alloc: Global,
        command: Command<Elements<Q::Element, P::Element>, H, &'a Opener>,
    ) -> Result<Reply<Vec<u64>, AttributeVerificationError<'a>>, AllocError>
        ensures answered { IfOk result (λ reply. IsAnswered Q.Element.words P.Element.words
            (shown_by H.action) self.old.description (service_of self.old) command.entry reply
            (service_of self.new)) }
        ensures want { IfOk result (λ reply. WantsRightly command.entry reply) }
        ensures grows { IfOk result (λ reply. WantsToGrowFor Q.Element.words P.Element.words
            (shown_by H.action) self.old.description (service_of self.old) command.entry reply) }
        ensures says { self.new.description ≡ self.old.description }
        ensures identity { self.new.identity ≡ self.old.identity }
        ensures unchanged { OnErr result (self.new ≡ self.old) }
        ensures listing { OnErr result (is_listing command.entry ≡ true) }
    {
        let command = compared(&self.description, command);
        self.nodes.serve(alloc, command)
    }

    /// Answers commands one after another, and puts each reply behind the others. It ends before
    /// the command whose reply finds no room, and before a listing for which there is no memory;
    /// what was answered until then stays. So where there is room for one reply more, the command
    /// before which it ends is a listing.
    pub fn run<'a>(
        &mut self,
        alloc: Global,
        commands: Vec<Command<Elements<Q::Element, P::Element>, H, &'a Opener>>,
        replies: &mut Vec<Reply<Vec<u64>, AttributeVerificationError<'a>>>,
    ) -> Result<(), AllocError>
        ensures ran { IsRunOf Q.Element.words P.Element.words (shown_by H.action)
            self.old.description (service_of self.old) commands.entry.items replies.old.items
            replies.new.items (service_of self.new) }
        ensures says { self.new.description ≡ self.old.description }
        ensures identity { self.new.identity ≡ self.old.identity }
        ensures whole { OnOk result
            (vec_len replies.new ≡ vec_len replies.old + vec_len commands.entry) }
        ensures short { OnErr result
            (vec_len replies.new < vec_len replies.old + vec_len commands.entry) }
        ensures listing { OnErr result (vec_len replies.new < vec_capacity replies.new
            → IsListingAt commands.entry.items (vec_len replies.new - vec_len replies.old)) }
        ensures capacity { vec_capacity replies.old ≤ vec_capacity replies.new }
    {
        for command in commands {
            replies.reserve(1)?;
            let reply = self.serve(alloc, command)?;
            replies.push_reserved(reply);
        }
        Ok(())
    }
}
