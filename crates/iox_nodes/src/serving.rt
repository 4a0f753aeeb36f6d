//! Commands one after another, and what they are answered.
ghost use Rattle.std.specs.Prelude.{◌≡◌, ◌+◌, ◌-◌, ◌<◌, ◌≤◌, IfOk, OnErr, OnOk, true};
ghost use Rattle.std.specs.Prelude.{vec_capacity, vec_len};
ghost use Rattle.iox_model.specs.declared.reply.Reply.TheVariants as replies;
ghost use Rattle.iox_nodes.specs.Given.{is_listing, reply_to};
ghost use Rattle.iox_nodes.specs.Memory.{IsAnsweredWithMemory, MayFindNoMemory, WantsRightly};
ghost use Rattle.iox_nodes.specs.Memory.{WantsToGrowFor, refusal_for_want};
ghost use Rattle.iox_port_commands.specs.HandlerWords.{shown_by};
ghost use Rattle.iox_nodes.specs.Served.{IsAnswered, IsListingAt, IsRunOf};
ghost use Rattle.iox_nodes.specs.Shown.{service_of};

use crate::asks::{is_making, want_of};
use crate::service::Service;
use iox_model::command::Command;
use iox_model::reply::{Refusal, Reply};
use iox_port_commands::{Backpressure, Elements};
use iox_store::Payload;
use iox_words::Words;
use std::alloc::{AllocError, Global};

/// The reply to a join.
#[inline(always)]
fn joined<L, C>(answer: Result<u64, Refusal<C>>) -> Reply<L, C>
    ensures { result ≡ reply_to replies.Node answer }
{
    match answer {
        Ok(number) => Reply::Node(number),
        Err(refusal) => Reply::Refused(refusal),
    }
}

/// The reply to what has nothing to tell.
fn done<L, C>(answer: Result<(), Refusal<C>>) -> Reply<L, C>
    ensures { result ≡ reply_to (λ x. replies.Done) answer }
{
    match answer {
        Ok(()) => Reply::Done,
        Err(refusal) => Reply::Refused(refusal),
    }
}

/// How a command is refused where there is no memory for it. A listing is not refused.
fn refusal_for_want<P, H, V, C>(command: &Command<P, H, V>) -> Option<Refusal<C>>
    ensures { result ≡ refusal_for_want command.now }
{
    match command {
        Command::ListNodes | Command::ListClients | Command::ListServers => None,
        Command::Port(command) => Some(want_of(is_making(command))),
        _ => Some(Refusal::WantOfMemory),
    }
}

impl<Q: Payload, QH: Words, P: Payload, PH: Words, H: Backpressure> Service<Q, QH, P, PH, H> {
    /// Answers a command, where there is memory for it. Its replies are those of the machine with
    /// memory. It fails only where there is none for a join, for a port, for what is read, for a
    /// message that must grow or for a listing, and changes nothing then.
    ///
    /// For a port that is too large, a service never has memory. Nor has it for a join once
    /// 2^64 - 1 nodes joined, or where what is asked says `WantOfMemory` itself.
    #[inline(always)]
    pub fn try_serve<C: Copy>(
        &mut self,
        alloc: Global,
        command: Command<Elements<Q::Element, P::Element>, H, Option<Refusal<C>>>,
    ) -> Result<Reply<Vec<u64>, C>, AllocError>
        ensures answered { IfOk result (λ reply. IsAnsweredWithMemory Q.Element.words
            P.Element.words (shown_by H.action) (service_of self.old) command reply
            (service_of self.new)) }
        ensures wanting { OnErr result (MayFindNoMemory Q.Element.words P.Element.words
            (shown_by H.action) (service_of self.old) command) }
        ensures unchanged { OnErr result (self.new ≡ self.old) }
    {
        match command {
            Command::Join { id, asked } => Ok(joined(self.try_join(id, asked)?)),
            Command::Port(command) => self.try_port(alloc, command),
            Command::Leave { node } => Ok(done(self.leave(node))),
            Command::DeclareDead { node } => Ok(done(self.declare_dead(node))),
            Command::Cleanup { node } => Ok(done(self.cleanup(node))),
            Command::ListNodes => Ok(Reply::Listed(self.list_nodes(alloc)?)),
            Command::ListClients => Ok(Reply::Listed(self.list_clients(alloc)?)),
            Command::ListServers => Ok(Reply::Listed(self.list_servers(alloc)?)),
        }
    }

    /// Answers a command. It fails only for want of memory for a listing, and changes nothing then.
    /// Want of memory for a join, for a port, for a read and for a message that must grow is a
    /// reply, as the machine has it; no other command is told so.
    pub fn serve<C: Copy>(
        &mut self,
        alloc: Global,
        command: Command<Elements<Q::Element, P::Element>, H, Option<Refusal<C>>>,
    ) -> Result<Reply<Vec<u64>, C>, AllocError>
        ensures answered { IfOk result (λ reply. IsAnswered Q.Element.words P.Element.words
            (shown_by H.action) (service_of self.old) command reply (service_of self.new)) }
        ensures want { IfOk result (λ reply. WantsRightly command reply) }
        ensures grows { IfOk result (λ reply. WantsToGrowFor Q.Element.words P.Element.words
            (shown_by H.action) (service_of self.old) command reply) }
        ensures unchanged { OnErr result (self.new ≡ self.old) }
        ensures listing { OnErr result (is_listing command ≡ true) }
    {
        match command {
            Command::Port(command) => Ok(self.port(alloc, command)),
            command => self.serve_other(alloc, command),
        }
    }

    /// The same of any command, at a greater cost for one of a port or a handle.
    fn serve_other<C: Copy>(
        &mut self,
        alloc: Global,
        command: Command<Elements<Q::Element, P::Element>, H, Option<Refusal<C>>>,
    ) -> Result<Reply<Vec<u64>, C>, AllocError>
        ensures answered { IfOk result (λ reply. IsAnswered Q.Element.words P.Element.words
            (shown_by H.action) (service_of self.old) command reply (service_of self.new)) }
        ensures want { IfOk result (λ reply. WantsRightly command reply) }
        ensures grows { IfOk result (λ reply. WantsToGrowFor Q.Element.words P.Element.words
            (shown_by H.action) (service_of self.old) command reply) }
        ensures unchanged { OnErr result (self.new ≡ self.old) }
        ensures listing { OnErr result (is_listing command ≡ true) }
    {
        let want = refusal_for_want(&command);
        match self.try_serve(alloc, command) {
            Ok(reply) => Ok(reply),
            Err(error) => match want {
                Some(refusal) => Ok(Reply::Refused(refusal)),
                None => Err(error),
            },
        }
    }

    /// Answers commands one after another, and puts each reply behind the others. It ends before
    /// the command whose reply finds no room, and before a listing for which there is no memory;
    /// what was answered until then stays. So where there is room for one reply more, the command
    /// before which it ends is a listing.
    pub fn run<C: Copy>(
        &mut self,
        alloc: Global,
        commands: Vec<Command<Elements<Q::Element, P::Element>, H, Option<Refusal<C>>>>,
        replies: &mut Vec<Reply<Vec<u64>, C>>,
    ) -> Result<(), AllocError>
        ensures ran { IsRunOf Q.Element.words P.Element.words (shown_by H.action)
            (service_of self.old) commands.items replies.old.items replies.new.items
            (service_of self.new) }
        ensures whole { OnOk result (vec_len replies.new ≡ vec_len replies.old + vec_len commands) }
        ensures short { OnErr result
            (vec_len replies.new < vec_len replies.old + vec_len commands) }
        ensures listing { OnErr result (vec_len replies.new < vec_capacity replies.new
            → IsListingAt commands.items (vec_len replies.new - vec_len replies.old)) }
        ensures capacity { vec_capacity replies.old ≤ vec_capacity replies.new }
    {
        for command in commands {
            replies.reserve(1)?;
            let reply = self.serve(alloc, command)?;
            replies.push_reserved(reply);
        }
        Ok(())
    }
}
