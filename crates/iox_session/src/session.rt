//! A session of commands.
ghost use Rattle.std.specs.Prelude.{◌≡◌, IfOk, OnErr};
ghost use Rattle.iox_nodes.specs.Memory.{is_wanting};

use crate::names::name_refusal;
use crate::service::Service;
use iox_model::reply::Reply;
use iox_script::{Key, ScriptCommand, ScriptRefusal, ScriptReply, ServiceRefusal, Text};
use iox_types::identifiers::UniqueSystemId;
use std::alloc::{AllocError, Global};
use std::marker::Model;

/// Whether memory was wanted for a service.
fn is_wanting(made: &Result<Service, ServiceRefusal>) -> bool
    ensures { result ≡ is_wanting made.now }
{
    matches!(made, Err(ServiceRefusal::WantOfMemory))
}

/// One session of commands: two settings, and once it is created the service.
#[derive(Drop)]
pub struct Session {
    request_overflow: bool,
    response_overflow: bool,
    service: Option<Service>,
}

impl Model for Session {
    ghost use Rattle.iox_session.specs.Shown.{SessionTables};

    ghost Value = { SessionTables };

    ghost view = { λ s. record {
      request_overflow = s.request_overflow;
      response_overflow = s.response_overflow;
      service = s.service;
    } };
}

impl Session {
    ghost use Rattle.iox_script.specs.declared.command.ScriptCommand.TheVariants.{Create};
    ghost use Rattle.iox_session.specs.SessionStates.{new_session};
    ghost use Rattle.iox_session.specs.Shown.{session_of};
    ghost use Rattle.iox_session.specs.Sessions.{IsPlayed, IsPlayedBy, IsSaid, MayFail, with_setting};
    ghost use Rattle.std.specs.Prelude.{None};

    /// The session before its first command.
    pub fn new() -> Session
        ensures { session_of result ≡ new_session }
    {
        Session {
            request_overflow: true,
            response_overflow: true,
            service: None,
        }
    }

    /// Plays a command. A command that is refused, or that finds no memory, changes nothing.
    #[inline(always)]
    pub fn play(&mut self, alloc: Global, command: ScriptCommand) -> Result<ScriptReply, AllocError>
        requires said { IsSaid command }
        ensures played { IfOk result (λ reply.
            IsPlayed (session_of self.old) command reply (session_of self.new)) }
        ensures unchanged { OnErr result (self.new ≡ self.old) }
        ensures memory { OnErr result (MayFail command) }
    {
        match &mut self.service {
            Some(service) => match command {
                ScriptCommand::Service(command) => {
                    Ok(ScriptReply::Service(service.serve(alloc, command)?))
                }
                _ => Ok(ScriptReply::Refused(ScriptRefusal::ServiceExists)),
            },
            None => self.prepare(alloc, command),
        }
    }

    /// Plays a command before the service is created. It is a call of its own, so that no other
    /// command makes room for a service.
    #[cold]
    #[inline(never)]
    fn prepare(&mut self, alloc: Global, command: ScriptCommand) -> Result<ScriptReply, AllocError>
        requires none { self.old.service ≡ None }
        ensures played { IfOk result (λ reply.
            IsPlayedBy None (session_of self.old) command reply (session_of self.new)) }
        ensures unchanged { OnErr result (self.new ≡ self.old) }
        ensures memory { OnErr result (MayFail command) }
    {
        match command {
            ScriptCommand::Set { key, value } => {
                self.set(key, value);
                Ok(ScriptReply::Service(Reply::Done))
            }
            ScriptCommand::Create { name, id } => self.create(alloc, name, id),
            ScriptCommand::Service(_) => Ok(ScriptReply::Refused(ScriptRefusal::NoService)),
        }
    }

    /// Changes a setting: 0 is off.
    fn set(&mut self, key: Key, value: u64)
        ensures { session_of self.new ≡ with_setting (session_of self.old) key value }
    {
        match key {
            Key::RequestOverflow => self.request_overflow = value > 0,
            Key::ResponseOverflow => self.response_overflow = value > 0,
        }
    }

    /// Creates the service, with its first node.
    fn create(
        &mut self,
        alloc: Global,
        name: Text,
        id: UniqueSystemId,
    ) -> Result<ScriptReply, AllocError>
        requires none { self.old.service ≡ None }
        ensures played { IfOk result (λ reply.
            IsPlayedBy None (session_of self.old) (Create name id) reply (session_of self.new)) }
        ensures unchanged { OnErr result (self.new ≡ self.old) }
    {
        if let Some(refusal) = name_refusal(name.as_bytes()) {
            return Ok(ScriptReply::Refused(refusal));
        }
        let made = Service::new(alloc, id, self.request_overflow, self.response_overflow);
        if is_wanting(&made) {
            return Err(AllocError);
        }
        match made {
            Ok(service) => {
                self.service = Some(service);
                Ok(ScriptReply::Service(Reply::Node(0)))
            }
            Err(refusal) => Ok(ScriptReply::Service(Reply::Refused(refusal))),
        }
    }
}
