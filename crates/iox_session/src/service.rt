//! The service of a session.
ghost use Rattle.std.specs.Prelude.{◌≡◌, IfOk, None, OnErr};
ghost use Rattle.iox_nodes.specs.Served.{IsCreated};
ghost use Rattle.iox_session.specs.Limits.{limits_with};
ghost use Rattle.iox_session.specs.Sessions.{CanBeAsked, ServiceAnswers, WantsMemory};
ghost use Rattle.iox_session.specs.Shown.{script_state};

use crate::asking::{Words, asked, makes_large};
use crate::replies::told;
use crate::settings::{REQUEST_HEADER, RESPONSE_HEADER, settings, words};
use iox_script::{ServiceCommand, ServiceRefusal, ServiceReply};
use iox_types::identifiers::UniqueSystemId;
use std::alloc::{AllocError, Global};
use std::marker::Model;

/// The number of the service: a session has only one.
const NUMBER: u64 = 0;

/// A service of words, with the limits of scripts.
#[derive(Drop)]
pub(crate) struct Service {
    nodes: Words,
}

impl Model for Service {
    ghost use Rattle.iox_nodes.specs.Shown.{ServiceTables, service_of};
    ghost use Rattle.iox_session.specs.Shown.{IsOfScript};

    ghost Value = { ServiceTables };

    ghost view = { λ s. s.nodes };

    ghost invariant = { λ s. IsOfScript (service_of s.nodes) };
}

impl Service {
    /// The service with its first node, or why there is none.
    pub(crate) fn new(
        alloc: Global,
        id: UniqueSystemId,
        request_overflow: bool,
        response_overflow: bool,
    ) -> Result<Service, ServiceRefusal>
        ensures { IsCreated (limits_with request_overflow response_overflow) id None result }
    {
        let settings = settings(request_overflow, response_overflow);
        let request = words(REQUEST_HEADER);
        let response = words(RESPONSE_HEADER);
        match Words::new(alloc, NUMBER, settings, id, None, request, response) {
            Ok(nodes) => Ok(Service { nodes }),
            Err(refusal) => Err(refusal),
        }
    }

    /// Answers a command. Where there is no memory, all stays.
    #[inline(always)]
    pub(crate) fn serve(
        &mut self,
        alloc: Global,
        command: ServiceCommand,
    ) -> Result<ServiceReply, AllocError>
        requires asked { CanBeAsked command }
        ensures served { IfOk result (λ answer. ServiceAnswers (script_state self.old) command
            answer (script_state self.new)) }
        ensures unchanged { OnErr result (self.new ≡ self.old) }
        ensures memory { OnErr result (WantsMemory command) }
    {
        let large = makes_large(&command);
        let asked = asked(&self.nodes, command);
        told(self.nodes.try_serve(alloc, asked), large)
    }
}
