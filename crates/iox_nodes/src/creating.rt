//! A service is made.
ghost use Rattle.std.specs.Prelude.{◌≡◌, IfOk, IsSome, false, true};
ghost use Rattle.iox_types.specs.Identifiers.{is_node_id};
ghost use Rattle.iox_port_commands.specs.HandlerWords.{action_in};
ghost use Rattle.iox_model.specs.Runs.{created, is_too_large};
ghost use Rattle.iox_model.specs.Settings.{Shape};
ghost use Rattle.iox_port_commands.specs.Settings.{settings_of};
ghost use Rattle.iox_port_commands.specs.Shapes.{HaveParts, shape_of};
ghost use Rattle.iox_nodes.specs.Shown.{limits_for, service_of};
ghost use Rattle.iox_nodes.specs.Served.{IsCreated};

use crate::service::Service;
use iox_members::Members;
use iox_model::reply::Refusal;
use iox_port_commands::{Backpressure, Hub, MessageShape, Settings};
use iox_store::Payload;
use iox_types::identifiers::{UniqueNodeId, UniqueSystemId};
use iox_words::Words;
use std::alloc::{AllocError, Global};

/// The most clients, servers or nodes of any service.
const MOST: u64 = (1 << 24) - 2;

/// Whether a limit is too large, whatever messages are made of.
fn is_too_large(settings: &Settings) -> bool
    ensures { (request response : Shape) → result
        ≡ is_too_large (limits_for (settings_of settings.now) request response) }
{
    settings.clients > MOST || (settings.servers > MOST || settings.nodes > MOST)
}

impl<Q: Payload, QH: Words, P: Payload, PH: Words, H: Backpressure> Service<Q, QH, P, PH, H> {
    /// The service of that number, with its first node, which has number 0 and that id. `asked` is
    /// the first of the creator's tests by types that fails, if one does. A limit of 0 is raised to
    /// 1, but for those of what is kept of ports that are gone.
    ///
    /// It is refused as `InvalidNodeId`, by what is asked, as `LimitTooLarge`, and as
    /// `WantOfMemory`, in this order.
    pub fn new<C: Copy>(
        alloc: Global,
        service: u64,
        settings: Settings,
        id: UniqueSystemId,
        asked: Option<Refusal<C>>,
        request: MessageShape<Q::Element, QH>,
        response: MessageShape<P::Element, PH>,
    ) -> Result<Self, Refusal<C>>
        requires request { HaveParts request }
        requires response { HaveParts response }
        requires request_default { IsSome request.default }
        requires response_default { IsSome response.default }
        ensures { IsCreated (limits_for (settings_of settings)
            (shape_of Q.MANY Q.Element.WORDS Q.Element.words QH.words request)
            (shape_of P.MANY P.Element.WORDS P.Element.words PH.words response)) id asked result }
    {
        let Ok(own) = UniqueNodeId::new(id) else {
            return Err(Refusal::InvalidNodeId);
        };
        if let Some(refusal) = asked {
            return Err(refusal);
        }
        if is_too_large(&settings) {
            return Err(Refusal::LimitTooLarge);
        }
        match Self::first(alloc, service, settings, own, request, response) {
            Ok(service) => Ok(service),
            Err(_) => Err(Refusal::WantOfMemory),
        }
    }

    /// The same, where nothing is against it.
    fn first(
        alloc: Global,
        service: u64,
        settings: Settings,
        id: UniqueNodeId,
        request: MessageShape<Q::Element, QH>,
        response: MessageShape<P::Element, PH>,
    ) -> Result<Self, AllocError>
        requires request { HaveParts request }
        requires response { HaveParts response }
        requires request_default { IsSome request.default }
        requires response_default { IsSome response.default }
        requires valid { is_node_id id ≡ true }
        requires small { (request response : Shape)
            → is_too_large (limits_for (settings_of settings) request response) ≡ false }
        ensures { IfOk result (λ service. service_of service
            ≡ created (limits_for (settings_of settings)
            (shape_of Q.MANY Q.Element.WORDS Q.Element.words QH.words request)
            (shape_of P.MANY P.Element.WORDS P.Element.words PH.words response)) action_in id) }
    {
        let hub = Hub::new(alloc, settings, request, response)?;
        hub.is_in_order();
        match Members::new(alloc, service, id, settings.nodes as usize) {
            Ok(members) => Ok(Service { members, hub }),
            Err(_) => Err(AllocError),
        }
    }
}
