//! The making of servers.
ghost use Rattle.std.specs.Prelude.{◌≡◌, ◌≢◌, IfErr, IfOk, None, OnErr, Some};
ghost use Rattle.std.specs.Option.{option_map};
ghost use Rattle.iox_model.specs.declared.kind.Kind.TheVariants as kinds;
ghost use Rattle.iox_model.specs.declared.kind.Role.TheVariants as roles;
ghost use Rattle.iox_model.specs.Commands.{Create};
ghost use Rattle.iox_model.specs.Makings.{IsHubCommand};
ghost use Rattle.iox_tables.specs.HubStates.States.{Given};
ghost use Rattle.iox_hub_laws.specs.HandlerWords.{shown_by};
ghost use Rattle.iox_hub_laws.specs.Hubs.{HasValue, state_of_hub};
ghost use Rattle.iox_hub_laws.specs.Keeping.{HaveSameShapes, KeepsAll};
ghost use Rattle.iox_hub_laws.specs.Making.{LeavesMessages, StaysAs, options_with};
ghost use Rattle.iox_hub_laws.specs.Sends.{NothingComes};
ghost use Rattle.iox_hub_laws.specs.Waiting.{server_of};
ghost use Rattle.iceoryx2_ports.specs.Makings.{IsMadeAs, first_options, reply_of_server};
ghost use Rattle.iceoryx2_ports.specs.Keeping.{KeepsAsking};
ghost use Rattle.iceoryx2_ports.specs.Opens.{KeepsRequests};
ghost use Rattle.iceoryx2_ports.specs.Idling.{IsIdle};
ghost use Rattle.iceoryx2_ports.specs.Reaching.{KeepsRoom};
ghost use Rattle.iceoryx2_ports.specs.declared.errors.ServerCreateError.TheVariants.{FailedToDeployThreadsafetyPolicy};

use crate::errors::ServerCreateError;
use crate::server::Server;
use iox_hub_laws::{Backpressure, Hub, NotMade, Options};
use iox_model::kind::Role;
use iox_store::Payload;
use iox_types::identifiers::UniqueSystemId;
use iox_types::{AllocationStrategy, BackpressureStrategy};
use iox_words::Words;
use std::alloc::Global;
use std::marker::PhantomData;

mod overriding;

pub use overriding::PreallocatedServer;

/// What a server is made with. Where nothing was said, the service's settings hold.
#[derive(Drop)]
#[derive_where(Debug)]
pub struct PortFactoryServer<Q, QH, P, PH, H = ()> {
    node: u64,
    node_id: UniqueSystemId,
    options: Options,
    #[derive_where(skip)]
    handler: Option<H>,
    of: PhantomData<(Q, QH, P, PH)>,
}

impl<Q: Payload, QH: Words, P: Payload, PH: Words, H: Backpressure> PortFactoryServer<
    Q,
    QH,
    P,
    PH,
    H,
> {
    /// A server of this node, whose messages have at most one element.
    pub fn new(node: u64, node_id: UniqueSystemId) -> Self
        ensures node { result.node ≡ node }
        ensures id { result.node_id ≡ node_id }
        ensures options { result.options ≡ first_options }
        ensures handler { result.handler ≡ None }
    {
        PortFactoryServer {
            node,
            node_id,
            options: Options {
                max_slice_len: 1,
                pool: None,
                strategy: None,
                allocation: None,
                loaned_responses: None,
            },
            handler: None,
            of: PhantomData,
        }
    }

    /// What it does at a full client.
    pub fn backpressure_strategy(self, value: BackpressureStrategy) -> Self
        ensures { result
            ≡ record self { options = record (self.options) { strategy = Some value } } }
    {
        let options = Options {
            strategy: Some(value),
            ..self.options
        };
        PortFactoryServer { options, ..self }
    }

    /// How many responses to one request may be loaned at once: raised to 1.
    pub fn max_loaned_responses_per_request(self, value: u64) -> Self
        ensures { result
            ≡ record self { options = record (self.options) { loaned_responses = Some value } } }
    {
        let options = Options {
            loaned_responses: Some(value),
            ..self.options
        };
        PortFactoryServer { options, ..self }
    }

    /// How many responses it has memory for: raised to 1, and lowered to the most that are needed.
    pub fn response_preallocation(self, value: u64) -> Self
        ensures { result ≡ record self { options = record (self.options) { pool = Some value } } }
    {
        let options = Options {
            pool: Some(value),
            ..self.options
        };
        PortFactoryServer { options, ..self }
    }

    /// The greatest length of its responses; it counts where responses have many elements.
    pub fn initial_max_slice_len(self, value: u64) -> Self
        ensures { result
            ≡ record self { options = record (self.options) { max_slice_len = value } } }
    {
        let options = Options {
            max_slice_len: value,
            ..self.options
        };
        PortFactoryServer { options, ..self }
    }

    /// Whether its responses grow past the greatest length. Responses of one element never do.
    pub fn allocation_strategy(self, value: AllocationStrategy) -> Self
        ensures { result
            ≡ record self { options = record (self.options) { allocation = Some value } } }
    {
        let options = Options {
            allocation: Some(value),
            ..self.options
        };
        PortFactoryServer { options, ..self }
    }

    /// Lets that handler say what comes of a response for a full client, in place of the strategy.
    pub fn set_backpressure_handler(self, handler: H) -> Self
        ensures { result ≡ record self { handler = Some handler } }
    {
        PortFactoryServer {
            handler: Some(handler),
            ..self
        }
    }

    /// Makes the server. Where it is refused, all stays.
    pub fn create(
        self,
        alloc: Global,
        hub: &mut Hub<Q, QH, P, PH, H>,
    ) -> Result<Server<Q, QH, P, PH>, ServerCreateError>
        ensures whole { (x : Given) → IsHubCommand (state_of_hub x hub.old) self.node
            (Create roles.Server self.node_id (options_with self.options
            (option_map (shown_by H.action) self.handler))) (reply_of_server result)
            (state_of_hub x hub.new) }
        ensures node { IfOk result (λ server. server.node ≡ self.node) }
        ensures has { IfOk result (λ server.
            HasValue hub.new self.node server.number kinds.Server) }
        ensures made { IfOk result (λ server.
            IsMadeAs hub.new server.number hub.old.response self.options) }
        ensures keeps { KeepsAll hub.old hub.new }
        ensures shapes { HaveSameShapes hub.old hub.new }
        ensures messages { LeavesMessages hub.old hub.new }
        ensures idle { IfOk result (λ server. IsIdle hub.new (server_of server.number)) }
        ensures comes { NothingComes hub.old hub.new }
        ensures asks { KeepsAsking hub.old hub.new }
        ensures room { KeepsRoom hub.old hub.new }
        ensures requests { KeepsRequests hub.old hub.new }
        ensures unchanged { OnErr result (StaysAs hub.old hub.new) }
        ensures refused { IfErr result (λ error. error ≢ FailedToDeployThreadsafetyPolicy) }
    {
        hub.is_in_order();
        match hub.make_port(
            alloc,
            self.node,
            Role::Server,
            self.node_id,
            self.options,
            self.handler,
        ) {
            Ok(number) => Ok(Server::new(self.node, number, hub.place_of(number))),
            Err(NotMade::PortTag) => Err(ServerCreateError::UnableToCreatePortTag),
            Err(NotMade::DataSegment) => Err(ServerCreateError::UnableToCreateDataSegment),
            Err(NotMade::TooManyPorts) => Err(ServerCreateError::ExceedsMaxSupportedServers),
        }
    }
}
