//! The making of clients.
ghost use Rattle.std.specs.Prelude.{◌≡◌, ◌≢◌, ℕ, IfErr, IfOk, None, OnErr, Some};
ghost use Rattle.std.specs.Option.{option_map};
ghost use Rattle.iox_model.specs.declared.kind.Kind.TheVariants as kinds;
ghost use Rattle.iox_model.specs.declared.kind.Role.TheVariants as roles;
ghost use Rattle.iox_model.specs.Commands.{Create};
ghost use Rattle.iox_model.specs.Makings.{IsHubCommand};
ghost use Rattle.iox_tables.specs.HubStates.States.{Given};
ghost use Rattle.iox_hub_laws.specs.HandlerWords.{shown_by};
ghost use Rattle.iox_hub_laws.specs.Hubs.{HasValue, state_of_hub};
ghost use Rattle.iox_hub_laws.specs.Keeping.{HaveSameShapes, KeepsAll};
ghost use Rattle.iox_hub_laws.specs.Making.{LeavesMessages, StaysAs, options_with};
ghost use Rattle.iox_hub_laws.specs.Sends.{NothingComes};
ghost use Rattle.iceoryx2_ports.specs.LoanLimits.{LendsNone};
ghost use Rattle.iceoryx2_ports.specs.Makings.{IsMadeAs, first_options, reply_of_client};
ghost use Rattle.iceoryx2_ports.specs.Keeping.{KeepsAsking};
ghost use Rattle.iceoryx2_ports.specs.Opens.{KeepsRequests};
ghost use Rattle.iceoryx2_ports.specs.Idling.{IsIdle, client_on};
ghost use Rattle.iceoryx2_ports.specs.Reaching.{KeepsRoom};
ghost use Rattle.iceoryx2_ports.specs.declared.errors.ClientCreateError.TheVariants.{FailedToDeployThreadsafetyPolicy};

use crate::client::Client;
use crate::errors::ClientCreateError;
use iox_hub_laws::{Backpressure, Hub, NotMade, Options};
use iox_model::kind::Role;
use iox_store::Payload;
use iox_types::identifiers::UniqueSystemId;
use iox_types::{AllocationStrategy, BackpressureStrategy};
use iox_words::Words;
use std::alloc::Global;
use std::marker::PhantomData;

mod overriding;

pub use overriding::PreallocatedClient;

/// What a client is made with. Where nothing was said, the service's settings hold.
#[derive(Drop)]
#[derive_where(Debug)]
pub struct PortFactoryClient<Q, QH, P, PH, H = ()> {
    node: u64,
    node_id: UniqueSystemId,
    options: Options,
    #[derive_where(skip)]
    handler: Option<H>,
    of: PhantomData<(Q, QH, P, PH)>,
}

impl<Q: Payload, QH: Words, P: Payload, PH: Words, H: Backpressure> PortFactoryClient<
    Q,
    QH,
    P,
    PH,
    H,
> {
    /// A client of this node, whose messages have at most one element.
    pub fn new(node: u64, node_id: UniqueSystemId) -> Self
        ensures node { result.node ≡ node }
        ensures id { result.node_id ≡ node_id }
        ensures options { result.options ≡ first_options }
        ensures handler { result.handler ≡ None }
    {
        PortFactoryClient {
            node,
            node_id,
            options: Options {
                max_slice_len: 1,
                pool: None,
                strategy: None,
                allocation: None,
                loaned_responses: None,
            },
            handler: None,
            of: PhantomData,
        }
    }

    /// What it does at a full server.
    pub fn backpressure_strategy(self, value: BackpressureStrategy) -> Self
        ensures { result
            ≡ record self { options = record (self.options) { strategy = Some value } } }
    {
        let options = Options {
            strategy: Some(value),
            ..self.options
        };
        PortFactoryClient { options, ..self }
    }

    /// How many requests it has memory for: raised to 1, and lowered to the most that are needed.
    pub fn request_preallocation(self, value: u64) -> Self
        ensures { result ≡ record self { options = record (self.options) { pool = Some value } } }
    {
        let options = Options {
            pool: Some(value),
            ..self.options
        };
        PortFactoryClient { options, ..self }
    }

    /// The greatest length of its requests; it counts where requests have many elements.
    pub fn initial_max_slice_len(self, value: u64) -> Self
        ensures { result
            ≡ record self { options = record (self.options) { max_slice_len = value } } }
    {
        let options = Options {
            max_slice_len: value,
            ..self.options
        };
        PortFactoryClient { options, ..self }
    }

    /// Whether its requests grow past the greatest length. Requests of one element never do.
    pub fn allocation_strategy(self, value: AllocationStrategy) -> Self
        ensures { result
            ≡ record self { options = record (self.options) { allocation = Some value } } }
    {
        let options = Options {
            allocation: Some(value),
            ..self.options
        };
        PortFactoryClient { options, ..self }
    }

    /// Lets that handler say what comes of a request for a full server, in place of the strategy.
    /// It is asked about each full server singly.
    pub fn set_backpressure_handler(self, handler: H) -> Self
        ensures { result ≡ record self { handler = Some handler } }
    {
        PortFactoryClient {
            handler: Some(handler),
            ..self
        }
    }

    /// Makes the client. Where it is refused, all stays.
    pub fn create(
        self,
        alloc: Global,
        hub: &mut Hub<Q, QH, P, PH, H>,
    ) -> Result<Client<Q, QH, P, PH>, ClientCreateError>
        ensures whole { (x : Given) → IsHubCommand (state_of_hub x hub.old) self.node
            (Create roles.Client self.node_id (options_with self.options
            (option_map (shown_by H.action) self.handler))) (reply_of_client result)
            (state_of_hub x hub.new) }
        ensures node { IfOk result (λ client. client.node ≡ self.node) }
        ensures has { IfOk result (λ client.
            HasValue hub.new self.node client.number kinds.Client) }
        ensures made { IfOk result (λ client.
            IsMadeAs hub.new client.number hub.old.request self.options) }
        ensures keeps { KeepsAll hub.old hub.new }
        ensures shapes { HaveSameShapes hub.old hub.new }
        ensures messages { LeavesMessages hub.old hub.new }
        ensures idle { IfOk result (λ client. (lane request : ℕ)
            → IsIdle hub.new (client_on client.number lane request)) }
        ensures lent { IfOk result (λ client. LendsNone hub.old client.number hub.new) }
        ensures comes { NothingComes hub.old hub.new }
        ensures asks { KeepsAsking hub.old hub.new }
        ensures room { KeepsRoom hub.old hub.new }
        ensures requests { KeepsRequests hub.old hub.new }
        ensures unchanged { OnErr result (StaysAs hub.old hub.new) }
        ensures refused { IfErr result (λ error. error ≢ FailedToDeployThreadsafetyPolicy) }
    {
        hub.is_in_order();
        match hub.make_port(
            alloc,
            self.node,
            Role::Client,
            self.node_id,
            self.options,
            self.handler,
        ) {
            Ok(number) => {
                hub.is_in_order();
                Ok(Client::new(self.node, number, hub.place_of(number)))
            }
            Err(NotMade::PortTag) => Err(ClientCreateError::UnableToCreatePortTag),
            Err(NotMade::DataSegment) => Err(ClientCreateError::UnableToCreateDataSegment),
            Err(NotMade::TooManyPorts) => Err(ClientCreateError::ExceedsMaxSupportedClients),
        }
    }
}
