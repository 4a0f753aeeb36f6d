//! What a wire is told beside its plan.
ghost use Rattle.std.specs.Prelude.{◌≡◌};
ghost use Rattle.iox_wire_lenders.specs.Terms.{messages_of};

use iox_model::kind::Role;

/// What a port is told beside the plan.
#[derive(Debug, Drop)]
pub struct PortTerms {
    /// The words of its node's identifier and of its own.
    pub ids: Vec<u64>,
    /// Of a server: how many responses it may have on loan for one request.
    pub loaned_responses: u64,
    /// Whether its sends fail where a receiver is full.
    pub fails: bool,
}

/// What the messages of a role are told beside the plan.
#[derive(Debug, Drop)]
pub struct MessageTerms {
    /// Whether a message may have any number of elements.
    pub many: bool,
    /// The words of its user header.
    pub user: Vec<u64>,
}

/// What a wire is told beside its plan.
#[derive(Debug, Drop)]
pub struct WireTerms {
    /// One for each port, in the order of the plan.
    pub ports: Vec<PortTerms>,
    /// What is told of requests.
    pub request: MessageTerms,
    /// What is told of responses.
    pub response: MessageTerms,
    /// How many clients there may be.
    pub clients: u64,
    /// How many requests a client may have on loan.
    pub loaned_requests: u64,
    /// Whether requests may be received that their clients gave up.
    pub fire_and_forget: bool,
    /// The number of each node's first handle.
    pub first_number: u64,
}

impl WireTerms {
    /// What the messages of that role are told.
    pub fn messages(&self, sender: Role) -> &MessageTerms
        ensures { result.now ≡ messages_of self.now sender }
    {
        match sender {
            Role::Client => &self.request,
            Role::Server => &self.response,
        }
    }
}
