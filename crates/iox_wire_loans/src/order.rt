//! What a loan in the making will be.
ghost use Rattle.std.specs.Prelude.{◌≡◌};

use iox_model::kind::Kind;
use iox_wire_locals::Entry;

/// What the handle and the message of a loan will say. Its payload is written later.
#[derive(Clone, Copy)]
pub struct Order {
    /// The number that the handle gets.
    pub number: u64,
    /// The kind of the handle.
    pub kind: Kind,
    /// The number of the port that lends.
    pub port: u64,
    /// The number of the client of its request.
    pub client: u64,
    /// The lane of its request.
    pub lane: u64,
    /// The id of its request.
    pub request: u64,
    /// How many loans of the port succeeded before it.
    pub serial: u64,
    /// How many elements the message has.
    pub elements: u64,
}

impl Order {
    ghost use Rattle.std.specs.Prelude.{◌≡◌};
    ghost use Rattle.iox_wire_locals.specs.NewLoans.{entry_in};
    ghost use Rattle.iox_wire_loans.specs.Orders.{loan_of};

    /// Its handle, once it has a slot.
    #[inline(always)]
    pub fn entry(self, slot: u64) -> Entry
        ensures { result ≡ entry_in (loan_of self) slot }
    {
        Entry {
            number: self.number,
            kind: self.kind,
            port: self.port,
            sender: self.port,
            slot,
            client: self.client,
            lane: self.lane,
            request: self.request,
            elements: self.elements,
            connections: 0,
        }
    }
}
