//! Identifiers of ports and services, a type for each kind.
ghost use Rattle.std.specs.Prelude.{◌≡◌};

use super::kind;
use super::system_id::{Time, UniqueSystemId};
use iox_names::Words;
use std::fmt;
use std::marker::{Model, PhantomData};

/// The identifier of a port or other item of a kind, such as a client.
#[derive_where(Clone, Copy, Debug, PartialEq, Eq, PartialOrd, Ord, Hash)]
pub struct UniqueId<Kind> {
    id: UniqueSystemId,
    kind: PhantomData<Kind>,
}

/// Which client it is, among all of all processes.
pub type UniqueClientId = UniqueId<kind::Client>;

/// Which server it is, among all of all processes.
pub type UniqueServerId = UniqueId<kind::Server>;

/// Which publisher it is, among all of all processes.
pub type UniquePublisherId = UniqueId<kind::Publisher>;

/// Which subscriber it is, among all of all processes.
pub type UniqueSubscriberId = UniqueId<kind::Subscriber>;

/// Which notifier it is, among all of all processes.
pub type UniqueNotifierId = UniqueId<kind::Notifier>;

/// Which listener it is, among all of all processes.
pub type UniqueListenerId = UniqueId<kind::Listener>;

/// Which reader it is, among all of all processes.
pub type UniqueReaderId = UniqueId<kind::Reader>;

/// Which writer it is, among all of all processes.
pub type UniqueWriterId = UniqueId<kind::Writer>;

/// Which service it is, among all of all processes.
pub type UniqueServiceId = UniqueId<kind::Service>;

impl<Kind> Model for UniqueId<Kind> {
    ghost use Rattle.iox_types.specs.declared.identifiers.system_id.UniqueSystemId.{UniqueSystemId};

    ghost Value = { UniqueSystemId };

    ghost view = { λ it. it.id };

    ghost inverse = { λ id. record { id = id; kind = record {} } };
}

impl<Kind> UniqueId<Kind> {
    ghost use Rattle.iox_types.specs.Identifiers.{id_value};

    /// The identifier of what was made so.
    pub fn new(id: UniqueSystemId) -> UniqueId<Kind>
        ensures { result ≡ id }
    {
        UniqueId {
            id,
            kind: PhantomData,
        }
    }

    /// Who made it, and when.
    pub fn system_id(&self) -> UniqueSystemId
        ensures { result ≡ self.now }
    {
        self.id
    }

    /// The identifier as one number of 128 bits.
    pub fn value(&self) -> u128
        ensures { result ≡ id_value self.now }
    {
        self.id.value()
    }

    /// The number of the process that made it.
    pub fn pid(&self) -> u32
        ensures { result ≡ self.now.process }
    {
        self.id.pid()
    }

    /// When it was made.
    pub fn creation_time(&self) -> Time
        ensures seconds { result.seconds ≡ self.now.seconds }
        ensures nanoseconds { result.nanoseconds ≡ self.now.nanoseconds }
    {
        self.id.creation_time()
    }
}

impl<Kind> fmt::Display for UniqueId<Kind> {
    ghost use Rattle.std.specs.Prelude.{Some};
    ghost use Rattle.iox_types.specs.Identifiers.{id_text};

    ghost output = { λ id. Some (id_text id) };

    fn fmt<W: fmt::Write>(&self, f: &mut fmt::Formatter<W>) -> fmt::Result {
        fmt::Display::fmt(&self.id, f)
    }
}

impl<Kind> Words for UniqueId<Kind> {
    ghost use Rattle.iox_types.specs.Identifiers.{IsId, id_of_words, id_words};
    ghost use Rattle.iox_types.specs.IdentifierLaws.{two_words_are_an_id};
    ghost use Rattle.iox_names.specs.Numbers.{IsTwoWords};

    ghost WORDS = { 2 };

    const WORDS: usize = 2;

    ghost is_value = { IsId };

    ghost words = { id_words };

    ghost is_words = { IsTwoWords };

    ghost of_words = { id_of_words };

    fn known(self) {}

    fn word(&self, index: usize) -> u64 {
        self.id.word(index)
    }

    fn of_words(list: &[u64]) -> Option<UniqueId<Kind>> {
        Some(UniqueId::new(UniqueSystemId::of_words(list)?))
    }

    ghost laws = { two_words_are_an_id };
}

/// The identifier of a port of any kind.
#[derive(Clone, Copy, Debug, PartialEq, Eq, PartialOrd, Ord, Hash)]
pub enum UniquePortId {
    /// Of a port that sends samples.
    Publisher(UniquePublisherId),
    /// Of a port that receives samples.
    Subscriber(UniqueSubscriberId),
    /// Of a port that notifies listeners.
    Notifier(UniqueNotifierId),
    /// Of a port that waits for events.
    Listener(UniqueListenerId),
    /// Of a port that sends requests.
    Client(UniqueClientId),
    /// Of a port that answers requests.
    Server(UniqueServerId),
    /// Of a port that reads a blackboard.
    Reader(UniqueReaderId),
    /// Of a port that writes a blackboard.
    Writer(UniqueWriterId),
}

impl UniquePortId {
    ghost use Rattle.iox_types.specs.PortIds.{port_id_value};

    /// The identifier as one number of 128 bits, whatever the kind of port.
    pub fn value(&self) -> u128
        ensures { result ≡ port_id_value self.now }
    {
        match self {
            UniquePortId::Publisher(id) => id.value(),
            UniquePortId::Subscriber(id) => id.value(),
            UniquePortId::Notifier(id) => id.value(),
            UniquePortId::Listener(id) => id.value(),
            UniquePortId::Client(id) => id.value(),
            UniquePortId::Server(id) => id.value(),
            UniquePortId::Reader(id) => id.value(),
            UniquePortId::Writer(id) => id.value(),
        }
    }
}
