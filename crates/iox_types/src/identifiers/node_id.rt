//! Identifiers of nodes.
ghost use Rattle.std.specs.Prelude.{◌≡◌, ◌↔◌, IfErr, IfOk, IsOk, IsTrue};

use super::system_id::{Time, UniqueSystemId};
use iox_names::Words;
use std::fmt;
use std::marker::Model;
use thiserror::Error;

/// Why there is no such identifier of a node.
#[derive(Clone, Copy, Debug, Error, PartialEq, Eq)]
pub enum UniqueNodeIdError {
    /// Its process number and its counter are both 0.
    #[error("UniqueNodeIdError::InvalidNodeId")]
    InvalidNodeId,
}

/// The identifier of a node. It has a process number or a counter.
#[derive(Clone, Copy, Debug, PartialEq, Eq, PartialOrd, Ord, Hash)]
pub struct UniqueNodeId {
    id: UniqueSystemId,
}

impl Model for UniqueNodeId {
    ghost use Rattle.std.specs.Prelude.{IsTrue};
    ghost use Rattle.iox_types.specs.declared.identifiers.system_id.UniqueSystemId.{UniqueSystemId};

    ghost Value = { UniqueSystemId };

    ghost use Rattle.iox_types.specs.Identifiers.{is_node_id};

    ghost view = { λ it. it.id };

    ghost invariant = { λ it. IsTrue (is_node_id it.id) };

    ghost inverse = { λ id. record { id = id } };
}

impl UniqueNodeId {
    ghost use Rattle.iox_types.specs.Identifiers.{id_value, is_node_id};

    /// The identifier of the node that was made so. An identifier of neither process number nor
    /// counter is invalid.
    pub fn new(id: UniqueSystemId) -> Result<UniqueNodeId, UniqueNodeIdError>
        ensures succeeds { IsOk result ↔ IsTrue (is_node_id id) }
        ensures made { IfOk result (λ node. node ≡ id) }
    {
        if id.process == 0 && id.counter == 0 {
            return Err(UniqueNodeIdError::InvalidNodeId);
        }
        Ok(UniqueNodeId { id })
    }

    /// Who made it, and when.
    pub fn system_id(&self) -> UniqueSystemId
        ensures same { result ≡ self.now }
        ensures valid { IsTrue (is_node_id result) }
    {
        self.id
    }

    /// The identifier as one number of 128 bits.
    pub fn value(&self) -> u128
        ensures { result ≡ id_value self.now }
    {
        self.id.value()
    }

    /// The number of the node's process.
    pub fn pid(&self) -> u32
        ensures { result ≡ self.now.process }
    {
        self.id.pid()
    }

    /// When the node was made.
    pub fn creation_time(&self) -> Time
        ensures seconds { result.seconds ≡ self.now.seconds }
        ensures nanoseconds { result.nanoseconds ≡ self.now.nanoseconds }
    {
        self.id.creation_time()
    }
}

impl fmt::Display for UniqueNodeId {
    ghost use Rattle.std.specs.Prelude.{Some};
    ghost use Rattle.iox_types.specs.Identifiers.{id_text};

    ghost output = { λ id. Some (id_text id) };

    fn fmt<W: fmt::Write>(&self, f: &mut fmt::Formatter<W>) -> fmt::Result {
        fmt::Display::fmt(&self.id, f)
    }
}

impl Words for UniqueNodeId {
    ghost use Rattle.iox_types.specs.Identifiers.{IsNodeId, IsNodeIdWords, id_words, node_id_of_words};
    ghost use Rattle.iox_types.specs.IdentifierLaws.{two_words_are_a_node_id};

    ghost WORDS = { 2 };

    const WORDS: usize = 2;

    ghost is_value = { IsNodeId };

    ghost words = { id_words };

    ghost is_words = { IsNodeIdWords };

    ghost of_words = { node_id_of_words };

    fn known(self) {}

    fn word(&self, index: usize) -> u64 {
        self.id.word(index)
    }

    fn of_words(list: &[u64]) -> Option<UniqueNodeId> {
        UniqueNodeId::new(UniqueSystemId::of_words(list)?).ok()
    }

    ghost laws = { two_words_are_a_node_id };
}
