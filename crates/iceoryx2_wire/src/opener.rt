//! Who opens a service.
use iox_attributes::AttributeVerifier;
use iox_openers::MessageTypes;
use std::marker::Model;

/// A node that opens a service: the types of its messages, and what it requires of the attributes.
#[derive(Debug, Drop)]
pub struct Opener {
    /// The types of its requests and responses; they have to fit those of the service.
    pub types: MessageTypes,
    /// The pairs and keys that the service's attributes must have.
    pub verifier: AttributeVerifier,
}

impl Model for Opener {
    ghost use Rattle.iox_openers.specs.Openers as machine;
    ghost use Rattle.iox_openers.specs.Openers.{opener};

    ghost Value = { machine.Opener };

    ghost view = { λ o. opener o.types o.verifier };
}
