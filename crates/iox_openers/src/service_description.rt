//! What the creator and the openers of a service are compared with.
use crate::message_types::MessageTypes;
use iox_attributes::{AttributeSpecifier, AttributeVerificationError, AttributeVerifier};
use iox_model::reply::Refusal;

/// What the creator and the openers of a service are compared with: the types of its messages, and
/// its attributes.
#[derive(Debug, Drop)]
pub struct ServiceDescription {
    /// The types as the messages are laid out: those of the creator and of each opener must fit
    /// them.
    pub types: MessageTypes,
    /// The pairs of keys and values of which an opener may require some.
    pub attributes: AttributeSpecifier,
}

impl ServiceDescription {
    ghost use Rattle.iox_openers.specs.Causes.{as_refusal};
    ghost use Rattle.iox_openers.specs.Openers.{FailsFirst, IsAskedOfCreator, opener};

    /// What a creator whose own messages have these types is refused by them, if it is refused.
    pub fn creator_refusal(
        &self,
        own: &MessageTypes,
    ) -> Option<Refusal<AttributeVerificationError<'static>>>
        ensures { IsAskedOfCreator own.now self.now.types (as_refusal result) }
    {
        own.incompatibility_to(&self.types)
    }

    /// What an opener whose messages have these types, and that requires this, is refused by types
    /// and attributes, if it is refused. The attribute that is missing is lent from the verifier.
    pub fn opener_refusal<'a>(
        &self,
        types: &MessageTypes,
        verifier: &'a AttributeVerifier,
    ) -> Option<Refusal<AttributeVerificationError<'a>>>
        ensures { FailsFirst self.now (opener types.now verifier.now) (as_refusal result) }
    {
        if let Some(refusal) = types.incompatibility_to(&self.types) {
            return Some(refusal);
        }
        match verifier.verify_requirements(self.attributes.attributes()) {
            Ok(()) => None,
            Err(error) => Some(Refusal::IncompatibleAttributes(error)),
        }
    }
}
