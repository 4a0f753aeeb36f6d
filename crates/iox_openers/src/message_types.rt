//! The description of both kinds of messages of a service.
use iox_attributes::AttributeVerificationError;
use iox_model::reply::Refusal;
use iox_types::MessageTypeDetails;

/// The description of the messages of a service: of its requests and of its responses.
#[derive(Clone, Copy, Debug, PartialEq, Eq)]
pub struct MessageTypes {
    /// Header, user header and payload of a request.
    pub request: MessageTypeDetails,
    /// Header, user header and payload of a response.
    pub response: MessageTypeDetails,
}

impl MessageTypes {
    ghost use Rattle.iox_openers.specs.Causes.{as_refusal};
    ghost use Rattle.iox_openers.specs.Openers.{IsRefusedByTypes};

    /// Why these messages may not be read where the others are laid out: the first of the two types
    /// that is not compatible.
    pub fn incompatibility_to(
        &self,
        others: &MessageTypes,
    ) -> Option<Refusal<AttributeVerificationError<'static>>>
        ensures { IsRefusedByTypes self.now others.now (as_refusal result) }
    {
        if !self.request.is_compatible_to(&others.request) {
            return Some(Refusal::IncompatibleRequestTypes);
        }
        if !self.response.is_compatible_to(&others.response) {
            return Some(Refusal::IncompatibleResponseTypes);
        }
        None
    }
}
