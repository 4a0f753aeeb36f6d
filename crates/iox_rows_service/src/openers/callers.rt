//! A caller, as a user would write it.
ghost use Rattle.std.specs.Bool.{OnTrue};
ghost use Rattle.iox_attributes.specs.Verifiers.{Meets};
ghost use Rattle.iox_openers.specs.Openers.{Suit};

use iox_attributes::AttributeVerifier;
use iox_openers::{MessageTypes, ServiceDescription};

/// Whether a service suits an opener: then each pair and each key that it requires is there.
pub fn suits(
    service: &ServiceDescription,
    types: &MessageTypes,
    verifier: &AttributeVerifier,
) -> bool
    ensures types { OnTrue result (Suit types.now service.now.types) }
    ensures attributes { OnTrue result (Meets verifier.now service.now.attributes) }
{
    service.opener_refusal(types, verifier).is_none()
}
