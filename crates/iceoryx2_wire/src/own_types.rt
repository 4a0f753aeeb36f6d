//! The messages of a service's own types, and what its creator gives as their types.
ghost use Rattle.std.specs.Prelude.{◌≡◌, ◌≤◌, ◌↔◌, IfErr, IfOk, IsOk, IsTrue};
ghost use Rattle.iox_types.specs.Compatibility.{AreCompatible};
ghost use Rattle.iox_types.specs.Details.{IsCompatible, detail, is_short};
ghost use Rattle.iox_types.specs.declared.type_detail.TypeVariant.TheVariants.{FixedSize};
ghost use Rattle.iox_openers.specs.Causes.{as_refusal};
ghost use Rattle.iox_openers.specs.Openers.{IsAskedOfCreator};
ghost use Rattle.iceoryx2_wire.specs.OwnTypes.{message, message_types, variant_of};

use crate::service::Service;
use iox_attributes::AttributeVerificationError;
use iox_model::reply::Refusal;
use iox_openers::MessageTypes;
use iox_service_laws::Backpressure;
use iox_store::Payload;
use iox_types::{
    MessageTypeDetails, RequestHeader, ResponseHeader, TypeDetail, TypeDetailError, TypeVariant,
};
use iox_words::ZeroCopySend;

/// Whether a message has several elements or one.
fn variant_of(many: bool) -> TypeVariant
    ensures { result ≡ variant_of many }
{
    if many {
        TypeVariant::Dynamic
    } else {
        TypeVariant::FixedSize
    }
}

/// Whether a value of that size and alignment may stand where one of the described type does.
fn is_laid_out_for(size: usize, alignment: usize, described: &TypeDetail) -> bool
    ensures { IsTrue result ↔ (size ≡ described.now.size) × (alignment ≤ described.now.alignment) }
{
    size == described.size() && alignment <= described.alignment()
}

/// Whether a value of `T` may stand where one of the described type does. Where the name of `T` is
/// too long to be described, it may stand nowhere.
fn suits<T: ZeroCopySend>(variant: TypeVariant, described: &TypeDetail) -> bool
    ensures { IsTrue result ↔ IsCompatible (detail variant T.name T.SIZE T.ALIGNMENT)
        described.now }
{
    variant == described.variant()
        && T::name() == described.type_name()
        && is_laid_out_for(T::SIZE, T::ALIGNMENT, described)
}

/// Whether messages of these types may be read where the described ones are laid out.
fn suit<H: ZeroCopySend, U: ZeroCopySend, E: ZeroCopySend>(
    variant: TypeVariant,
    described: &MessageTypeDetails,
) -> bool
    ensures { IsTrue result ↔ AreCompatible (message (detail FixedSize H.name H.SIZE H.ALIGNMENT)
        (detail FixedSize U.name U.SIZE U.ALIGNMENT) (detail variant E.name E.SIZE E.ALIGNMENT))
        described.now }
{
    suits::<H>(TypeVariant::FixedSize, &described.header)
        && suits::<U>(TypeVariant::FixedSize, &described.user_header)
        && suits::<E>(variant, &described.payload)
}

/// Why the creator of a service with messages of these types is refused by what it gives as their
/// types, if it is refused.
pub(crate) fn creator_refusal<Q: Payload, QH: ZeroCopySend, P: Payload, PH: ZeroCopySend>(
    given: &MessageTypes,
) -> Option<Refusal<AttributeVerificationError<'static>>>
where
    Q::Element: ZeroCopySend,
    P::Element: ZeroCopySend,
    ensures { IsAskedOfCreator (message_types (detail FixedSize QH.name QH.SIZE QH.ALIGNMENT)
        (detail (variant_of Q.MANY) Q.Element.name Q.Element.SIZE Q.Element.ALIGNMENT)
        (detail FixedSize PH.name PH.SIZE PH.ALIGNMENT)
        (detail (variant_of P.MANY) P.Element.name P.Element.SIZE P.Element.ALIGNMENT))
        given.now (as_refusal result) }
{
    if !suit::<RequestHeader, QH, Q::Element>(variant_of(Q::MANY), &given.request) {
        return Some(Refusal::IncompatibleRequestTypes);
    }
    if !suit::<ResponseHeader, PH, P::Element>(variant_of(P::MANY), &given.response) {
        return Some(Refusal::IncompatibleResponseTypes);
    }
    None
}

impl<Q: Payload, QH: ZeroCopySend, P: Payload, PH: ZeroCopySend, H: Backpressure> Service<
    Q,
    QH,
    P,
    PH,
    H,
>
where
    Q::Element: ZeroCopySend,
    P::Element: ZeroCopySend,
{
    /// The types of the messages of such a service, as its creator and those who open it give them.
    /// A type whose name has more than 256 bytes cannot be described.
    pub fn own_types() -> Result<MessageTypes, TypeDetailError>
        ensures made { IfOk result (λ types. types ≡ message_types
            (detail FixedSize QH.name QH.SIZE QH.ALIGNMENT)
            (detail (variant_of Q.MANY) Q.Element.name Q.Element.SIZE Q.Element.ALIGNMENT)
            (detail FixedSize PH.name PH.SIZE PH.ALIGNMENT)
            (detail (variant_of P.MANY) P.Element.name P.Element.SIZE P.Element.ALIGNMENT)) }
        ensures succeeds { IsOk result ↔ IsTrue (is_short QH.name)
            × IsTrue (is_short Q.Element.name) × IsTrue (is_short PH.name)
            × IsTrue (is_short P.Element.name) }
        ensures refused { IfErr result (λ e. e ≡ TypeDetailError.NameTooLong) }
    {
        let (requests, responses) = (variant_of(Q::MANY), variant_of(P::MANY));
        Ok(MessageTypes {
            request: MessageTypeDetails::from::<RequestHeader, QH, Q::Element>(requests)?,
            response: MessageTypeDetails::from::<ResponseHeader, PH, P::Element>(responses)?,
        })
    }
}
