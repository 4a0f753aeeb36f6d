//! A service is made.
ghost use Rattle.iox_types.specs.Details.{detail};
ghost use Rattle.iox_types.specs.declared.type_detail.TypeVariant.TheVariants.{FixedSize};
ghost use Rattle.iox_service_laws.specs.Settings.{settings_of};
ghost use Rattle.iox_service_laws.specs.Shapes.{shape_of};
ghost use Rattle.iox_service_laws.specs.Shown.{limits_for};
ghost use Rattle.iceoryx2_wire.specs.OwnTypes.{message_types, variant_of};
ghost use Rattle.iceoryx2_wire.specs.OwnTypes.{request_shape, response_shape};
ghost use Rattle.iceoryx2_wire.specs.Services.{IsMade};

use crate::defaults::Defaults;
use crate::identity::ServiceIdentity;
use crate::own_types::creator_refusal;
use crate::service::Service;
use iox_attributes::AttributeVerificationError;
use iox_model::reply::Refusal;
use iox_openers::ServiceDescription;
use iox_service_laws::{Backpressure, MessageShape, Settings};
use iox_store::Payload;
use iox_types::identifiers::UniqueSystemId;
use iox_words::ZeroCopySend;
use std::alloc::Global;

impl<Q: Payload, QH: ZeroCopySend, P: Payload, PH: ZeroCopySend, H: Backpressure> Service<
    Q,
    QH,
    P,
    PH,
    H,
>
where
    Q::Element: ZeroCopySend,
    P::Element: ZeroCopySend,
{
    /// That service, which says this of itself, with its first node, which has number 0 and that
    /// id. Its messages are of its own types, which the described ones are compared with, and hold
    /// these defaults at first. A limit of 0 is raised to 1, but for those of how many ports that
    /// are gone a port keeps messages of.
    ///
    /// It is refused as `InvalidNodeId`, as `IncompatibleRequestTypes` or
    /// `IncompatibleResponseTypes` where its own types may not be read where the described ones are
    /// laid out, as `LimitTooLarge`, and as `WantOfMemory`, in this order.
    pub fn create(
        alloc: Global,
        settings: Settings,
        identity: ServiceIdentity,
        description: ServiceDescription,
        requests: Defaults<Q::Element, QH>,
        responses: Defaults<P::Element, PH>,
        id: UniqueSystemId,
    ) -> Result<Self, Refusal<AttributeVerificationError<'static>>>
        ensures { let of_requests = detail FixedSize QH.name QH.SIZE QH.ALIGNMENT in
            let request = detail (variant_of Q.MANY) Q.Element.name Q.Element.SIZE
            Q.Element.ALIGNMENT in
            let of_responses = detail FixedSize PH.name PH.SIZE PH.ALIGNMENT in
            let response = detail (variant_of P.MANY) P.Element.name P.Element.SIZE
            P.Element.ALIGNMENT in
            IsMade (limits_for (settings_of settings)
            (shape_of Q.MANY Q.Element.WORDS Q.Element.words QH.words
            (request_shape of_requests request requests))
            (shape_of P.MANY P.Element.WORDS P.Element.words PH.words
            (response_shape of_responses response responses)))
            (message_types of_requests request of_responses response)
            identity description id result }
    {
        let asked = creator_refusal::<Q, QH, P, PH>(&description.types);
        let request = MessageShape::of_requests(Some(requests.element), requests.user_header);
        let response = MessageShape::of_responses(Some(responses.element), responses.user_header);
        match iox_service_laws::Service::new(
            alloc,
            identity.number,
            settings,
            id,
            asked,
            request,
            response,
        ) {
            Ok(nodes) => Ok(Service {
                identity,
                description,
                nodes,
            }),
            Err(refusal) => Err(refusal),
        }
    }
}
