//! A hub.

ghost use Rattle.std.specs.Prelude.{◌≡◌, IfOk};
ghost use Rattle.iox_control.specs.Settings.{settings_of};
ghost use Rattle.iox_hub.specs.Hubs.{IsReached};
ghost use Rattle.iox_hub.specs.Shapes.{HaveParts, shape_of};
ghost use Rattle.iox_hub.specs.Starts.{new_hub};

use crate::all_words::AllWords;
use crate::known_shape::KnownShape;
use crate::settings::started;
use crate::shape::MessageShape;
use iox_backpressure::{Backpressure, Handlers};
use iox_control::{Control, Settings};
use iox_store::Payload;
use iox_words::Words;
use std::alloc::{AllocError, Global};
use std::marker::Model;

/// All ports of a service: requests of `Q` with user headers `QH`, responses of `P` with user
/// headers `PH`. Ports may have handlers of `H`; where they have none, it is the unit.
///
/// A service and its hub can reach the state that a hub shows, so each law of the machine holds of
/// it.
#[derive(Drop)]
pub struct Hub<Q: Payload, QH: Words, P: Payload, PH: Words, H: Backpressure = ()> {
    pub(crate) control: Control,
    // Beside each pool of the tables.
    pub(crate) words: AllWords<Q::Element, QH, P::Element, PH>,
    pub(crate) request: KnownShape<Q::Element, QH>,
    pub(crate) response: KnownShape<P::Element, PH>,
    pub(crate) handlers: Handlers<H>,
}

impl<Q: Payload, QH: Words, P: Payload, PH: Words, H: Backpressure> Model for Hub<Q, QH, P, PH, H> {
    ghost use Rattle.iox_hub.specs.Hubs.{HubState, IsHub};
    ghost use Rattle.iox_hub.specs.Shapes.{shape_of};

    ghost Value = { HubState };

    ghost view = { λ h. record {
      control = h.control;
      words = h.words.pools;
      request = shape_of Q.MANY Q.Element.WORDS Q.Element.words QH.words h.request;
      response = shape_of P.MANY P.Element.WORDS P.Element.words PH.words h.response;
      handlers = h.handlers.list;
    } };

    ghost invariant = { λ h. IsHub (record {
      control = h.control;
      words = h.words.pools;
      request = shape_of Q.MANY Q.Element.WORDS Q.Element.words QH.words h.request;
      response = shape_of P.MANY P.Element.WORDS P.Element.words PH.words h.response;
      handlers = h.handlers.list;
    }) };
}

impl<Q: Payload, QH: Words, P: Payload, PH: Words, H: Backpressure> Hub<Q, QH, P, PH, H> {
    /// A hub in which no port was made yet. A limit of 0 is raised to 1, but for those of what is
    /// kept of ports that are gone. It fails only for want of memory.
    pub fn new(
        alloc: Global,
        settings: Settings,
        request: MessageShape<Q::Element, QH>,
        response: MessageShape<P::Element, PH>,
    ) -> Result<Self, AllocError>
        requires request { HaveParts request }
        requires response { HaveParts response }
        ensures { IfOk result (λ h. h ≡ new_hub (settings_of settings)
            (shape_of Q.MANY Q.Element.WORDS Q.Element.words QH.words request)
            (shape_of P.MANY P.Element.WORDS P.Element.words PH.words response)) }
    {
        let control = Control::new(alloc, started(settings))?;
        Ok(Hub {
            control,
            words: AllWords::new(alloc),
            request: KnownShape::new(request),
            response: KnownShape::new(response),
            handlers: Handlers::new(alloc),
        })
    }

    /// How many calls were counted: the loans, sends and receives that were not refused.
    #[inline]
    pub fn calls(&self) -> u64
        ensures calls { result ≡ self.now.control.tables.calls }
        ensures reached { IsReached self.now }
    {
        self.control.calls()
    }
}
