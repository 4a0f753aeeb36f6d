//! What is so of each hub between calls, for those who have one.
ghost use Rattle.iox_hub.specs.Hubs.{IsHub};
ghost use Rattle.iox_hub.specs.Shapes.{IsOfType};

use crate::hub::Hub;
use iox_backpressure::Backpressure;
use iox_store::Payload;
use iox_words::Words;

impl<Q: Payload, QH: Words, P: Payload, PH: Words, H: Backpressure> Hub<Q, QH, P, PH, H> {
    /// The tables are in order, the words fit them, and a service and its hub can reach the state
    /// that is shown. This does nothing: it is there for its contract.
    #[inline]
    pub fn is_in_order(&self)
        ensures { IsHub self.now }
    {
        let _control = &self.control;
    }

    /// Messages have as many elements, and elements as many words, as their types say. This does
    /// nothing: it is there for its contract.
    #[inline]
    pub fn is_of_its_types(&self)
        ensures requests { IsOfType Q.MANY Q.Element.WORDS self.now.request }
        ensures responses { IsOfType P.MANY P.Element.WORDS self.now.response }
    {
        let _control = &self.control;
    }
}
