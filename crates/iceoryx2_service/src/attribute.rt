//! What is said of a service, and what a node that opens it asks for.
pub use iox_attributes::{
    AttributeDefinitionError, AttributeSet, AttributeSpecifier, AttributeVerificationError,
    AttributeVerifier, DefinitionRefusal,
};
pub use iox_names::attribute::{Attribute, AttributeKey, AttributeValue};
pub use iox_words::CallbackProgression;
