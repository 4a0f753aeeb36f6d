//! What services say of themselves, and what is required of them: sorted pairs of a key and a
//! value. They lie in the value itself, so that nothing here takes memory.
#![tactic(auto)]

mod attribute_set;
mod attribute_specifier;
mod attribute_verifier;
mod definition_refusal;
mod key_list;
pub mod laws;
mod verification_error;

pub use attribute_set::AttributeSet;
pub use attribute_specifier::AttributeSpecifier;
pub use attribute_verifier::AttributeVerifier;
pub use definition_refusal::{AttributeDefinitionError, DefinitionRefusal};
pub use verification_error::AttributeVerificationError;
