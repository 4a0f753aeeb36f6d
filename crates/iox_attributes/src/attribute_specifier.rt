//! What a service says of itself.
ghost use Rattle.std.specs.Prelude.{◌≡◌, ◌<◌, ◌↔◌, [], IfErr, IfOk, IsOk, OnErr, OnOk, length};
ghost use Rattle.iox_attributes.specs.Sets.{max_pairs, with_pair};
ghost use Rattle.iox_attributes.specs.Verifiers.{pair};

use crate::attribute_set::AttributeSet;
use crate::definition_refusal::{AttributeDefinitionError, DefinitionRefusal};
use iox_names::attribute::{Attribute, AttributeKey, AttributeValue};
use std::marker::Model;

/// Builds the attributes that a service is created with. It takes no memory.
#[derive(Debug, Drop)]
pub struct AttributeSpecifier {
    attributes: AttributeSet,
}

impl Model for AttributeSpecifier {
    ghost use Rattle.std.specs.Prelude.{List};
    ghost use Rattle.iox_names.specs.declared.attribute.Attribute.{Attribute};

    ghost Value = { List Attribute };

    ghost view = { λ it. it.attributes };
}

impl AttributeSpecifier {
    /// No attributes.
    pub fn new() -> AttributeSpecifier
        ensures { result ≡ [] }
    {
        AttributeSpecifier {
            attributes: AttributeSet::new(),
        }
    }

    /// With one more attribute. A builder that has 64 is handed back unchanged.
    ///
    /// Each call of a chain takes some 20 KB of stack; where there are many, call `try_define`.
    pub fn define(
        mut self,
        key: &AttributeKey,
        value: &AttributeValue,
    ) -> Result<AttributeSpecifier, DefinitionRefusal<AttributeSpecifier>>
        ensures room { IsOk result ↔ (length self < max_pairs) }
        ensures defined { IfOk result (λ it. it ≡ with_pair (pair key.now value.now) self) }
        ensures unchanged { IfErr result (λ refusal. refusal.builder ≡ self) }
    {
        match self.try_define(key, value) {
            Ok(()) => Ok(self),
            Err(error) => Err(DefinitionRefusal {
                builder: self,
                error,
            }),
        }
    }

    /// Adds an attribute. A builder that has 64 stays as it is.
    pub fn try_define(
        &mut self,
        key: &AttributeKey,
        value: &AttributeValue,
    ) -> Result<(), AttributeDefinitionError>
        ensures room { IsOk result ↔ (length self.old < max_pairs) }
        ensures defined { OnOk result (self.new ≡ with_pair (pair key.now value.now) self.old) }
        ensures unchanged { OnErr result (self.new ≡ self.old) }
    {
        if self.attributes.is_full() {
            return Err(AttributeDefinitionError::ExceedsMaxSupportedAttributes);
        }
        self.attributes.insert(&Attribute::new(key, value));
        Ok(())
    }

    /// The attributes that were defined.
    pub fn attributes(&self) -> &AttributeSet
        ensures { result.now ≡ self.now }
    {
        &self.attributes
    }
}

impl Default for AttributeSpecifier {
    ghost use Rattle.std.specs.Prelude.{◌≡◌, []};

    ghost is_default = { λ it. it ≡ [] };

    fn default() -> AttributeSpecifier {
        AttributeSpecifier::new()
    }
}
