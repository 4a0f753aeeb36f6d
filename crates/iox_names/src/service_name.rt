//! The name of a service.
ghost use Rattle.std.specs.Prelude.{◌≡◌, ◌++◌, IfErr, IfOk, Some, None};

use crate::bounded_name::BoundedName;
use crate::service_name_error::ServiceNameError;
use std::convert::AsStr;
use std::fmt;
use std::marker::Model;
use std::ops::DerefStr;

/// What the names of internal services begin with.
pub const INTERNAL_SERVICE_PREFIX: &str = "iox2://";

/// The name of a service: 1 to 255 bytes, each from 1 to 127.
///
/// Names are compared, ordered and hashed by their bytes.
#[derive(Clone, Copy, PartialEq, Eq, PartialOrd, Ord, Hash)]
pub struct ServiceName {
    name: BoundedName<255>,
}

impl Model for ServiceName {
    ghost use Rattle.std.specs.Prelude.{ℕ, List};

    ghost Value = { List ℕ };

    ghost view = { λ it. it.name };

    ghost inverse = { λ name. record { name = name } };
}

impl ServiceName {
    ghost use Rattle.iox_names.specs.Names.{name_refusal};
    ghost use Rattle.iox_names.specs.ServiceNames.{has_internal_prefix, internal_prefix};
    ghost use Rattle.iox_names.specs.ServiceNames.{max_service_name_length, service_name_refusal};

    /// That name, which may not begin as the names of internal services do.
    pub fn new(name: &str) -> Result<ServiceName, ServiceNameError>
        ensures made { IfOk result (λ it. it ≡ name.now) }
        ensures allowed { IfOk result (λ _. service_name_refusal name.now ≡ None) }
        ensures refused { IfErr result (λ e. service_name_refusal name.now ≡ Some e) }
    {
        let made = ServiceName::internal_new(name)?;
        if ServiceName::has_iox2_prefix(name) {
            return Err(ServiceNameError::InvalidContent);
        }
        Ok(made)
    }

    /// That name, which may be an internal service's.
    pub fn internal_new(name: &str) -> Result<ServiceName, ServiceNameError>
        ensures made { IfOk result (λ it. it ≡ name.now) }
        ensures allowed { IfOk result (λ _. name_refusal max_service_name_length name.now ≡ None) }
        ensures refused { IfErr result (λ e.
            name_refusal max_service_name_length name.now ≡ Some e) }
    {
        let name = BoundedName::new(name)?;
        Ok(ServiceName { name })
    }

    /// The name of an internal service: the prefix stands before that text.
    pub fn internal_new_prefixed(name: &str) -> Result<ServiceName, ServiceNameError>
        ensures made { IfOk result (λ it. it ≡ internal_prefix ++ name.now) }
        ensures allowed { IfOk result (λ _.
            name_refusal max_service_name_length (internal_prefix ++ name.now) ≡ None) }
        ensures refused { IfErr result (λ e.
            name_refusal max_service_name_length (internal_prefix ++ name.now) ≡ Some e) }
    {
        let name = BoundedName::joined(INTERNAL_SERVICE_PREFIX, name)?;
        Ok(ServiceName { name })
    }

    /// The name as text.
    pub fn as_str(&self) -> &str
        ensures value { result.now ≡ self.now }
        ensures name { name_refusal max_service_name_length self.now ≡ None }
    {
        self.name.as_str()
    }

    /// Whether a name begins as the names of internal services do.
    pub fn has_iox2_prefix(name: &str) -> bool
        ensures { result ≡ has_internal_prefix name.now }
    {
        name.as_bytes()
            .starts_with(INTERNAL_SERVICE_PREFIX.as_bytes())
    }

    /// How many bytes a name has at most.
    pub fn max_len() -> usize
        ensures { result ≡ max_service_name_length }
    {
        255
    }
}

impl TryFrom<&str> for ServiceName {
    ghost use Rattle.std.specs.Prelude.{◌≡◌, MatchResult, Some, None};
    ghost use Rattle.iox_names.specs.ServiceNames.{service_name_refusal};

    type Error = ServiceNameError;

    ghost try_from_gives = { λ name result. MatchResult result
        (λ it. (it ≡ name.now) × (service_name_refusal name.now ≡ None))
        (λ e. service_name_refusal name.now ≡ Some e) };

    fn try_from(name: &str) -> Result<ServiceName, ServiceNameError> {
        ServiceName::new(name)
    }
}

impl AsStr for ServiceName {
    ghost text = { λ it. it };

    fn as_str(&self) -> &str {
        self.as_str()
    }
}

impl DerefStr for ServiceName {
    ghost use Rattle.std.specs.Prelude.{◌≡◌};

    ghost deref_gives = { λ it bytes. bytes ≡ it };

    fn deref(&self) -> &str {
        self.as_str()
    }
}

impl fmt::Debug for ServiceName {
    fn fmt<W: fmt::Write>(&self, f: &mut fmt::Formatter<W>) -> fmt::Result {
        fmt::Debug::fmt(&self.as_str(), f)
    }
}

impl fmt::Display for ServiceName {
    ghost use Rattle.std.specs.Prelude.{Some};

    ghost output = { λ it. Some it };

    fn fmt<W: fmt::Write>(&self, f: &mut fmt::Formatter<W>) -> fmt::Result {
        f.pad(self.as_str())
    }
}
