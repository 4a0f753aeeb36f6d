//! Names of services.
pub use iox_names::{INTERNAL_SERVICE_PREFIX, ServiceName, ServiceNameError};
