//! Laws of the words that the contracts cite: functions that do nothing, whose contracts are the
//! laws.
pub use iox_attributes::laws as attributes;
pub use iox_names::laws as names;
pub use iox_registry::laws as registry;
pub use iox_types::laws as types;
