//! The settings of services where nobody sets others.
ghost use Rattle.std.specs.Prelude.{◌≡◌};

pub use defaults::Defaults;
pub use global::Global;
pub use patterns::{Blackboard, Event, PublishSubscribe, RequestResonse};

mod defaults;
mod global;
mod patterns;

/// What all services share, and what each starts from.
#[derive(Clone, Copy, Debug, PartialEq, Eq)]
pub struct Config {
    /// What all services share: where their files lie.
    pub global: Global,
    /// What the settings of a service are where nobody sets others, by its messaging pattern.
    pub defaults: Defaults,
}

impl Default for Config {
    ghost use Rattle.iox_configs.specs.FirstSettings.{IsFirstConfig};

    ghost is_default = { λ it. IsFirstConfig it };

    fn default() -> Config {
        Config {
            global: Global::default(),
            defaults: Defaults::default(),
        }
    }
}
