//! The settings of a service where nobody sets others, and those of a hub as it starts.
ghost use Rattle.std.specs.Prelude.{◌≡◌};
ghost use Rattle.iox_control.specs.Settings.{settings_of};
ghost use Rattle.iox_hub.specs.Starts.{default_settings, started};

use iox_control::Settings;
use iox_types::{AllocationStrategy, BackpressureStrategy};

/// The settings of a service where nobody sets others.
pub fn default_settings() -> Settings
    ensures { settings_of result ≡ default_settings }
{
    Settings {
        clients: 8,
        servers: 2,
        nodes: 20,
        active_requests: 4,
        loaned_requests: 2,
        response_buffer: 2,
        borrowed_responses: 2,
        loaned_responses: 2,
        client_expired: 128,
        server_expired: 128,
        request_overflow: true,
        response_overflow: true,
        fire_and_forget: true,
        client_strategy: BackpressureStrategy::RetryUntilDelivered,
        server_strategy: BackpressureStrategy::RetryUntilDelivered,
        client_allocation: AllocationStrategy::Static,
        server_allocation: AllocationStrategy::Static,
    }
}

/// Each limit of 0 is 1; those of what is kept of ports that are gone may be 0.
pub fn started(settings: Settings) -> Settings
    ensures { settings_of result ≡ started (settings_of settings) }
{
    Settings {
        clients: settings.clients.max(1),
        servers: settings.servers.max(1),
        nodes: settings.nodes.max(1),
        active_requests: settings.active_requests.max(1),
        loaned_requests: settings.loaned_requests.max(1),
        response_buffer: settings.response_buffer.max(1),
        borrowed_responses: settings.borrowed_responses.max(1),
        loaned_responses: settings.loaned_responses.max(1),
        ..settings
    }
}
