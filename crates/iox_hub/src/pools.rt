//! What is asked of a new port, by its options and the settings.
ghost use Rattle.std.specs.Prelude.{ℕ, ◌≡◌, ◌+◌, ◌-◌, ◌*◌, ◌^◌, ◌||◌, if◌then◌else◌, max, min, not, nat_le, nat_lt, unwrap_or};
ghost use Rattle.std.specs.Option.{option_map_or};
ghost use Rattle.iox_types.specs.Layouts.{as_usize};
ghost use Rattle.iox_types.specs.PoolSizes.{client_pool, server_pool};
ghost use Rattle.iox_model.specs.Makings.{allocation_of, chosen_pool, loans_of_one, strategy_of, worst_pool};
ghost use Rattle.iox_model.specs.Settings.{is_static, shape_of};
ghost use Rattle.iox_tables.specs.HubStates.States.{Given, limits_of};
ghost use Rattle.iox_tables.specs.HubMaking.Starts.{no_ports};
ghost use Rattle.iox_control.specs.Settings.{settings_of};
ghost use Rattle.iox_control_making.specs.Making.{AsksFor};
ghost use Rattle.iox_hub.specs.Making.{IsFormOf, options_of};

use crate::options::Options;
use crate::shape::Part;
use crate::sizes::{message_size, number, product, sum};
use iox_control::Settings;
use iox_control_making::Asked;
use iox_model::kind::Role;
use iox_types::backpressure::{AllocationStrategy, BackpressureStrategy};

/// What the size of a port depends on, of the messages of its role: whether a message may have any
/// number of elements, and its parts.
#[derive(Clone, Copy, Debug, PartialEq, Eq)]
pub(crate) struct Form {
    pub(crate) many: bool,
    pub(crate) header: Part,
    pub(crate) user: Part,
    pub(crate) element: Part,
}

/// A port that is too large; nothing else is said of it.
const LARGE: Asked = Asked {
    large: true,
    size: 0,
    longest: 0,
    grows: false,
    strategy: BackpressureStrategy::DiscardData,
    loaned_responses: 0,
};

/// The most messages that a client needs.
fn most_of_client(settings: Settings) -> Option<usize>
    ensures { result ≡ as_usize
        (client_pool settings.loaned_requests settings.active_requests settings.servers) }
{
    let active = settings.active_requests;
    active
        .checked_mul(settings.servers as usize)?
        .checked_mul(2)?
        .checked_add(active)?
        .checked_add(settings.loaned_requests)
}

/// The most messages that a server needs, with so many loans of one request.
fn most_of_server(settings: Settings, loans: u64) -> Option<usize>
    ensures { result ≡ as_usize (server_pool loans settings.active_requests settings.clients
        (client_pool settings.loaned_requests settings.active_requests settings.servers)
        (settings.response_buffer + settings.borrowed_responses)) }
{
    let clients = number(settings.clients as usize);
    let active = product(number(loans as usize), number(settings.active_requests));
    let lanes = most_of_client(settings);
    let each = sum(
        number(settings.response_buffer),
        number(settings.borrowed_responses),
    );
    sum(
        product(active, clients),
        product(product(clients, lanes), each),
    )
}

/// How many loans one request may have.
fn loans_of_one(settings: Settings, options: Options) -> u64
    ensures { (x : Given) → result
        ≡ loans_of_one (limits_of x (no_ports (settings_of settings))) (options_of options) }
{
    options
        .loaned_responses
        .unwrap_or(settings.loaned_responses)
        .max(1)
}

/// The most messages that a port of that role needs.
pub(crate) fn worst_pool(settings: Settings, role: Role, options: Options) -> Option<usize>
    ensures { (x : Given) → result ≡ as_usize
        (worst_pool (limits_of x (no_ports (settings_of settings))) role (options_of options)) }
{
    match role {
        Role::Client => most_of_client(settings),
        Role::Server => most_of_server(settings, loans_of_one(settings, options)),
    }
}

/// The pool that was chosen, where so many messages are the most that are needed.
pub(crate) fn chosen(worst: usize, pool: Option<u64>) -> usize
    ensures { result ≡ option_map_or (λ n. max 1 (min n worst)) pool worst }
{
    match pool {
        Some(size) => (size as usize).min(worst).max(1),
        None => worst,
    }
}

/// Whether a port's messages grow past the greatest length.
fn grows(settings: Settings, role: Role, options: Options) -> bool
    ensures { (x : Given) → result ≡ not (is_static (unwrap_or options.allocation
        (allocation_of (limits_of x (no_ports (settings_of settings))) role))) }
{
    let service = match role {
        Role::Client => settings.client_allocation,
        Role::Server => settings.server_allocation,
    };
    match options.allocation.unwrap_or(service) {
        AllocationStrategy::Static => false,
        AllocationStrategy::BestFit | AllocationStrategy::PowerOfTwo => true,
    }
}

/// What a port does at a full receiver.
fn strategy(settings: Settings, role: Role, options: Options) -> BackpressureStrategy
    ensures { (x : Given) → result ≡ unwrap_or options.strategy
        (strategy_of (limits_of x (no_ports (settings_of settings))) role) }
{
    let service = match role {
        Role::Client => settings.client_strategy,
        Role::Server => settings.server_strategy,
    };
    options.strategy.unwrap_or(service)
}

/// The greatest length of a port's messages: 1 where an element is a message.
fn longest_of(form: Form, options: Options) -> u64
    ensures { result ≡ (if form.many then options.max_slice_len else 1) }
{
    if form.many {
        return options.max_slice_len;
    }
    1
}

/// Whether a pool of so many messages may be, each of so many bytes.
fn may_be(size: usize, bytes: Option<usize>) -> bool
    ensures { (n : ℕ) → bytes ≡ as_usize n → not result ≡ (nat_lt (2 ^ 24 - 2) size
        || (not (nat_lt n (2 ^ 63)) || nat_le (2 ^ 64) (size * n))) }
{
    match bytes {
        Some(bytes) => {
            size <= (1 << 24) - 2 && bytes < 1 << 63 && size.checked_mul(bytes).is_some()
        }
        None => false,
    }
}

/// What the options ask for, where messages have that form.
pub(crate) fn asked_of(settings: Settings, form: Form, role: Role, options: Options) -> Asked
    ensures { (x : Given)
        → IsFormOf form (shape_of (limits_of x (no_ports (settings_of settings))) role)
        → AsksFor x (no_ports (settings_of settings)) role (options_of options) result }
{
    let Some(worst) = worst_pool(settings, role, options) else {
        return LARGE;
    };
    let size = chosen(worst, options.pool);
    let longest = longest_of(form, options);
    let bytes = message_size(form.header, form.user, form.element, longest as usize);
    if may_be(size, bytes) {
        return Asked {
            large: false,
            size,
            longest,
            grows: grows(settings, role, options),
            strategy: strategy(settings, role, options),
            loaned_responses: loans_of_one(settings, options),
        };
    }
    LARGE
}
