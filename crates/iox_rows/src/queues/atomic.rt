ghost use Rattle.std.specs.Prelude.{◌≡◌, ◌-◌, true};
ghost use Rattle.iox_queues.specs.Values.{last_store};

use crate::expected::{equal, holds};
use iox_queues::spmc::unrestricted_atomic::UnrestrictedAtomic;

/// What is loaded once the producer is gone is what it stored last.
fn stored_twice() -> u64
    ensures { result ≡ 7 }
{
    let mut atomic = UnrestrictedAtomic::new(1u64);
    match atomic.acquire_producer() {
        Some(mut producer) => {
            let _changed = producer.store(5);
            let _changed = producer.store(7);
        }
        None => unreachable!(),
    }
    atomic.load()
}

/// Whether a value is stored.
fn stores(atomic: &mut UnrestrictedAtomic<u128>, value: u128) -> bool {
    match atomic.acquire_producer() {
        Some(mut producer) => producer.store(value),
        None => false,
    }
}

#[test]
fn the_last_store_is_loaded(rt: HostRuntime) {
    equal(&rt, stored_twice(), 7);
    let mut atomic = UnrestrictedAtomic::new(3u128);
    equal(&rt, atomic.load(), 3);
    holds(&rt, stores(&mut atomic, u128::MAX));
    equal(&rt, atomic.load(), u128::MAX);
}

/// After the last store there is none. No test comes there, so this is proved.
pub fn after_the_last_store_there_is_none(atomic: &mut UnrestrictedAtomic<bool>)
    requires last { atomic.old.stores ≡ last_store - 1 }
    ensures left { atomic.new ≡ record { value = true; stores = last_store } }
{
    match atomic.acquire_producer() {
        Some(mut producer) => {
            let stored = producer.store(true);
            prove!(stored);
            let refused = !producer.store(false);
            prove!(refused);
        }
        None => unreachable!(),
    }
    let loaded = atomic.load();
    prove!(loaded);
}
