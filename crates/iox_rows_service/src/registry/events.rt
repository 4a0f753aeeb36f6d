//! Notifiers and listeners that come and go.
use super::details::{listener, notifier};
use super::{COME_AND_GO, DIE, Deed, Kind, Port, Register, plays, plays_alone, tell};
use crate::expected::equal;
use iox_registry::dynamic_config::event::DynamicConfig;
use iox_registry::{RegistryHandle, RegistryNewError, ReleaseError};
use iox_types::identifiers::UniqueNodeId;

impl Register for DynamicConfig {
    fn add(&mut self, kind: Kind, port: &Port) -> Option<RegistryHandle> {
        match kind {
            Kind::First => self.add_notifier_id(notifier(port)),
            Kind::Second => self.add_listener_id(listener(port)),
        }
    }

    fn release(&mut self, kind: Kind, handle: RegistryHandle) -> Result<(), ReleaseError> {
        match kind {
            Kind::First => self.release_notifier_handle(handle),
            Kind::Second => self.release_listener_handle(handle),
        }
    }

    fn tells(&self, kind: Kind, handle: RegistryHandle, port: Option<&Port>) -> bool {
        match (kind, port) {
            (Kind::First, Some(port)) => self.notifier_details(handle) == Some(notifier(port)),
            (Kind::First, None) => self.notifier_details(handle) == None,
            (Kind::Second, Some(port)) => self.listener_details(handle) == Some(listener(port)),
            (Kind::Second, None) => self.listener_details(handle) == None,
        }
    }

    fn number(&self, kind: Kind) -> usize {
        match kind {
            Kind::First => self.number_of_notifiers(),
            Kind::Second => self.number_of_listeners(),
        }
    }

    fn listed(&self, kind: Kind, stops: bool) -> u8 {
        let mut count = 0;
        match kind {
            Kind::First => self.list_notifiers(|_| tell(&mut count, stops)),
            Kind::Second => self.list_listeners(|_| tell(&mut count, stops)),
        }
        count
    }

    fn remove(&mut self, node: &UniqueNodeId) {
        self.remove_dead_node_id(node);
    }
}

#[test]
fn notifiers_and_listeners_come_and_go(rt: HostRuntime) {
    let full = DynamicConfig::new(rt.alloc(), 5, 2, 2);
    plays_alone(&rt, rt.alloc(), full, COME_AND_GO);
    let dying = DynamicConfig::new(rt.alloc(), 5, 2, 1);
    plays_alone(&rt, rt.alloc(), dying, DIE);
}

#[test]
fn a_handle_of_another_service_is_foreign(rt: HostRuntime) {
    const COME: &[Deed] = &[Deed::Add(Kind::First, 1)];
    const REFUSE: &[Deed] = &[
        Deed::Add(Kind::First, 1),
        Deed::Release(Kind::First, 0, Err(ReleaseError::Foreign)),
        Deed::Forgets(Kind::First, 0),
        Deed::Number(Kind::First, 1),
    ];
    let mut handles = Vec::new(rt.alloc());
    let other = DynamicConfig::new(rt.alloc(), 5, 1, 1);
    plays(&rt, &mut handles, other, COME);
    let config = DynamicConfig::new(rt.alloc(), 6, 1, 1);
    plays(&rt, &mut handles, config, REFUSE);
}

#[test]
fn a_limit_past_the_largest_is_refused(rt: HostRuntime) {
    let refused = DynamicConfig::new(rt.alloc(), 5, 1, 1 << 24).err();
    equal(&rt, refused, Some(RegistryNewError::LimitTooLarge));
}
