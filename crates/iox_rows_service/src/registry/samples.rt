//! Publishers and subscribers that come and go.
use super::details::{publisher, subscriber};
use super::{COME_AND_GO, DIE, Kind, Port, Register, plays_alone, tell};
use iox_registry::dynamic_config::publish_subscribe::DynamicConfig;
use iox_registry::{RegistryHandle, ReleaseError};
use iox_types::identifiers::UniqueNodeId;

impl Register for DynamicConfig {
    fn add(&mut self, kind: Kind, port: &Port) -> Option<RegistryHandle> {
        match kind {
            Kind::First => self.add_publisher_id(publisher(port)),
            Kind::Second => self.add_subscriber_id(subscriber(port)),
        }
    }

    fn release(&mut self, kind: Kind, handle: RegistryHandle) -> Result<(), ReleaseError> {
        match kind {
            Kind::First => self.release_publisher_handle(handle),
            Kind::Second => self.release_subscriber_handle(handle),
        }
    }

    fn tells(&self, kind: Kind, handle: RegistryHandle, port: Option<&Port>) -> bool {
        match (kind, port) {
            (Kind::First, Some(port)) => self.publisher_details(handle) == Some(publisher(port)),
            (Kind::First, None) => self.publisher_details(handle) == None,
            (Kind::Second, Some(port)) => self.subscriber_details(handle) == Some(subscriber(port)),
            (Kind::Second, None) => self.subscriber_details(handle) == None,
        }
    }

    fn number(&self, kind: Kind) -> usize {
        match kind {
            Kind::First => self.number_of_publishers(),
            Kind::Second => self.number_of_subscribers(),
        }
    }

    fn listed(&self, kind: Kind, stops: bool) -> u8 {
        let mut count = 0;
        match kind {
            Kind::First => self.list_publishers(|_| tell(&mut count, stops)),
            Kind::Second => self.list_subscribers(|_| tell(&mut count, stops)),
        }
        count
    }

    fn remove(&mut self, node: &UniqueNodeId) {
        self.remove_dead_node_id(node);
    }
}

#[test]
fn publishers_and_subscribers_come_and_go(rt: HostRuntime) {
    let full = DynamicConfig::new(rt.alloc(), 5, 2, 2);
    plays_alone(&rt, rt.alloc(), full, COME_AND_GO);
    let dying = DynamicConfig::new(rt.alloc(), 5, 2, 1);
    plays_alone(&rt, rt.alloc(), dying, DIE);
}
