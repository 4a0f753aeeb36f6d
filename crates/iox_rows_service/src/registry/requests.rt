//! Clients and servers that come and go.
use super::details::{client, server};
use super::{COME_AND_GO, DIE, Kind, Port, Register, plays_alone, tell};
use iox_registry::dynamic_config::request_response::DynamicConfig;
use iox_registry::{RegistryHandle, ReleaseError};
use iox_types::identifiers::UniqueNodeId;

impl Register for DynamicConfig {
    fn add(&mut self, kind: Kind, port: &Port) -> Option<RegistryHandle> {
        match kind {
            Kind::First => self.add_client_id(client(port)),
            Kind::Second => self.add_server_id(server(port)),
        }
    }

    fn release(&mut self, kind: Kind, handle: RegistryHandle) -> Result<(), ReleaseError> {
        match kind {
            Kind::First => self.release_client_handle(handle),
            Kind::Second => self.release_server_handle(handle),
        }
    }

    fn tells(&self, kind: Kind, handle: RegistryHandle, port: Option<&Port>) -> bool {
        match (kind, port) {
            (Kind::First, Some(port)) => self.client_details(handle) == Some(client(port)),
            (Kind::First, None) => self.client_details(handle) == None,
            (Kind::Second, Some(port)) => self.server_details(handle) == Some(server(port)),
            (Kind::Second, None) => self.server_details(handle) == None,
        }
    }

    fn number(&self, kind: Kind) -> usize {
        match kind {
            Kind::First => self.number_of_clients(),
            Kind::Second => self.number_of_servers(),
        }
    }

    fn listed(&self, kind: Kind, stops: bool) -> u8 {
        let mut count = 0;
        match kind {
            Kind::First => self.list_clients(|_| tell(&mut count, stops)),
            Kind::Second => self.list_servers(|_| tell(&mut count, stops)),
        }
        count
    }

    fn remove(&mut self, node: &UniqueNodeId) {
        self.remove_dead_node_id(node);
    }
}

#[test]
fn clients_and_servers_come_and_go(rt: HostRuntime) {
    let full = DynamicConfig::new(rt.alloc(), 5, 2, 2);
    plays_alone(&rt, rt.alloc(), full, COME_AND_GO);
    let dying = DynamicConfig::new(rt.alloc(), 5, 2, 1);
    plays_alone(&rt, rt.alloc(), dying, DIE);
}
