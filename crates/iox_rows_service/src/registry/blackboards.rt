//! Readers and writers that come and go.
use super::details::{reader, writer};
use super::{DIE, Deed, Kind, Port, Register, plays_alone, tell};
use iox_registry::dynamic_config::blackboard::DynamicConfig;
use iox_registry::{RegistryHandle, ReleaseError};
use iox_types::identifiers::UniqueNodeId;

impl Register for DynamicConfig {
    fn add(&mut self, kind: Kind, port: &Port) -> Option<RegistryHandle> {
        match kind {
            Kind::First => self.add_reader_id(reader(port)),
            Kind::Second => self.add_writer_id(writer(port)),
        }
    }

    fn release(&mut self, kind: Kind, handle: RegistryHandle) -> Result<(), ReleaseError> {
        match kind {
            Kind::First => self.release_reader_handle(handle),
            Kind::Second => self.release_writer_handle(handle),
        }
    }

    fn tells(&self, kind: Kind, handle: RegistryHandle, port: Option<&Port>) -> bool {
        match (kind, port) {
            (Kind::First, Some(port)) => self.reader_details(handle) == Some(reader(port)),
            (Kind::First, None) => self.reader_details(handle) == None,
            (Kind::Second, Some(port)) => self.writer_details(handle) == Some(writer(port)),
            (Kind::Second, None) => self.writer_details(handle) == None,
        }
    }

    fn number(&self, kind: Kind) -> usize {
        match kind {
            Kind::First => self.number_of_readers(),
            Kind::Second => self.number_of_writers(),
        }
    }

    fn listed(&self, kind: Kind, stops: bool) -> u8 {
        let mut count = 0;
        match kind {
            Kind::First => self.list_readers(|_| tell(&mut count, stops)),
            Kind::Second => self.list_writers(|_| tell(&mut count, stops)),
        }
        count
    }

    fn remove(&mut self, node: &UniqueNodeId) {
        self.remove_dead_node_id(node);
    }
}

use Kind::{First, Second};

/// Two readers and the writer come and go, as many as there may be.
const COME_AND_GO: &[Deed] = &[
    Deed::Add(First, 1),
    Deed::Add(First, 2),
    Deed::Add(Second, 1),
    Deed::Full(First, 3),
    Deed::Full(Second, 2),
    Deed::Number(First, 2),
    Deed::Number(Second, 1),
    Deed::Tells(First, 1, 2),
    Deed::Tells(Second, 2, 1),
    Deed::Release(First, 2, Err(ReleaseError::Foreign)),
    Deed::Release(Second, 0, Err(ReleaseError::Foreign)),
    Deed::Listed(First, true, 1),
    Deed::Listed(Second, false, 1),
    Deed::Release(First, 1, Ok(())),
    Deed::Release(First, 1, Err(ReleaseError::Spent)),
    Deed::Forgets(First, 1),
    Deed::Release(Second, 2, Ok(())),
];

#[test]
fn readers_and_writers_come_and_go(rt: HostRuntime) {
    let full = DynamicConfig::new(rt.alloc(), 5, 2);
    plays_alone(&rt, rt.alloc(), full, COME_AND_GO);
    let dying = DynamicConfig::new(rt.alloc(), 5, 2);
    plays_alone(&rt, rt.alloc(), dying, DIE);
}
