//! What tells a registration.
use crate::roles::Role;
use iox_container::mpmc::container::ContainerHandle;
use std::marker::Model;

/// Tells what is registered with a service. No register gives a handle twice.
#[derive(Clone, Copy, Debug, PartialEq, Eq)]
pub struct RegistryHandle {
    pub(crate) service: u64,
    pub(crate) role: Role,
    pub(crate) ticket: u64,
    pub(crate) entry: ContainerHandle,
}

impl Model for RegistryHandle {
    ghost use Rattle.iox_registry.specs.Registers.{HandleView};
    ghost use Rattle.iox_registry.specs.Standing.{IsEntryOf, entry_handle, handle_in};

    ghost Value = { HandleView };

    ghost view = { λ it. handle_in it.service it.role it.ticket it.entry };

    ghost invariant = { λ it. IsEntryOf it.service it.ticket it.entry };

    ghost inverse = { λ handle. record {
      service = handle.service;
      role = handle.role;
      ticket = handle.ticket;
      entry = entry_handle handle;
    } };
}
