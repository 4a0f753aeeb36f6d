//! What is registered with a blackboard service beside its nodes.
ghost use Rattle.std.specs.Prelude.{◌≡◌, ◌↔◌, IfErr, IfNone, IfOk, IfSome, IsSome, None, OnErr, OnOk, Some, length};
ghost use Rattle.std.specs.Fn.{CalledAt};
ghost use Rattle.iox_sets.specs.Refusals.{IsRefusal};
ghost use Rattle.iox_registry.specs.declared.refusals.RegistryNewError.TheVariants.{WantOfMemory};
ghost use Rattle.iox_registry.specs.declared.roles.Role.TheVariants.{Reader, Writer};
ghost use Rattle.iox_registry.specs.Registers.{Adds, KeepsOrLoses, Removes, add_refusal, details_of, limits_refusal, listed, new_register, recovered, release_refusal};
ghost use Rattle.iox_attributes.specs.Visits.{VisitsInOrder};

pub use crate::details::{ReaderDetails, WriterDetails};
use crate::handle::RegistryHandle;
use crate::refusals::{RegistryNewError, ReleaseError};
use crate::register::{Register, check_limit};
use crate::roles::Role;
use iox_types::identifiers::UniqueNodeId;
use iox_words::CallbackProgression;
use std::alloc::Global;
use std::marker::Model;

/// The readers and writers of a service. It has one writer at most. Memory is taken as it is
/// made, and never again.
#[derive(Debug, Drop)]
pub struct DynamicConfig {
    readers: Register<ReaderDetails>,
    writers: Register<WriterDetails>,
}

impl Model for DynamicConfig {
    ghost use Rattle.iox_registry.specs.RegisteredPorts.{BlackboardPorts};

    ghost Value = { BlackboardPorts };

    ghost view = { λ c. record { readers = c.readers; writers = c.writers } };
}

impl DynamicConfig {
    /// Makes registers without entries. A limit of 0 counts as 1.
    pub fn new(
        alloc: Global,
        service: u64,
        max_readers: usize,
    ) -> Result<DynamicConfig, RegistryNewError>
        ensures readers { IfOk result (λ c. c.readers ≡ new_register service Reader max_readers) }
        ensures writers { IfOk result (λ config. config.writers ≡ new_register service Writer 1) }
        ensures allowed { OnOk result (limits_refusal max_readers 1 ≡ None) }
        ensures refused { IfErr result (IsRefusal WantOfMemory (limits_refusal max_readers 1)) }
    {
        check_limit(max_readers)?;
        check_limit(1)?;
        Ok(DynamicConfig {
            readers: Register::new(alloc, service, Role::Reader, max_readers)?,
            writers: Register::new(alloc, service, Role::Writer, 1)?,
        })
    }

    /// Registers a reader, where there is room.
    pub fn add_reader_id(&mut self, details: ReaderDetails) -> Option<RegistryHandle>
        ensures added { IfSome result (λ h. Adds details self.old.readers h self.new.readers) }
        ensures has { IfSome result (λ handle. details_of self.new.readers handle ≡ Some details) }
        ensures handles { KeepsOrLoses self.old.readers self.new.readers }
        ensures succeeds { IsSome result ↔ add_refusal self.old.readers ≡ None }
        ensures unchanged { IfNone result (self.new ≡ self.old) }
        ensures others { self.new.writers ≡ self.old.writers }
    {
        self.readers.add(details).ok()
    }

    /// Releases what the handle of a reader tells.
    pub fn release_reader_handle(&mut self, handle: RegistryHandle) -> Result<(), ReleaseError>
        ensures released { OnOk result (Removes handle self.old.readers self.new.readers) }
        ensures gone { OnOk result (details_of self.new.readers handle ≡ None) }
        ensures handles { KeepsOrLoses self.old.readers self.new.readers }
        ensures refused { IfErr result (λ e. release_refusal self.old.readers handle ≡ Some e) }
        ensures unchanged { OnErr result (self.new ≡ self.old) }
        ensures others { self.new.writers ≡ self.old.writers }
    {
        self.readers.release(handle)
    }

    /// What the handle of a reader tells.
    pub fn reader_details(&self, handle: RegistryHandle) -> Option<ReaderDetails>
        ensures { result ≡ details_of self.now.readers handle }
    {
        self.readers.get(handle)
    }

    /// How many readers are registered.
    pub fn number_of_readers(&self) -> usize
        ensures { result ≡ length (listed self.now.readers) }
    {
        self.readers.len()
    }

    /// Calls `callback` with what is known about each reader, as far as it says `Continue`.
    pub fn list_readers<F: FnMut(&ReaderDetails) -> CallbackProgression>(&self, callback: F)
        requires { F.IsAlwaysCallable callback }
        ensures { VisitsInOrder (CalledAt F.FnMut) callback (listed self.now.readers) }
    {
        self.readers.list(callback)
    }

    /// Registers a writer, where there is room.
    pub fn add_writer_id(&mut self, details: WriterDetails) -> Option<RegistryHandle>
        ensures added { IfSome result (λ h. Adds details self.old.writers h self.new.writers) }
        ensures has { IfSome result (λ handle. details_of self.new.writers handle ≡ Some details) }
        ensures handles { KeepsOrLoses self.old.writers self.new.writers }
        ensures succeeds { IsSome result ↔ add_refusal self.old.writers ≡ None }
        ensures unchanged { IfNone result (self.new ≡ self.old) }
        ensures others { self.new.readers ≡ self.old.readers }
    {
        self.writers.add(details).ok()
    }

    /// Releases what the handle of a writer tells.
    pub fn release_writer_handle(&mut self, handle: RegistryHandle) -> Result<(), ReleaseError>
        ensures released { OnOk result (Removes handle self.old.writers self.new.writers) }
        ensures gone { OnOk result (details_of self.new.writers handle ≡ None) }
        ensures handles { KeepsOrLoses self.old.writers self.new.writers }
        ensures refused { IfErr result (λ e. release_refusal self.old.writers handle ≡ Some e) }
        ensures unchanged { OnErr result (self.new ≡ self.old) }
        ensures others { self.new.readers ≡ self.old.readers }
    {
        self.writers.release(handle)
    }

    /// What the handle of a writer tells.
    pub fn writer_details(&self, handle: RegistryHandle) -> Option<WriterDetails>
        ensures { result ≡ details_of self.now.writers handle }
    {
        self.writers.get(handle)
    }

    /// How many writers are registered.
    pub fn number_of_writers(&self) -> usize
        ensures { result ≡ length (listed self.now.writers) }
    {
        self.writers.len()
    }

    /// Calls `callback` with what is known about each writer, as far as it says `Continue`.
    pub fn list_writers<F: FnMut(&WriterDetails) -> CallbackProgression>(&self, callback: F)
        requires { F.IsAlwaysCallable callback }
        ensures { VisitsInOrder (CalledAt F.FnMut) callback (listed self.now.writers) }
    {
        self.writers.list(callback)
    }

    /// Releases all that a dead node had registered.
    pub fn remove_dead_node_id(&mut self, id: &UniqueNodeId)
        ensures readers { self.new.readers ≡ recovered (λ d. d.node_id) id.now self.old.readers }
        ensures writers { self.new.writers ≡ recovered (λ d. d.node_id) id.now self.old.writers }
        ensures reader_handles { KeepsOrLoses self.old.readers self.new.readers }
        ensures writer_handles { KeepsOrLoses self.old.writers self.new.writers }
    {
        self.readers.remove_node(*id);
        self.writers.remove_node(*id);
    }
}
