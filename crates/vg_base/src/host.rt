//! The real files and standard output. They tell no bytes: what the system does with them is trusted.
ghost use Rattle.std.specs.Prelude.{false, None};
ghost use Rattle.vg_base.specs.Handle.{opened_at, open_handles};
ghost use Rattle.vg_base.specs.Files.{IsFresh};

use crate::faults::Failed;
use crate::files::Files;
use crate::handles::{Handle, add_handle, close_handle, read_handle, write_handle};
use std::alloc::Global;
use std::fs;
use std::rt::Files as System;

/// The files of the system, by their paths. Memory that is refused counts as a fault of the call.
#[derive(Drop)]
pub struct HostFiles<R: System> {
    system: R,
    handles: Vec<Handle<R::File>>,
    read_faults: u64,
    write_faults: u64,
}

impl<R: System> HostFiles<R> {
    /// The files of this system, of which none is open so far.
    pub fn new(alloc: Global, system: R) -> Self
        ensures { IsFresh (⟦<HostFiles<R> as Files>⟧.disk result) }
    {
        HostFiles {
            system,
            handles: Vec::new(alloc),
            read_faults: 0,
            write_faults: 0,
        }
    }
}

impl<R: System> Files for HostFiles<R> {
    ghost disk = { λ h. record {
      read_faults = h.read_faults;
      write_faults = h.write_faults;
      shut_faults = 0;
      tells_held = false;
      held = λ _. None;
      tells_made = false;
      made = λ _. None;
      opened = opened_at h.handles.items;
      open_count = open_handles h.handles.items;
    } };

    fn open_read(&mut self, name: &str) -> Result<u32, Failed> {
        if let Ok(file) = fs::open(&self.system, name) {
            if let Some(id) = add_handle(&mut self.handles, Handle::Reading(file)) {
                return Ok(id);
            }
        }
        self.read_faults = self.read_faults.saturating_add(1);
        Err(Failed)
    }

    fn read(&mut self, id: u32, into: &mut [u8]) -> Result<usize, Failed> {
        match read_handle(&mut self.handles, id, into) {
            Some(n) => Ok(n),
            None => {
                self.read_faults = self.read_faults.saturating_add(1);
                Err(Failed)
            }
        }
    }

    fn create(&mut self, name: &str) -> Result<u32, Failed> {
        if let Ok(file) = fs::create(&self.system, name) {
            if let Some(id) = add_handle(&mut self.handles, Handle::Writing(file)) {
                return Ok(id);
            }
        }
        self.write_faults = self.write_faults.saturating_add(1);
        Err(Failed)
    }

    fn write(&mut self, id: u32, piece: &[u8]) -> Result<usize, Failed> {
        match write_handle(&mut self.handles, id, piece) {
            Some(n) if n > 0 || piece.is_empty() => Ok(n),
            _ => {
                self.write_faults = self.write_faults.saturating_add(1);
                Err(Failed)
            }
        }
    }

    /// Never fails: a file of the system is closed by letting go of it, and whether that failed is not told.
    fn close(&mut self, id: u32) -> Result<(), Failed> {
        close_handle(&mut self.handles, id);
        Ok(())
    }
}
