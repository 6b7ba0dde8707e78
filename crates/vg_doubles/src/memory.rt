//! Files in memory, which tell all that they hold and all that was made.
ghost use Rattle.std.specs.Prelude.{◌<◌, ◌^◌, All, vec_len};
ghost use Rattle.vg_doubles.specs.Pages.{HasMemory, IsReadable};

use crate::calls::Calls;
use crate::making::{append, start_writing};
use crate::named::Named;
use crate::pages::{Page, blank_pages, close_page, first_made};
use crate::reading::{read_on, start_reading};
use std::alloc::Global;
use vg_base::{Failed, Files};
use vg_parts::Memory;

/// Files in memory. Which of its calls fail can be known beforehand: the numbers of some are given, only so many files may
/// be opened and created, only so many bytes are taken for each, and a created name has at most 256 bytes.
#[derive(Drop)]
pub struct MemFiles {
    calls: Calls,
    held: Vec<Named>,
    pages: Vec<Page>,
    room: u64,
    read_faults: u64,
    write_faults: u64,
    shut_faults: u64,
    ghost few: { vec_len pages < 2 ^ 32 },
    ghost memory: { All (HasMemory room) pages.items },
    ghost readable: { All (IsReadable held.items) pages.items },
}

impl MemFiles {
    ghost use Rattle.std.specs.Prelude.{◌≡◌, IfOk, IsTrue, option_map};
    ghost use Rattle.vg_base.specs.Files.{IsFresh};
    ghost use Rattle.vg_doubles.specs.Named.{lookup};
    ghost use Rattle.vg_doubles.specs.Memory.{disk_of, plan_of, files_left, room_of};

    /// Files that can be read, by their names; of two with one name the first counts. `files` is how many may be opened
    /// and created in all, `room` how many bytes each created file takes, and the calls with the numbers `fails`, counted
    /// from 1, fail. All memory is taken here.
    pub fn new(
        alloc: Global,
        held: Vec<(String, Vec<u8>)>,
        files: u32,
        room: u64,
        fails: Vec<u64>,
    ) -> Result<MemFiles, Memory>
        ensures held { IfOk result (λ m. (disk_of m).held ≡ lookup held.items) }
        ensures told { IfOk result (λ m. IsTrue (disk_of m).tells_held × IsTrue (disk_of m).tells_made) }
        ensures fresh { IfOk result (λ m. IsFresh (disk_of m)) }
        ensures plan { IfOk result (λ m. plan_of m ≡ record { calls = 0; fails = fails.items }) }
        ensures files { IfOk result (λ m. files_left m ≡ files) }
        ensures room { IfOk result (λ m. room_of m ≡ room) }
    {
        let pages = blank_pages(alloc, files, room)?;
        Ok(MemFiles {
            calls: Calls::new(fails),
            held,
            pages,
            room,
            read_faults: 0,
            write_faults: 0,
            shut_faults: 0,
        })
    }

    /// What was written under a name, or nothing where it was never created.
    pub fn written(&self, name: &str) -> Option<&[u8]>
        ensures { option_map (λ bytes. bytes.now) result ≡ (disk_of self.now).made name.now }
    {
        let i = first_made(self.pages.as_slice(), name)?;
        Some(self.pages[i].bytes.as_slice())
    }
}

impl Files for MemFiles {
    ghost use Rattle.std.specs.Prelude.{◌≡◌, is_err, IfOk, IsSome};
    ghost use Rattle.vg_base.specs.Files.{Reads, Writes, IsOpen, OpensRead, ReadsNext, Creates, WritesSome, Closes, made_behind};
    ghost use Rattle.vg_doubles.specs.Plan.{open_fails, create_fails, write_fails, is_next_named, later, taken, OneLess};
    ghost use Rattle.vg_doubles.specs.Memory.{disk_of, plan_of, files_left, room_of};

    ghost disk = { disk_of };

    fn open_read(&mut self, name: &str) -> Result<u32, Failed>
        ensures opens { OpensRead (disk_of self.old) (disk_of self.new) name.now result }
        ensures fails { is_err result ≡ open_fails (plan_of self.old) (files_left self.old) ((disk_of self.old).held name.now) }
        ensures plan { plan_of self.new ≡ later (plan_of self.old) }
        ensures left { OneLess (files_left self.old) (files_left self.new) result }
        ensures room { room_of self.new ≡ room_of self.old }
    {
        if !self.calls.next_fails() {
            if let Some(id) = start_reading(self.held.as_slice(), &mut self.pages, name) {
                return Ok(id);
            }
        }
        self.read_faults = self.read_faults.saturating_add(1);
        Err(Failed)
    }

    fn read(&mut self, id: u32, into: &mut [u8]) -> Result<usize, Failed>
        requires { IsOpen Reads ((disk_of self.old).opened id) }
        ensures reads { ReadsNext (disk_of self.old) (disk_of self.new) id into.new result }
        ensures fails { is_err result ≡ is_next_named (plan_of self.old) }
        ensures plan { plan_of self.new ≡ later (plan_of self.old) }
        ensures left { files_left self.new ≡ files_left self.old }
        ensures room { room_of self.new ≡ room_of self.old }
    {
        if !self.calls.next_fails() {
            return Ok(read_on(self.held.as_slice(), &mut self.pages, id, into));
        }
        self.read_faults = self.read_faults.saturating_add(1);
        Err(Failed)
    }

    fn create(&mut self, name: &str) -> Result<u32, Failed>
        ensures creates { Creates (disk_of self.old) (disk_of self.new) name.now result }
        ensures fails { is_err result ≡ create_fails (plan_of self.old) (files_left self.old) name.now }
        ensures plan { plan_of self.new ≡ later (plan_of self.old) }
        ensures left { OneLess (files_left self.old) (files_left self.new) result }
        ensures room { room_of self.new ≡ room_of self.old }
    {
        if !self.calls.next_fails() {
            if let Some(id) = start_writing(&mut self.pages, name, self.room) {
                return Ok(id);
            }
        }
        self.write_faults = self.write_faults.saturating_add(1);
        Err(Failed)
    }

    fn write(&mut self, id: u32, piece: &[u8]) -> Result<usize, Failed>
        requires { IsOpen Writes ((disk_of self.old).opened id) }
        ensures writes { WritesSome (disk_of self.old) (disk_of self.new) id piece.now result }
        ensures fails { is_err result ≡ write_fails (plan_of self.old) (room_of self.old) (made_behind (disk_of self.old) id) piece.now }
        ensures taken { IfOk result (λ n. n ≡ taken (room_of self.old) (made_behind (disk_of self.old) id) piece.now) }
        ensures plan { plan_of self.new ≡ later (plan_of self.old) }
        ensures left { files_left self.new ≡ files_left self.old }
        ensures room { room_of self.new ≡ room_of self.old }
    {
        if !self.calls.next_fails() {
            if let Some(n) = append(&mut self.pages, id, piece, self.room) {
                return Ok(n);
            }
        }
        self.write_faults = self.write_faults.saturating_add(1);
        Err(Failed)
    }

    fn close(&mut self, id: u32) -> Result<(), Failed>
        requires { IsSome ((disk_of self.old).opened id) }
        ensures closes { Closes (disk_of self.old) (disk_of self.new) id result }
        ensures fails { is_err result ≡ is_next_named (plan_of self.old) }
        ensures plan { plan_of self.new ≡ later (plan_of self.old) }
        ensures left { files_left self.new ≡ files_left self.old }
        ensures room { room_of self.new ≡ room_of self.old }
    {
        let fails = self.calls.next_fails();
        let reads = close_page(&mut self.pages, id);
        if !fails {
            return Ok(());
        }
        if reads {
            self.shut_faults = self.shut_faults.saturating_add(1);
        } else {
            self.write_faults = self.write_faults.saturating_add(1);
        }
        Err(Failed)
    }
}
