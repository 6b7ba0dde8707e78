//! Ids as places in a list of handles, each with a file of the system. No place is used twice.
ghost use Rattle.std.specs.Prelude.{◌≡◌, ◌≤◌, ◌<◌, ◌+◌, ◌≢◌, ℕ, [], None, length, IfSome, IsSome, OnSome, IfNone};
ghost use Rattle.vg_base.specs.Files.{Reads, Writes, IsOpen};
ghost use Rattle.vg_base.specs.Handle.{opened_at, open_handles, seen, weight};

use std::io::{Read, Write};

/// The file of an id.
#[derive(Drop)]
pub enum Handle<T> {
    Reading(T),
    Writing(T),
    Closed,
}

/// The place of a new handle, or nothing where there is no memory or number for it.
pub fn add_handle<T: Drop>(handles: &mut Vec<Handle<T>>, handle: Handle<T>) -> Option<u32>
    ensures was { IfSome result (λ id. opened_at handles.old.items id ≡ None) }
    ensures now { IfSome result (λ id. opened_at handles.new.items id ≡ seen handle) }
    ensures others { IfSome result (λ id. (j : ℕ) → j ≢ id → opened_at handles.new.items j ≡ opened_at handles.old.items j) }
    ensures count { OnSome result (open_handles handles.new.items ≡ open_handles handles.old.items + weight handle) }
    ensures none { IfNone result (handles.new.items ≡ handles.old.items) }
{
    let id = handles.len();
    if id < 0xffff_ffff && handles.push(handle).is_ok() {
        return Some(id as u32);
    }
    None
}

/// Reads from a file as much as the system gives, or nothing where it fails.
pub fn read_handle<T: Read + Drop>(
    handles: &mut Vec<Handle<T>>,
    id: u32,
    into: &mut [u8],
) -> Option<usize>
    requires { IsOpen Reads (opened_at handles.old.items id) }
    ensures opened { opened_at handles.new.items ≡ opened_at handles.old.items }
    ensures count { open_handles handles.new.items ≡ open_handles handles.old.items }
    ensures within { IfSome result (λ n. n ≤ length into.old) }
{
    match &mut handles[id as usize] {
        Handle::Reading(file) => file.read(into).ok(),
        _ => None,
    }
}

/// Writes to a file as much as the system takes, or nothing where it fails.
pub fn write_handle<T: Write + Drop>(
    handles: &mut Vec<Handle<T>>,
    id: u32,
    piece: &[u8],
) -> Option<usize>
    requires { IsOpen Writes (opened_at handles.old.items id) }
    ensures opened { opened_at handles.new.items ≡ opened_at handles.old.items }
    ensures count { open_handles handles.new.items ≡ open_handles handles.old.items }
    ensures within { IfSome result (λ n. n ≤ length piece.now) }
{
    match &mut handles[id as usize] {
        Handle::Writing(file) => file.write(piece).ok(),
        _ => None,
    }
}

/// Lets go of a file, which closes it.
pub fn close_handle<T: Drop>(handles: &mut Vec<Handle<T>>, id: u32)
    requires { IsSome (opened_at handles.old.items id) }
    ensures now { opened_at handles.new.items id ≡ None }
    ensures others { (j : ℕ) → j ≢ id → opened_at handles.new.items j ≡ opened_at handles.old.items j }
    ensures count { open_handles handles.new.items + 1 ≡ open_handles handles.old.items }
{
    handles[id as usize] = Handle::Closed;
}
