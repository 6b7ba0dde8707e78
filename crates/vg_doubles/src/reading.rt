//! Reading files in memory by the ids of pages.
ghost use Rattle.std.specs.Prelude.{◌≡◌, ◌<◌, ◌≤◌, ◌-◌, ◌^◌, ◌||◌, true, All, length, min, nat_eq, is_none, IfSome, IfNone, vec_len};
ghost use Rattle.vg_base.specs.Files.{GivesNext};
ghost use Rattle.vg_doubles.specs.Named.{lookup, bytes_at};
ghost use Rattle.vg_doubles.specs.declared.pages.Role.TheVariants.{Reading};
ghost use Rattle.vg_doubles.specs.Pages.{role_at, free_pages, is_reading, IsReadable, StartsReading, ReadsOn};

use crate::named::{Named, first_of};
use crate::pages::{Page, Place, Role, free_page, role_of, set_role};

/// A new id that reads a file from its start, or nothing where no page is free or no file has this name.
pub fn start_reading(held: &[Named], pages: &mut Vec<Page>, name: &str) -> Option<u32>
    requires { vec_len pages.old < 2 ^ 32 }
    ensures some { IfSome result (StartsReading held.now pages.old.items pages.new.items name.now) }
    ensures fails { is_none result ≡ (nat_eq (free_pages pages.old.items) 0 || is_none (lookup held.now name.now)) }
    ensures none { IfNone result (pages.new.items ≡ pages.old.items) }
{
    let i = free_page(pages.as_slice())?;
    let file = first_of(held, name)?;
    set_role(pages, i, Role::Reading(Place { file, at: 0 }));
    Some(i as u32)
}

// Which file an id reads, and from where on.
fn place_of(pages: &[Page], id: u32) -> Place
    requires within { id < length pages.now }
    requires reads { is_reading (role_at pages.now id) ≡ true }
    ensures { role_at pages.now id ≡ Reading result }
{
    match role_of(pages, id as usize) {
        Role::Reading(place) => place,
        _ => unreachable!(),
    }
}

// The bytes of a file.
fn bytes_of(held: &[Named], i: usize) -> &[u8]
    requires { i < length held.now }
    ensures { result.now ≡ bytes_at held.now i }
{
    held[i].1.as_slice()
}

// The bytes of a file from a place on, as many as there are and as fit.
fn copy_next(bytes: &[u8], at: usize, into: &mut [u8]) -> usize
    requires { at ≤ length bytes.now }
    ensures count { result ≡ min (length bytes.now - at) (length into.old) }
    ensures next { GivesNext bytes.now at result into.new }
{
    let n = (bytes.len() - at).min(into.len());
    into[..n].copy_from_slice(&bytes[at..at + n]);
    n
}

/// Reads from where an id reads on.
pub fn read_on(held: &[Named], pages: &mut Vec<Page>, id: u32, into: &mut [u8]) -> usize
    requires within { id < vec_len pages.old }
    requires reads { is_reading (role_at pages.old.items id) ≡ true }
    requires readable { All (IsReadable held.now) pages.old.items }
    ensures within { result ≤ length into.old }
    ensures reads { ReadsOn held.now pages.old.items pages.new.items id result into.new }
{
    let place = place_of(pages.as_slice(), id);
    let n = copy_next(bytes_of(held, place.file), place.at, into);
    let next = Place {
        file: place.file,
        at: place.at + n,
    };
    set_role(pages, id as usize, Role::Reading(next));
    n
}
