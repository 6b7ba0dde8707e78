//! Creating and writing files in memory by the ids of pages.
ghost use Rattle.std.specs.Prelude.{◌≡◌, ◌≢◌, ◌<◌, ◌≤◌, ◌+◌, ◌^◌, ◌||◌, ◌&&◌, ℕ, List, [], Some, All, length, take, nat_eq, nat_lt, nat_le, is_none};
ghost use Rattle.std.specs.Prelude.{IfSome, IfNone, OnSome, vec_len};
ghost use Rattle.vg_base.specs.Files.{Writes, IsOpen, writing, Appends, Empties};
ghost use Rattle.vg_doubles.specs.Named.{Named as NamedFile};
ghost use Rattle.vg_doubles.specs.Plan.{longest_name, taken};
ghost use Rattle.vg_doubles.specs.Pages.{made_on, IsFirstMade, opened_on, role_at, bytes_on, name_on, made_at, free_pages, HasMemory, IsReadable};
ghost use Rattle.vg_doubles.specs.Pages.{SameRoles, KeepsFit, TakesPage};
ghost use Rattle.vg_doubles.specs.declared.pages.Role.TheVariants.{Free, Writing};

use crate::pages::{LONGEST_NAME, Page, Role, first_made, free_page};

// Empties the first page for a created file.
fn clear_page(pages: &mut Vec<Page>, i: usize)
    requires { i < vec_len pages.old }
    ensures empties { (name : List ℕ) → IsFirstMade name pages.old.items i →
        Empties (made_on pages.old.items) (made_on pages.new.items) name }
    ensures roles { SameRoles pages.old.items pages.new.items }
    ensures fit { KeepsFit pages.old.items pages.new.items }
{
    let page = &mut pages[i];
    page.bytes.clear();
}

// Empties the created file of a name, if there is one.
fn clear_made(pages: &mut Vec<Page>, name: &str)
    ensures empty { IfSome (made_on pages.new.items name.now) (λ bytes. bytes ≡ []) }
    ensures others { (other : List ℕ) → other ≢ name.now → made_on pages.new.items other ≡ made_on pages.old.items other }
    ensures roles { SameRoles pages.old.items pages.new.items }
    ensures fit { KeepsFit pages.old.items pages.new.items }
{
    if let Some(i) = first_made(pages.as_slice(), name) {
        clear_page(pages, i);
    }
}

// Makes a free page one for the file of a name, which has no bytes.
fn name_page(pages: &mut Vec<Page>, i: usize, name: &str, room: u64)
    requires free { role_at pages.old.items i ≡ Free }
    requires within { i < vec_len pages.old }
    requires short { length name.now ≤ longest_name }
    requires empty { IfSome (made_on pages.old.items name.now) (λ bytes. bytes ≡ []) }
    requires memory { All (HasMemory room) pages.old.items }
    ensures empties { Empties (made_on pages.old.items) (made_on pages.new.items) name.now }
    ensures opens { (held : List NamedFile) → TakesPage held pages.old.items pages.new.items (writing name.now) i }
    ensures fit { KeepsFit pages.old.items pages.new.items }
{
    let page = &mut pages[i];
    page.name.clear();
    let Ok(()) = page.name.push_str(name) else {
        unreachable!();
    };
    page.bytes.clear();
    page.role = Role::Writing;
}

/// A new id that writes to a file, which is made empty, or nothing where no page is free or the name is too long.
pub fn start_writing(pages: &mut Vec<Page>, name: &str, room: u64) -> Option<u32>
    requires few { vec_len pages.old < 2 ^ 32 }
    requires memory { All (HasMemory room) pages.old.items }
    ensures opens { IfSome result (λ id. (held : List NamedFile) → TakesPage held pages.old.items pages.new.items (writing name.now) id) }
    ensures empties { OnSome result (Empties (made_on pages.old.items) (made_on pages.new.items) name.now) }
    ensures fit { KeepsFit pages.old.items pages.new.items }
    ensures fails { is_none result ≡ (nat_eq (free_pages pages.old.items) 0 || nat_lt longest_name (length name.now)) }
    ensures none { IfNone result (pages.new.items ≡ pages.old.items) }
{
    let i = free_page(pages.as_slice())?;
    if name.len() > LONGEST_NAME {
        return None;
    }
    clear_made(pages, name);
    name_page(pages, i, name, room);
    Some(i as u32)
}

// The first page for the file that an id writes.
fn made_page(pages: &[Page], id: u32) -> usize
    requires { role_at pages.now id ≡ Writing }
    ensures within { result < length pages.now }
    ensures first { IsFirstMade (name_on pages.now id) pages.now result }
{
    let name = pages[id as usize].name.as_str();
    let Some(i) = first_made(pages, name) else {
        unreachable!();
    };
    i
}

// How many bytes of a piece a page takes.
fn room_for(pages: &[Page], i: usize, piece: &[u8], room: u64) -> usize
    requires within { i < length pages.now }
    requires memory { All (HasMemory room) pages.now }
    ensures taken { result ≡ taken room (bytes_on pages.now i) piece.now }
    ensures fits { length (bytes_on pages.now i) + result ≤ room }
{
    let left = room as usize - pages[i].bytes.len();
    left.min(piece.len())
}

// Whether nothing would be taken of what there is.
fn is_refused(n: usize, piece: &[u8]) -> bool
    ensures { result ≡ (nat_eq n 0 && nat_lt 0 (length piece.now)) }
{
    n == 0 && !piece.is_empty()
}

// Appends a piece for which there is room.
fn grow_page(pages: &mut Vec<Page>, i: usize, piece: &[u8], room: u64)
    requires within { i < vec_len pages.old }
    requires fits { length (bytes_on pages.old.items i) + length piece.now ≤ room }
    requires memory { All (HasMemory room) pages.old.items }
    ensures grows { (name : List ℕ) → IsFirstMade name pages.old.items i →
        Appends (made_on pages.old.items) (made_on pages.new.items) name piece.now }
    ensures roles { SameRoles pages.old.items pages.new.items }
    ensures memory { All (HasMemory room) pages.new.items }
    ensures readable { (held : List NamedFile) → All (IsReadable held) pages.old.items → All (IsReadable held) pages.new.items }
{
    let page = &mut pages[i];
    let Ok(()) = page.bytes.extend_from_slice(piece) else {
        unreachable!();
    };
}

/// Appends as much of a piece as there is room for to the file that an id writes, or nothing where there is none.
pub fn append(pages: &mut Vec<Page>, id: u32, piece: &[u8], room: u64) -> Option<usize>
    requires writes { role_at pages.old.items id ≡ Writing }
    requires memory { All (HasMemory room) pages.old.items }
    ensures fails { is_none result ≡ (nat_lt 0 (length piece.now) && nat_le room (length (made_at pages.old.items id))) }
    ensures taken { IfSome result (λ n. n ≡ taken room (made_at pages.old.items id) piece.now) }
    ensures grows { IfSome result (λ n. Appends (made_on pages.old.items) (made_on pages.new.items) (name_on pages.old.items id) (take n piece.now)) }
    ensures roles { SameRoles pages.old.items pages.new.items }
    ensures memory { All (HasMemory room) pages.new.items }
    ensures readable { (held : List NamedFile) → All (IsReadable held) pages.old.items → All (IsReadable held) pages.new.items }
    ensures none { IfNone result (pages.new.items ≡ pages.old.items) }
{
    let i = made_page(pages.as_slice(), id);
    let n = room_for(pages.as_slice(), i, piece, room);
    if is_refused(n, piece) {
        return None;
    }
    let (front, _) = piece.split_at(n);
    grow_page(pages, i, front, room);
    Some(n)
}
