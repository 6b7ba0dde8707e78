//! The pages of files in memory: each is for one file that is opened or created. Their memory is taken at the start.
ghost use Rattle.std.specs.Prelude.{◌≡◌, ◌<◌, ◌↔◌, All, IfSome, IfNone, IfOk, IsTrue, None, length, vec_len};
ghost use Rattle.vg_doubles.specs.declared.pages.Role.TheVariants.{Free};
ghost use Rattle.vg_doubles.specs.Pages.{made_on, IsFirstMade, is_made_as, role_at, free_pages, is_reading, closed, with_role, HasMemory};

use std::alloc::Global;
use vg_parts::Memory;

/// A created name has at most this many bytes.
pub const LONGEST_NAME: usize = 256;

/// Which file is read, by its place among those that are held, and from which byte on.
#[derive(Clone, Copy)]
pub struct Place {
    pub file: usize,
    pub at: usize,
}

/// What a page is for.
#[derive(Clone, Copy)]
pub enum Role {
    Free,
    Reading(Place),
    Writing,
    WasRead,
    Written,
}

/// A name, what was written, and what the page is for.
#[derive(Drop)]
pub struct Page {
    pub name: String,
    pub bytes: Vec<u8>,
    pub role: Role,
}

// A page that is for no file, with room for a name and for this many bytes.
fn blank_page(alloc: Global, room: u64) -> Result<Page, Memory>
    ensures free { IfOk result (λ page. page.role ≡ Free) }
    ensures memory { IfOk result (HasMemory room) }
{
    let Ok(name) = String::with_capacity(alloc, LONGEST_NAME) else {
        return Err(Memory);
    };
    let Ok(bytes) = Vec::with_capacity(alloc, room as usize) else {
        return Err(Memory);
    };
    Ok(Page {
        name,
        bytes,
        role: Role::Free,
    })
}

/// So many pages, each with its memory.
pub fn blank_pages(alloc: Global, files: u32, room: u64) -> Result<Vec<Page>, Memory>
    ensures count { IfOk result (λ pages. vec_len pages ≡ files) }
    ensures free { IfOk result (λ pages. All (λ page. page.role ≡ Free) pages.items) }
    ensures memory { IfOk result (λ pages. All (HasMemory room) pages.items) }
{
    let mut pages = Vec::new(alloc);
    for _ in 0..files {
        let page = blank_page(alloc, room)?;
        let Ok(()) = pages.push(page) else {
            return Err(Memory);
        };
    }
    Ok(pages)
}

// Whether a page is for the created file of a name.
fn is_for(page: &Page, name: &str) -> bool
    ensures { result ≡ is_made_as name.now page.now }
{
    match page.role {
        Role::Writing | Role::Written => page.name.as_str() == name,
        _ => false,
    }
}

/// The first page for the created file of a name.
pub fn first_made(pages: &[Page], name: &str) -> Option<usize>
    ensures within { IfSome result (λ i. i < length pages.now) }
    ensures first { IfSome result (IsFirstMade name.now pages.now) }
    ensures none { IfNone result (made_on pages.now name.now ≡ None) }
{
    let mut i = 0;
    for page in pages {
        if is_for(page, name) {
            return Some(i);
        }
        i += 1;
    }
    None
}

fn is_free(page: &Page) -> bool
    ensures { IsTrue result ↔ (page.now.role ≡ Free) }
{
    matches!(page.role, Role::Free)
}

/// A page that was for no file so far.
pub fn free_page(pages: &[Page]) -> Option<usize>
    ensures within { IfSome result (λ i. i < length pages.now) }
    ensures free { IfSome result (λ i. role_at pages.now i ≡ Free) }
    ensures none { IfNone result (free_pages pages.now ≡ 0) }
{
    let mut i = 0;
    for page in pages {
        if is_free(page) {
            return Some(i);
        }
        i += 1;
    }
    None
}

/// What the page at a place is for.
pub fn role_of(pages: &[Page], i: usize) -> Role
    requires { i < length pages.now }
    ensures { result ≡ role_at pages.now i }
{
    pages[i].role
}

/// Makes a page one for something else.
pub fn set_role(pages: &mut Vec<Page>, i: usize, role: Role)
    requires { i < vec_len pages.old }
    ensures { pages.new.items ≡ with_role pages.old.items i role }
{
    pages[i].role = role;
}

/// Closes an id, and answers whether it was for reading. What was written stays.
pub fn close_page(pages: &mut Vec<Page>, id: u32) -> bool
    requires { id < vec_len pages.old }
    ensures reads { result ≡ is_reading (role_at pages.old.items id) }
    ensures now { pages.new.items ≡ with_role pages.old.items id (closed (role_at pages.old.items id)) }
{
    let id = id as usize;
    match role_of(pages.as_slice(), id) {
        Role::Reading(_) => {
            set_role(pages, id, Role::WasRead);
            true
        }
        _ => {
            set_role(pages, id, Role::Written);
            false
        }
    }
}
