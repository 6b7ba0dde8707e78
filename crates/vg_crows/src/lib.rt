//! The library's fifteen calls as a C function makes them: on its memory, its frame and the library.
#![tactic(auto)]

mod access;
mod allocation;
mod answer;
mod book;
mod chains;
mod expiry;
mod keyed;
mod laws;
mod needs;
mod request;
mod stored;
mod storing;
mod tables;

pub use access::{against_write, load, read};
pub use allocation::chain_allocate;
pub use answer::{Answer, Stop};
pub use book::{Book, Cell};
pub use chains::{chain_free, chain_is_allocated, chain_rejuvenate};
pub use expiry::expire_items;
pub use keyed::{map_erase, map_get, map_put};
pub use laws::{a_frame_of_calls, refusals_come_in_order};
pub use request::{Handle, Request};
pub use storing::store;
pub use tables::{map_size, prefix_lookup};
