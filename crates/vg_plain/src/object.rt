//! The objects of the library.
use crate::link::PlainLink;
use crate::vector::PlainVector;
use vg_stree::Route;

/// An object of the library. A link stands as its map.
#[derive(Drop)]
pub enum PlainObject {
    Map(PlainLink),
    Chain,
    Keys,
    Cells(PlainVector),
    Prefixes(Vec<Route>),
}
