//! The objects of the library.
use crate::link::RealLink;
use crate::routes::RealRoutes;
use crate::vector::RealVector;

/// An object of the library. A link stands as its map.
#[derive(Drop)]
pub enum RealObject {
    Map(RealLink),
    Chain,
    Keys,
    Cells(RealVector),
    Prefixes(RealRoutes),
}
