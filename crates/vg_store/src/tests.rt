// Each part once.
use crate::{RealChain, RealLink, RealRoutes, RealVector, SEED};
use vg_parts::Memory;
use vg_stree::Route;

#[test]
fn a_link_of_three_begins(rt: HostRuntime) -> Result<(), Memory> {
    let mut link = RealLink::new(rt.alloc(), 3, 2, SEED)?;
    assert_eq!(rt; link.get(&[7, 8]), None);
    assert_eq!(rt; link.size(), 0);
    assert_eq!(rt; link.allocate(5), Some(0));
    assert_eq!(rt; (link.count(), link.highest()), (1, 5));
    Ok(())
}

#[test]
fn the_oldest_expires_first(rt: HostRuntime) -> Result<(), Memory> {
    let mut chain = RealChain::new(rt.alloc(), 3)?;
    assert_eq!(rt; chain.allocate(1), Some(0));
    assert_eq!(rt; chain.expire_one(2), Some(0));
    assert_eq!(rt; chain.expire_one(2), None);
    Ok(())
}

#[test]
fn cells_and_routes(rt: HostRuntime) -> Result<(), Memory> {
    let mut cells = RealVector::new(rt.alloc(), 2, 3)?;
    cells.fill(1, &[4, 5, 6]);
    assert_eq!(rt; cells.cell(1), [4, 5, 6].as_slice());
    let route = Route {
        table: 0,
        address: 0x0a00_0000,
        len: 8,
        value: 9,
    };
    let routes = RealRoutes::new(rt.alloc(), &[route])?;
    assert_eq!(rt; routes.lookup(0x0a01_0203), Some(9));
    assert_eq!(rt; routes.lookup(0x0b01_0203), None);
    Ok(())
}
