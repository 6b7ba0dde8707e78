ghost use Rattle.std.specs.Prelude.{◌≡◌, ◌<◌, ◌≤◌, length};

use super::*;
use std::alloc::Global;
use std::marker::Brand;
use std::sync::ledger::{Blank, Ledger};
use std::test::Fail;
use vg_parts::{Memory, Steps};
use vg_stree::Route;

// An address, a length and a value.
type Row = (u32, u8, u16);

fn table_of(alloc: Global, rows: &[Row]) -> Result<Prefix, Memory>
    requires { length rows.now ≤ 65536 }
{
    let mut routes = Vec::new(alloc);
    for row in rows {
        let route = Route {
            table: 7,
            address: row.0,
            len: row.1.min(32),
            value: row.2,
        };
        let Ok(()) = routes.push(route) else {
            return Err(Memory);
        };
    }
    Prefix::new(alloc, routes.as_slice())
}

// The first address whose look-up doesn't answer as expected.
fn first_wrong<L: Ledger>(
    prefix: &Prefix,
    expected: &[(u32, Option<u16>)],
    blank: Blank,
) -> Option<u32>
    requires name { blank.name ≡ L.name }
    requires parts { blank.parts ≡ L.parts }
    requires backed { 0 < blank.parts }
{
    let mut steps = Steps::<L>::new(blank);
    for (address, value) in expected {
        if prefix.lookup(*address, &mut steps) != *value {
            return Some(*address);
        }
    }
    None
}

#[test]
fn a_later_route_replaces_an_equal_one(rt: HostRuntime) -> Result<(), Fail> {
    let rows = [
        (0, 0, 3),
        (0x0A00_0000, 8, 1),
        (0x0A01_0203, 32, 2),
        (0x0A00_0000, 8, 0),
    ];
    let prefix = table_of(rt.alloc(), &rows)?;
    let expected = [
        (0x0A01_0203, Some(2)),
        (0x0A01_0204, Some(0)),
        (0x0B00_0000, Some(3)),
    ];
    assert_eq!(rt;
        first_wrong::<Brand>(&prefix, &expected, Blank::new(1)),
        None
    );
    Ok(())
}

const ADDRESS: u32 = 0xA5C3_5A3C;

#[test]
fn lengths_at_the_edges_of_the_levels(rt: HostRuntime) -> Result<(), Fail> {
    let rows = [
        (ADDRESS, 32, 32),
        (ADDRESS, 31, 31),
        (ADDRESS, 25, 25),
        (ADDRESS, 24, 24),
        (ADDRESS, 23, 23),
        (ADDRESS, 17, 17),
        (ADDRESS, 16, 16),
        (ADDRESS, 15, 15),
        (ADDRESS, 1, 1),
        (ADDRESS, 0, 0),
    ];
    let prefix = table_of(rt.alloc(), &rows)?;

    // Each address but the first differs in one bit, and the longest route that ends before that bit is its.
    let expected = [
        (ADDRESS, Some(32)),
        (ADDRESS ^ 1 << 31, Some(0)),
        (ADDRESS ^ 1 << 30, Some(1)),
        (ADDRESS ^ 1 << 17, Some(1)),
        (ADDRESS ^ 1 << 16, Some(15)),
        (ADDRESS ^ 1 << 15, Some(16)),
        (ADDRESS ^ 1 << 14, Some(17)),
        (ADDRESS ^ 1 << 9, Some(17)),
        (ADDRESS ^ 1 << 8, Some(23)),
        (ADDRESS ^ 1 << 7, Some(24)),
        (ADDRESS ^ 1 << 6, Some(25)),
        (ADDRESS ^ 1 << 1, Some(25)),
        (ADDRESS ^ 1, Some(31)),
    ];
    assert_eq!(rt;
        first_wrong::<Brand>(&prefix, &expected, Blank::new(1)),
        None
    );
    Ok(())
}

#[test]
fn nothing_where_no_route_matches(rt: HostRuntime) -> Result<(), Fail> {
    let empty = table_of(rt.alloc(), &[])?;
    assert_eq!(rt;
        first_wrong::<Brand>(&empty, &[(ADDRESS, None)], Blank::new(1)),
        None
    );
    Ok(())
}

#[test]
fn bits_past_the_length_do_not_count(rt: HostRuntime) -> Result<(), Fail> {
    let prefix = table_of(rt.alloc(), &[(0xC0A8_01FF, 25, 9)])?;
    let expected = [
        (0xC0A8_0180, Some(9)),
        (0xC0A8_017F, None),
        (0xC0A8_0200, None),
    ];
    assert_eq!(rt;
        first_wrong::<Brand>(&prefix, &expected, Blank::new(1)),
        None
    );
    Ok(())
}

// The generator of Knuth and Lewis (Numerical Recipes, section 7.1). Its upper bits are the better ones.
fn next(state: &mut u32) -> u32 {
    *state = state.wrapping_mul(1_664_525).wrapping_add(1_013_904_223);
    *state >> 8
}

// Few addresses, so that many routes match: two bits of each byte are free.
fn made_address(state: &mut u32) -> u32 {
    next(state).wrapping_mul(257) & 0x8181_8181
}

// What the list itself says.
fn in_list(rows: &[Row], address: u32) -> Option<u16> {
    let mut best = None;
    let mut longest = 0;
    for row in rows {
        let len = row.1.min(32);
        let free = 32 - u32::from(len);
        if len >= longest && u64::from(row.0 ^ address) >> free == 0 {
            best = Some(row.2);
            longest = len;
        }
    }
    best
}

#[test]
fn a_made_table_answers_as_its_list(rt: HostRuntime) -> Result<(), Fail> {
    let mut state = 1;
    let mut rows = [(0, 0, 0); 40];
    for row in rows.iter_mut() {
        let address = made_address(&mut state);
        let len = next(&mut state) % 24 + 9;
        *row = (address, len as u8, (next(&mut state) % 1000) as u16);
    }
    let mut expected = [(0, None); 500];
    let mut matched = 0u32;
    for pair in expected.iter_mut() {
        let address = made_address(&mut state);
        let value = in_list(&rows, address);
        matched = matched.wrapping_add(u32::from(value.is_some()));
        *pair = (address, value);
    }
    assert!(rt; 100 < matched && matched < 500);
    let prefix = table_of(rt.alloc(), &rows)?;
    assert_eq!(rt;
        first_wrong::<Brand>(&prefix, &expected, Blank::new(1)),
        None
    );
    Ok(())
}
