//! Look-ups in a full map.
ghost use Rattle.std.specs.Prelude.{◌≤◌, IfOk};
ghost use Rattle.vg_bench.specs.Sizes.{IsSized};

use super::CAPACITY;
use crate::keys::{flow_of, key_of, next_state};
use std::alloc::Global;
use vg_map::HashMapFixed;
use vg_parts::Memory;

// A map with the key of every flow, as many as it has room for.
fn full_map(alloc: Global) -> Result<HashMapFixed, Memory>
    ensures { IfOk result IsSized }
{
    let Ok(mut map) = HashMapFixed::new(alloc, CAPACITY, 13) else {
        return Err(Memory);
    };
    for flow in 0..CAPACITY {
        let key = key_of(flow as u16);
        if map.size() < CAPACITY && map.get(&key).is_none() {
            map.put(&key, flow);
        }
    }
    Ok(map)
}

/// How many of so many look-ups in a full map find their key. Each asks for the key of some flow, so all of them do.
pub fn lookups(alloc: Global, count: u32) -> Result<u32, Memory>
    ensures { IfOk result (λ found. found ≤ count) }
{
    let map = full_map(alloc)?;
    let mut state = 1;
    let mut found = 0;
    for _turn in 0..count {
        state = next_state(state);
        if map.get(&key_of(flow_of(state))).is_some() {
            found += 1;
        }
    }
    Ok(found)
}

#[cfg(test)]
mod tests {
    use super::*;
    use std::test::Fail;

    #[test]
    fn every_key_is_found(rt: HostRuntime) -> Result<(), Fail> {
        let map = full_map(rt.alloc()).expect(&rt, "room for the map");
        assert_eq!(rt; map.size(), CAPACITY);
        for flow in 0..CAPACITY {
            assert_eq!(rt; map.get(&key_of(flow as u16)), Some(flow));
        }
        assert_eq!(rt; lookups(rt.alloc(), 0), Ok(0));
        assert_eq!(rt; lookups(rt.alloc(), 100_000), Ok(100_000));
        Ok(())
    }
}
