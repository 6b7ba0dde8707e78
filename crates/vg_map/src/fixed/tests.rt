// Calls on worked values, and a long list of calls beside a plain table.
ghost use Rattle.std.specs.Prelude.{◌≡◌, length};

use super::HashMapFixed;
use vg_parts::Memory;

/// The key of 13 bytes for a number: its low byte comes last.
fn key_of(number: u8) -> [u8; 13] {
    let mut key = [7; 13];
    key[12] = number;
    key
}

#[test]
fn four_of_eight_are_left(rt: HostRuntime) -> Result<(), Memory> {
    let mut map = HashMapFixed::new(rt.alloc(), 8, 13)?;
    for number in 0..8u8 {
        let key = key_of(number);
        assert!(rt;
            map.size() < 8 && map.get(&key).is_none(),
            "before {number}"
        );
        map.put(&key, 100 + number as u32);
    }
    assert_eq!(rt; map.size(), 8);
    for number in 0..4u8 {
        let key = key_of(2 * number);
        assert_eq!(rt; map.get(&key), Some(100 + 2 * number as u32));
        assert!(rt; map.get(&key).is_some());
        map.erase(&key);
    }
    assert_eq!(rt; map.size(), 4);
    for number in 0..4u8 {
        assert_eq!(rt; map.get(&key_of(2 * number)), None);
        assert_eq!(rt;
            map.get(&key_of(2 * number + 1)),
            Some(101 + 2 * number as u32)
        );
    }
    Ok(())
}

#[test]
fn keys_of_each_length(rt: HostRuntime) -> Result<(), Memory> {
    for len in [0, 1, 13, 64] {
        let mut map = HashMapFixed::with_seed(rt.alloc(), 1, len as u32, len as u64)?;
        let mut bytes = [9u8; 64];
        assert_eq!(rt; map.get(&bytes[..len]), None, "{len} bytes");
        assert!(rt; map.size() < 1 && map.get(&bytes[..len]).is_none());
        map.put(&bytes[..len], u32::MAX);
        assert_eq!(rt; map.get(&bytes[..len]), Some(u32::MAX), "{len} bytes");
        if len > 0 {
            bytes[len - 1] = 8;
            assert_eq!(rt;
                map.get(&bytes[..len]),
                None,
                "{len} bytes, the last one changed"
            );
            bytes[len - 1] = 9;
        }
        assert!(rt; map.get(&bytes[..len]).is_some());
        map.erase(&bytes[..len]);
        assert_eq!(rt; map.get(&bytes[..len]), None, "{len} bytes, erased");
    }
    let none = HashMapFixed::new(rt.alloc(), 0, 2)?;
    assert_eq!(rt; none.get(&[0, 0]), None);
    assert_eq!(rt; none.size(), 0);
    Ok(())
}

#[test]
fn a_long_list_of_calls(rt: HostRuntime) -> Result<(), Memory> {
    let mut map = HashMapFixed::new(rt.alloc(), 12, 13)?;
    let mut table = [None; 16];
    let mut state = 1u32;
    for call in 0..4000u32 {
        state = state.wrapping_mul(1_664_525).wrapping_add(1_013_904_223);
        let place = (state >> 28) as usize;
        let key = key_of(place as u8);
        assert_eq!(rt; map.get(&key), table[place], "call {call}");
        if map.get(&key).is_some() {
            map.erase(&key);
            table[place] = None;
        } else if map.size() < 12 {
            map.put(&key, call);
            table[place] = Some(call);
        }
        let held = table.iter().filter(|index| index.is_some()).count();
        assert_eq!(rt; map.size() as usize, held, "call {call}");
        for other in 0..16usize {
            assert_eq!(rt; map.get(&key_of(other as u8)), table[other], "call {call}");
        }
    }
    Ok(())
}
