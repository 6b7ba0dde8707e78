use super::*;

// Of the first two numbers of seed 7: the number, its flow, and the frame's bytes from its checksum to its addresses' end, worked apart
// from this program.
const WORKED: [(u64, u16, [u8; 10]); 2] = [
    (
        9_098_160_460_397_411_210,
        30556,
        [0x78, 0x06, 10, 0, 0x77, 0x5c, 10, 1, 0x77, 0x5c],
    ),
    (
        17_628_806_926_561_717_905,
        46463,
        [0xfb, 0xbf, 10, 0, 0xb5, 0x7f, 10, 1, 0xb5, 0x7f],
    ),
];

#[test]
fn the_first_two_frames_of_a_seed(rt: HostRuntime) {
    let mut number = 7;
    for (next, flow, bytes) in WORKED {
        number = next_number(number);
        assert_eq!(rt; number, next);
        assert_eq!(rt; flow_of(number), flow);
        let frame = frame_bytes(flow);
        for k in 0..10 {
            assert_eq!(rt; frame[24 + k], bytes[k]);
        }
    }
    assert_eq!(rt; time_of(2), 2000);
}
