//! Made keys in a made order, the same in each run.

/// A key of the length that an address translator looks up: two addresses of four bytes, two ports of two, a protocol of one.
pub type Key = [u8; 13];

/// The key of a flow. No two flows have the same: the key begins with the flow's number times an odd one.
pub fn key_of(flow: u16) -> Key {
    let product = (flow as u64).wrapping_mul(0x9e37_79b9_7f4a_7c15);
    let mixed = product.wrapping_mul(0xbf58_476d_1ce4_e5b9) ^ product >> 32;
    let x = product.to_le_bytes();
    let y = mixed.to_le_bytes();
    [
        x[0], x[1], x[2], x[3], x[4], x[5], x[6], x[7], y[0], y[1], y[2], y[3], y[4],
    ]
}

/// The next state of Knuth's linear congruential generator for MMIX (The Art of Computer Programming, volume 2, 3.3.4).
pub fn next_state(state: u64) -> u64 {
    state
        .wrapping_mul(6_364_136_223_846_793_005)
        .wrapping_add(1_442_695_040_888_963_407)
}

/// The flow that a state draws, from its high bits, which are the most random.
pub fn flow_of(state: u64) -> u16 {
    (state >> 48) as u16
}
