//! Where a key's search begins.
ghost use Rattle.std.specs.Prelude.{◌≡◌, ◌+◌, ◌≤◌, length};
ghost use Rattle.vg_map.specs.Hash.{half, word, folded, mixed, hash_of, home_of};

/// The homes of a table's keys: the first `mask + 1` slots, over which the seed scatters the keys.
#[derive(Clone, Copy)]
pub struct Homes {
    pub mask: u64,
    pub seed: u64,
}

const MULTIPLIER: u64 = 0x9e37_79b9_7f4a_7c15;

// The four bytes from `at` on as a number, the lowest first.
fn half_at(key: &[u8], at: usize) -> u64
    requires { at + 4 ≤ length key.now }
    ensures { result ≡ half key.now at }
{
    u32::from_le_bytes([key[at], key[at + 1], key[at + 2], key[at + 3]]) as u64
}

// The eight bytes from `at` on as a number, the lowest first.
fn word_at(key: &[u8], at: usize) -> u64
    requires { at + 8 ≤ length key.now }
    ensures { result ≡ word key.now at }
{
    half_at(key, at) | half_at(key, at + 4) << 32
}

// Puts the upper half of the bits over the lower one too.
fn fold(state: u64) -> u64
    ensures { result ≡ folded state }
{
    state ^ state >> 32
}

// Mixes a word into the state. Each step can be undone, so no two states become one.
fn mix(state: u64, word: u64) -> u64
    ensures { result ≡ mixed state word }
{
    fold(fold(state ^ word).wrapping_mul(MULTIPLIER))
}

// The hash of a key: its words of eight bytes are mixed into the seed, the last of which may overlap the one before. A key
// of fewer bytes has a word for each.
fn hash(key: &[u8], seed: u64) -> u64
    ensures { result ≡ hash_of seed key.now }
{
    let mut state = seed;
    if key.len() < 8 {
        for byte in key {
            state = mix(state, *byte as u64);
        }
        return state;
    }
    let mut at = 0;
    while key.len() - at > 8 {
        state = mix(state, word_at(key, at));
        at += 8;
    }
    mix(state, word_at(key, key.len() - 8))
}

impl Homes {
    /// The home of a key.
    pub fn of(&self, key: &[u8]) -> usize
        ensures home { result ≡ home_of self.now key.now }
        ensures within { result ≤ self.now.mask }
    {
        (hash(key, self.seed) & self.mask) as usize
    }
}

#[cfg(test)]
mod tests {
    use super::*;
    use std::test::Fail;

    // One address pair whose word is the seed itself, so that the state after it is 0: its ports are spread as any.
    #[test]
    fn ports_of_one_pair_are_spread(rt: HostRuntime) -> Result<(), Fail> {
        let homes = Homes {
            mask: 1023,
            seed: 0x0706_0504_0302_0100,
        };
        let mut met = [0u8; 1024];
        for port in 0..1000u32 {
            let low = (port % 256) as u8;
            let high = (port / 256) as u8;
            let home = homes.of(&[0, 1, 2, 3, 4, 5, 6, 7, 0, 80, low, high, 17]);
            met[home] = 1;
        }
        let filled = met.iter().filter(|one| **one == 1).count();
        assert!(rt; filled > 500, "{filled} homes");
        Ok(())
    }
}
