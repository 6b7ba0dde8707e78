//! Expiry, the oldest first.
ghost use Rattle.std.specs.Prelude.{◌≡◌, ◌≤◌, ◌<◌, ◌+◌, ℕ, length, take, drop, All};
ghost use Rattle.std.specs.FinMap.{len};
ghost use Rattle.vg_dchain.specs.ChainState.{IsLawful};
ghost use Rattle.vg_store.specs.RealLinks.{AreTied, without_keys, after_expiry};

use crate::chain::RealChain;
use crate::vector::RealVector;
use vg_map::HashMapFixed;

/// Frees the indices with a time before a bound, the oldest first, erases the keys in their cells, and answers how many they are.
pub fn expire_oldest(
    keys: &mut HashMapFixed,
    ages: &mut RealChain,
    cells: &RealVector,
    before: u64,
) -> u32
    requires size { cells.now.size ≡ keys.old.key_len }
    requires whole { length cells.now.cells ≡ ages.old.range }
    requires lawful { IsLawful ages.old }
    requires tied { AreTied keys.old ages.old.entries cells.now.cells }
    ensures ages { ages.new ≡ after_expiry ages.old result }
    ensures lawful { IsLawful ages.new }
    ensures keys { keys.new ≡ without_keys cells.now.cells keys.old (take result ages.old.entries) }
    ensures counted { len keys.new.indices + result ≡ len keys.old.indices }
    ensures some { result ≤ length ages.old.entries }
    ensures early { All (λ entry. entry.1 < before) (take result ages.old.entries) }
    ensures late { All (λ entry. before ≤ entry.1) (drop result ages.old.entries) }
{
    let count = ages.count();
    for freed in 0..count {
        let Some(index) = ages.expire_one(before) else {
            return freed;
        };
        keys.erase(cells.cell(index));
    }
    count
}
