//! The numbers that stand before each captured packet.
ghost use Rattle.std.specs.Prelude.{◌≡◌, ◌≤◌, [], length, List, ℕ, ◌++◌, IfOk, IfErr};
ghost use Rattle.vg_pcap.specs.Captures.{HasHead, IsDamaged, units_per_second};
ghost use Rattle.vg_pcap.specs.Reading.{encoding_view, head_view, HasGoodHead, nanoseconds_of};

use crate::encoding::Encoding;
use crate::faults::Damage;
use crate::format::{MAX_CAPTURED, NANOSECONDS_PER_SECOND};

#[derive(Clone, Copy)]
pub(crate) struct RecordHead {
    pub(crate) seconds: u32,
    pub(crate) fraction: u32,
    pub(crate) size: u32,
    pub(crate) original: u32,
}

impl RecordHead {
    // The numbers in 16 bytes.
    fn read(encoding: Encoding, bytes: &[u8]) -> RecordHead
        requires { length bytes.now ≡ 16 }
        ensures { HasHead (encoding_view encoding) bytes.now (head_view result) [] }
    {
        RecordHead {
            seconds: encoding.word(bytes, 0),
            fraction: encoding.word(bytes, 4),
            size: encoding.word(bytes, 8),
            original: encoding.word(bytes, 12),
        }
    }

    // When the packet was seen, in nanoseconds.
    pub(crate) fn time(self, encoding: Encoding) -> u64
        requires { self.fraction ≤ units_per_second (encoding_view encoding).resolution }
        ensures { result ≡ nanoseconds_of (encoding_view encoding) (head_view self) }
    {
        u64::from(self.seconds) * NANOSECONDS_PER_SECOND
            + u64::from(self.fraction) * encoding.nanoseconds_per_unit()
    }
}

// The numbers in the 16 bytes that a record begins with, or why it is refused whatever stands after them.
pub(crate) fn read_head(encoding: Encoding, bytes: &[u8]) -> Result<RecordHead, Damage>
    requires { length bytes.now ≡ 16 }
    ensures good { IfOk result (λ head. HasGoodHead (encoding_view encoding) bytes.now (head_view head)) }
    ensures refused { IfErr result (λ damage. (behind : List ℕ) → IsDamaged (encoding_view encoding) (bytes.now ++ behind) damage) }
{
    let head = RecordHead::read(encoding, bytes);
    if head.fraction >= encoding.units_per_second() {
        return Err(Damage::Fraction);
    }
    if head.size as usize > MAX_CAPTURED {
        return Err(Damage::Long);
    }
    Ok(head)
}
