//! How a capture's writer puts down numbers and times.
ghost use Rattle.std.specs.Prelude.{◌≡◌, ◌≢◌, ◌≤◌, ◌+◌, length, take, drop, IfSome, IfNone};
ghost use Rattle.vg_pcap.specs.Captures.{Encoding as Written, Resolution as WrittenIn, magic, magic_bytes, units_per_second, nanoseconds_per_unit};
ghost use Rattle.vg_pcap.specs.Reading.{encoding_view, resolution_view, number_in};

use crate::format::{
    MICROSECOND_MAGIC, MICROSECONDS_PER_SECOND, NANOSECOND_MAGIC, NANOSECONDS_PER_MICROSECOND,
    NANOSECONDS_PER_SECOND,
};
use byteorder::{BigEndian, ByteOrder, LittleEndian};

// Which byte of a number stands first.
#[derive(Clone, Copy)]
pub(crate) enum Order {
    Little,
    Big,
}

// What the fraction of a second is counted in.
#[derive(Clone, Copy)]
pub(crate) enum Resolution {
    Microseconds,
    Nanoseconds,
}

#[derive(Clone, Copy)]
pub(crate) struct Encoding {
    pub(crate) order: Order,
    pub(crate) resolution: Resolution,
}

impl Encoding {
    // The number in the four bytes from a place on.
    pub(crate) fn word(self, bytes: &[u8], at: usize) -> u32
        requires { at + 4 ≤ length bytes.now }
        ensures { result ≡ number_in (encoding_view self).order 4 (drop at bytes.now) }
    {
        let (_, rest) = bytes.split_at(at);
        match self.order {
            Order::Little => LittleEndian::read_u32(rest),
            Order::Big => BigEndian::read_u32(rest),
        }
    }

    // The number in the two bytes from a place on.
    pub(crate) fn half(self, bytes: &[u8], at: usize) -> u16
        requires { at + 2 ≤ length bytes.now }
        ensures { result ≡ number_in (encoding_view self).order 2 (drop at bytes.now) }
    {
        let (_, rest) = bytes.split_at(at);
        match self.order {
            Order::Little => LittleEndian::read_u16(rest),
            Order::Big => BigEndian::read_u16(rest),
        }
    }

    // How many units of a fraction a second has.
    pub(crate) fn units_per_second(self) -> u32
        ensures { result ≡ units_per_second (encoding_view self).resolution }
    {
        match self.resolution {
            Resolution::Microseconds => MICROSECONDS_PER_SECOND,
            Resolution::Nanoseconds => NANOSECONDS_PER_SECOND as u32,
        }
    }

    // How many nanoseconds a unit of a fraction has.
    pub(crate) fn nanoseconds_per_unit(self) -> u64
        ensures { result ≡ nanoseconds_per_unit (encoding_view self).resolution }
    {
        match self.resolution {
            Resolution::Microseconds => NANOSECONDS_PER_MICROSECOND,
            Resolution::Nanoseconds => 1,
        }
    }
}

fn resolution_of(number: u32) -> Option<Resolution>
    ensures some { IfSome result (λ resolution. number ≡ magic (resolution_view resolution)) }
    ensures none { IfNone result ((resolution : WrittenIn) → number ≢ magic resolution) }
{
    match number {
        MICROSECOND_MAGIC => Some(Resolution::Microseconds),
        NANOSECOND_MAGIC => Some(Resolution::Nanoseconds),
        _ => None,
    }
}

// The encoding whose magic stands at the front.
pub(crate) fn encoding_of(header: &[u8]) -> Option<Encoding>
    requires { 4 ≤ length header.now }
    ensures some { IfSome result (λ encoding. take 4 header.now ≡ magic_bytes (encoding_view encoding)) }
    ensures none { IfNone result ((encoding : Written) → take 4 header.now ≢ magic_bytes encoding) }
{
    if let Some(resolution) = resolution_of(LittleEndian::read_u32(header)) {
        return Some(Encoding {
            order: Order::Little,
            resolution,
        });
    }
    let resolution = resolution_of(BigEndian::read_u32(header))?;
    Some(Encoding {
        order: Order::Big,
        resolution,
    })
}
