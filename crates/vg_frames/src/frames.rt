//! The sequence and the frames.
ghost use Rattle.std.specs.Prelude.{◌≡◌, ◌<◌, ◌+◌, length};
ghost use Rattle.vg_frames.specs.Frames as frames;
ghost use Rattle.vg_frames.specs.Frames.{frame_of};

/// How many bytes a frame has.
pub const FRAME_BYTES: usize = 60;

const FLOWS: u64 = 60_000;

/// The number after another in the sequence that a seed begins; the first frame has the one after the seed.
pub fn next_number(number: u64) -> u64
    ensures { result ≡ frames.next_number number }
{
    number
        .wrapping_mul(6_364_136_223_846_793_005)
        .wrapping_add(1_442_695_040_888_963_407)
}

/// Which of 60,000 flows a number chooses.
pub fn flow_of(number: u64) -> u16
    ensures flow { result ≡ frames.flow_of number }
    ensures within { result < 60000 }
{
    ((number >> 32) % FLOWS) as u16
}

/// The time of a frame in nanoseconds, the frames counted from 1.
pub fn time_of(frame: u32) -> u64
    ensures { result ≡ frames.time_of frame }
{
    1000 * u64::from(frame)
}

// Two words added in one's complement.
fn added(a: u16, b: u16) -> u16
    ensures { result ≡ frames.added a b }
{
    let sum = u32::from(a) + u32::from(b);
    (sum % 65536 + sum / 65536) as u16
}

// The word that begins at a byte.
fn word_at(bytes: &[u8], at: usize) -> u16
    requires { at + 1 < length bytes.now }
    ensures { result ≡ frames.word_at bytes.now at }
{
    u16::from_be_bytes([bytes[at], bytes[at + 1]])
}

/// The checksum of an IPv4 header of 20 bytes in which the checksum is 0 (RFC 791, section 3.1).
pub fn checksum(header: &[u8; 20]) -> u16
    ensures { result ≡ frames.checksum header.now }
{
    let mut sum = 0;
    for k in 0..10 {
        sum = added(sum, word_at(header, 2 * k));
    }
    65535 - sum
}

// The IPv4 header of a flow, with this checksum.
fn ipv4(flow: u16, sum: u16) -> [u8; 20]
    ensures { result ≡ frames.ipv4 flow sum }
{
    let [high, low] = flow.to_be_bytes();
    let [sum_high, sum_low] = sum.to_be_bytes();
    [
        0x45, 0, 0, 46, 0, 0, 0, 0, 64, 17, sum_high, sum_low, 10, 0, high, low, 10, 1, high, low,
    ]
}

/// The frame of a flow: Ethernet, IPv4 with its checksum, UDP from port 5000 to port 53 without one, and 18 bytes of 0.
pub fn frame_bytes(flow: u16) -> [u8; FRAME_BYTES]
    ensures { result ≡ frame_of flow }
{
    let [high, low] = flow.to_be_bytes();
    let [sum_high, sum_low] = checksum(&ipv4(flow, 0)).to_be_bytes();
    [
        2, 0, 0, 0, 255, 255, 2, 0, 0, 0, high, low, 8, 0, //
        0x45, 0, 0, 46, 0, 0, 0, 0, 64, 17, sum_high, sum_low, 10, 0, high, low, 10, 1, high, low, //
        0x13, 0x88, 0, 53, 0, 26, 0, 0, //
        0, 0, 0, 0, 0, 0, 0, 0, 0, 0, 0, 0, 0, 0, 0, 0, 0, 0,
    ]
}
