//! The header of a capture.
ghost use Rattle.std.specs.Prelude.{◌≡◌, [], length, take, drop, IfOk, IfErr, IsTrue, ◌↔◌};
ghost use Rattle.vg_pcap.specs.Captures.{HasHeader, IsBadHeader, version_bytes, link_bytes};
ghost use Rattle.vg_pcap.specs.Reading.{encoding_view};

use crate::encoding::{Encoding, encoding_of};
use crate::faults::HeaderField;
use crate::format::{ETHERNET, MAJOR_VERSION, MINOR_VERSION};

fn has_version(encoding: Encoding, header: &[u8]) -> bool
    requires { length header.now ≡ 24 }
    ensures { IsTrue result ↔ (take 4 (drop 4 header.now) ≡ version_bytes (encoding_view encoding)) }
{
    encoding.half(header, 4) == MAJOR_VERSION && encoding.half(header, 6) == MINOR_VERSION
}

fn has_link(encoding: Encoding, header: &[u8]) -> bool
    requires { length header.now ≡ 24 }
    ensures { IsTrue result ↔ (take 4 (drop 20 header.now) ≡ link_bytes (encoding_view encoding)) }
{
    encoding.word(header, 20) == ETHERNET
}

// How a capture that begins with these 24 bytes is written, or the first part of them that is refused.
pub(crate) fn read_header(header: &[u8]) -> Result<Encoding, HeaderField>
    requires { length header.now ≡ 24 }
    ensures good { IfOk result (λ encoding. HasHeader (encoding_view encoding) header.now []) }
    ensures bad { IfErr result (IsBadHeader header.now) }
{
    let Some(encoding) = encoding_of(header) else {
        return Err(HeaderField::Magic);
    };
    if !has_version(encoding, header) {
        return Err(HeaderField::Version);
    }
    if !has_link(encoding, header) {
        return Err(HeaderField::Link);
    }
    Ok(encoding)
}
