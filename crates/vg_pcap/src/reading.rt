//! The header and the records of a capture, taken one after another from the front of its bytes.
ghost use Rattle.std.specs.Prelude.{◌≡◌, ◌≤◌, length};
ghost use Rattle.vg_pcap.specs.Captures.{longest};
ghost use Rattle.vg_pcap.specs.Reader.{IsReadable};
ghost use Rattle.vg_pcap.specs.Reading.{encoding_view, TakesHeader, TakesRecord};

use crate::buffered::Buffered;
use crate::encoding::Encoding;
use crate::faults::{CaptureFault, CaptureRefusal, Damage, HeaderField};
use crate::format::{HEADER_SIZE, RECORD_HEAD_SIZE};
use crate::headers::read_header;
use crate::records::{RecordHead, read_head};
use vg_base::Files;

// The header, which tells how the numbers after it are written.
pub(crate) fn take_header<F: Files>(
    source: &mut Buffered,
    files: &mut F,
) -> Result<Encoding, CaptureFault>
    requires { IsReadable (F.disk files.old) source.old.id }
    ensures { TakesHeader (F.disk files.old) (F.disk files.new) source.old source.new result }
{
    let mut header = [0u8; HEADER_SIZE];
    let Ok(got) = source.read_into(files, &mut header) else {
        return Err(CaptureFault::Read);
    };
    if got < HEADER_SIZE {
        return Err(CaptureFault::Refused(CaptureRefusal::Header(HeaderField::Length)));
    }
    match read_header(&header) {
        Ok(encoding) => Ok(encoding),
        Err(field) => Err(CaptureFault::Refused(CaptureRefusal::Header(field))),
    }
}

// The next record: the numbers before it, with its captured bytes in the first places of the frame. Nothing at the end.
pub(crate) fn take_record<F: Files>(
    source: &mut Buffered,
    files: &mut F,
    encoding: Encoding,
    frame: &mut [u8],
    number: u64,
) -> Result<Option<RecordHead>, CaptureFault>
    requires readable { IsReadable (F.disk files.old) source.old.id }
    requires room { length frame.old ≡ longest }
    ensures { TakesRecord (F.disk files.old) (F.disk files.new) source.old source.new (encoding_view encoding) frame.new number result }
{
    let mut bytes = [0u8; RECORD_HEAD_SIZE];
    let Ok(got) = source.read_into(files, &mut bytes) else {
        return Err(CaptureFault::Read);
    };
    if got == 0 {
        return Ok(None);
    }
    if got < RECORD_HEAD_SIZE {
        return Err(CaptureFault::Refused(CaptureRefusal::Record {
            number,
            why: Damage::Cut,
        }));
    }
    let head = match read_head(encoding, &bytes) {
        Ok(head) => head,
        Err(why) => return Err(CaptureFault::Refused(CaptureRefusal::Record { number, why })),
    };
    let size = head.size as usize;
    let Ok(got) = source.read_into(files, &mut frame[..size]) else {
        return Err(CaptureFault::Read);
    };
    if got < size {
        return Err(CaptureFault::Refused(CaptureRefusal::Record {
            number,
            why: Damage::Cut,
        }));
    }
    Ok(Some(head))
}
