//! Reading a capture as a stream, record by record.
ghost use Rattle.std.specs.Prelude.{◌≡◌, ◌<◌, length, vec_len};
ghost use Rattle.vg_pcap.specs.Captures.{longest};
ghost use Rattle.vg_pcap.specs.Reader.{IsReadable, Starts, ReadsRecord, Shuts};
ghost use Rattle.vg_pcap.specs.Reading.{encoding_view};

use crate::buffered::Buffered;
use crate::encoding::{Encoding, Order, Resolution};
use crate::faults::CaptureFault;
use crate::format::{BUFFER_SIZE, MAX_CAPTURED};
use crate::reading::{take_header, take_record};
use std::alloc::Global;
use std::marker::Model;
use vg_base::{Failed, Files, MAX_OPEN};

/// A capture that is read as a stream: little- or big-endian, times in microseconds or nanoseconds, version 2.4, of Ethernet's link type. The name `-`
/// is a stream without frames.
#[derive(Drop)]
pub struct CaptureReader {
    source: Buffered,
    encoding: Encoding,
    // How many records were read.
    count: u64,
    // The latest time of a record so far, in nanoseconds.
    latest: u64,
    // Room for the longest frame; the last frame stands in its first places.
    frame: Vec<u8>,
    captured: u32,
    original: u32,
}

impl Model for CaptureReader {
    ghost use Rattle.std.specs.Prelude.{◌≡◌, ◌<◌, ◌≤◌, ◌*◌, ◌^◌, take, vec_len};
    ghost use Rattle.vg_pcap.specs.Captures.{longest};
    ghost use Rattle.vg_pcap.specs.Reading.{encoding_view};
    ghost use Rattle.vg_pcap.specs.Reader.{Reader};

    ghost Value = { Reader };

    ghost view = { λ r. record {
      id = r.source.id;
      ahead = r.source.ahead;
      encoding = encoding_view r.encoding;
      latest = r.latest;
      count = r.count;
      frame = record { time = r.latest; original = r.original; bytes = take r.captured r.frame.items };
    } };

    ghost invariant = { λ r. (r.latest < 2 ^ 32 * 1000000000) × (vec_len r.frame ≡ longest) × (r.captured ≤ longest) };
}

impl CaptureReader {
    ghost use Rattle.std.specs.Borrow.{sem};
    ghost use Rattle.vg_pcap.specs.Lending.{LendsFrame};

    /// Opens a capture and reads its header. All memory is taken here: what is read ahead, and room for the longest frame.
    ///
    /// `Header` names the part of the header that is refused; `Read` comes where the file couldn't be opened or read, `Memory` where there is none.
    /// A refusal leaves nothing open.
    pub fn start<F: Files>(
        alloc: Global,
        files: &mut F,
        name: &str,
    ) -> Result<CaptureReader, CaptureFault>
        requires { (F.disk files.old).open_count < MAX_OPEN }
        ensures { Starts (F.disk files.old) (F.disk files.new) name.now result }
    {
        let Ok(buffer) = vec![in alloc; 0u8; BUFFER_SIZE] else {
            return Err(CaptureFault::Memory);
        };
        let Ok(frame) = vec![in alloc; 0u8; MAX_CAPTURED] else {
            return Err(CaptureFault::Memory);
        };
        if name == "-" {
            // Nothing will be read, so the encoding says nothing.
            let encoding = Encoding {
                order: Order::Little,
                resolution: Resolution::Nanoseconds,
            };
            return Ok(CaptureReader::at_start(Buffered::new(None, buffer), encoding, frame));
        }
        let Ok(id) = files.open_read(name) else {
            return Err(CaptureFault::Read);
        };
        let mut source = Buffered::new(Some(id), buffer);
        match take_header(&mut source, files) {
            Ok(encoding) => Ok(CaptureReader::at_start(source, encoding, frame)),
            Err(fault) => {
                let _ = files.close(id);
                Err(fault)
            }
        }
    }

    // A reader before the first record.
    fn at_start(source: Buffered, encoding: Encoding, frame: Vec<u8>) -> CaptureReader
        requires { vec_len frame ≡ longest }
        ensures source { (result.id ≡ source.id) × (result.ahead ≡ source.ahead) }
        ensures encoding { result.encoding ≡ encoding_view encoding }
        ensures first { (result.latest ≡ 0) × (result.count ≡ 0) }
    {
        CaptureReader {
            source,
            encoding,
            count: 0,
            latest: 0,
            frame,
            captured: 0,
            original: 0,
        }
    }

    /// Reads the next record: true where there is one, and false at the file's end.
    ///
    /// `Cut`, `Long` and `Fraction` tell the number of a record that is refused; `Read` comes where the file couldn't be read. After a refusal the reader
    /// can only be closed. It takes no memory.
    pub fn next<F: Files>(&mut self, files: &mut F) -> Result<bool, CaptureFault>
        requires { IsReadable (F.disk files.old) self.old.id }
        ensures { ReadsRecord (F.disk files.old) (F.disk files.new) self.old self.new result }
    {
        let number = self.count.saturating_add(1);
        let frame = self.frame.as_mut_slice();
        let found = take_record(&mut self.source, files, self.encoding, frame, number)?;
        let Some(head) = found else {
            return Ok(false);
        };
        let time = self.latest.max(head.time(self.encoding));
        self.count = number;
        self.latest = time;
        self.captured = head.size;
        self.original = head.original;
        Ok(true)
    }

    /// The bytes of the frame that was read last.
    pub fn frame(&self) -> &[u8]
        ensures { result.now ≡ self.now.frame.bytes }
    {
        &self.frame[..self.captured as usize]
    }

    /// The bytes of the frame that was read last, to be changed in place.
    pub(crate) fn frame_mut(&mut self) -> &mut [u8]
        ensures* writes_back { sem 𝓛 (LendsFrame self.entry result) }
        ensures value { result.now ≡ self.old.frame.bytes }
    {
        self.frame.slice_mut(..self.captured as usize)
    }

    /// When it came, in nanoseconds: the latest time of a record so far.
    pub fn time(&self) -> u64
        ensures { result ≡ self.now.frame.time }
    {
        self.latest
    }

    /// How many bytes of it were captured.
    pub fn captured(&self) -> u32
        ensures { result ≡ length self.now.frame.bytes }
    {
        self.captured
    }

    /// How long it was, in bytes, before it was cut to what was captured.
    pub fn original(&self) -> u32
        ensures { result ≡ self.now.frame.original }
    {
        self.original
    }

    /// Closes the file, where there is one, also where this fails.
    pub fn close<F: Files>(self, files: &mut F) -> Result<(), Failed>
        requires { IsReadable (F.disk files.old) self.id }
        ensures { Shuts (F.disk files.old) (F.disk files.new) self.id result }
    {
        match self.source.id() {
            Some(id) => files.close(id),
            None => Ok(()),
        }
    }
}
