//! Writing a capture as a stream, frame by frame.
ghost use Rattle.std.specs.Prelude.{◌≡◌, ◌<◌, ◌≤◌, ◌*◌, ◌^◌, ◌++◌, length, drop};
ghost use Rattle.vg_base.specs.Files.{Writes, IsOpen, WritesAll, Closes};
ghost use Rattle.vg_pcap.specs.Captures.{head_bytes};
ghost use Rattle.vg_pcap.specs.Frames.{Fits, header, record_of, written_encoding};
ghost use Rattle.vg_pcap.specs.Reading.{written_head};
ghost use Rattle.vg_pcap.specs.Writer.{StartsWriting};

use crate::format::{
    ETHERNET, FIRST_SIZE, HEADER_SIZE, MAJOR_VERSION, MAX_CAPTURED, MINOR_VERSION,
    NANOSECOND_MAGIC, NANOSECONDS_PER_SECOND, RECORD_HEAD_SIZE,
};
use byteorder::{ByteOrder, LittleEndian};
use std::marker::Model;
use vg_base::{Failed, Files, MAX_OPEN, put_all};

/// A capture that is written as a stream: little-endian, times in nanoseconds, version 2.4, of Ethernet's link type. Contracts see the id of its file.
#[derive(Drop)]
pub struct CaptureWriter {
    id: u32,
}

impl Model for CaptureWriter {
    ghost use Rattle.std.specs.Prelude.{ℕ};

    ghost Value = { ℕ };

    ghost view = { λ w. w.id };
}

impl CaptureWriter {
    /// Creates a capture and writes its header. `Failed` comes from the files; nothing is open then.
    pub fn start<F: Files>(files: &mut F, name: &str) -> Result<CaptureWriter, Failed>
        requires { (F.disk files.old).open_count < MAX_OPEN }
        ensures { StartsWriting (F.disk files.old) (F.disk files.new) name.now result }
    {
        let id = files.create(name)?;
        let Ok(()) = put_all(files, id, &header_bytes()) else {
            let _ = files.close(id);
            return Err(Failed);
        };
        Ok(CaptureWriter { id })
    }

    /// Writes a frame after those before: when it came, in nanoseconds, below 2 to the 32 seconds; how long it was, in bytes, before it was cut; and its
    /// bytes, at most `MAX_CAPTURED`. Write frames in the order of their times. A small frame goes out in one write.
    ///
    /// `Failed` comes from the file; some first bytes of the frame may be written then.
    pub fn put<F: Files>(
        &mut self,
        files: &mut F,
        time: u64,
        original: u32,
        frame: &[u8],
    ) -> Result<(), Failed>
        requires open { IsOpen Writes ((F.disk files.old).opened self.old) }
        requires fits { Fits (record { time = time; original = original; bytes = frame.now }) }
        ensures same { self.new ≡ self.old }
        ensures open { IsOpen Writes ((F.disk files.new).opened self.new) }
        ensures writes { WritesAll (F.disk files.old) (F.disk files.new) self.old
            (record_of (record { time = time; original = original; bytes = frame.now })) result }
    {
        let (here, rest) = frame.split_at(frame.len().min(FIRST_SIZE - RECORD_HEAD_SIZE));
        let mut first = [0u8; FIRST_SIZE];
        fill_head(&mut first, time, original, frame.len() as u32);
        let size = RECORD_HEAD_SIZE + here.len();
        first[RECORD_HEAD_SIZE..size].copy_from_slice(here);
        put_all(files, self.id, &first[..size])?;
        put_all(files, self.id, rest)
    }

    /// Closes the file, also where this fails.
    pub fn close<F: Files>(self, files: &mut F) -> Result<(), Failed>
        requires { IsOpen Writes ((F.disk files.old).opened self) }
        ensures { Closes (F.disk files.old) (F.disk files.new) self result }
    {
        files.close(self.id)
    }
}

// The header that is written.
#[tactic(auto, unfolding(crate::specs::Captures::header_bytes))]
fn header_bytes() -> [u8; HEADER_SIZE]
    ensures { result ≡ header }
{
    let mut bytes = [0u8; HEADER_SIZE];
    LittleEndian::write_u32(&mut bytes[0..], NANOSECOND_MAGIC);
    LittleEndian::write_u16(&mut bytes[4..], MAJOR_VERSION);
    LittleEndian::write_u16(&mut bytes[6..], MINOR_VERSION);
    // Zone and accuracy stay 0.
    LittleEndian::write_u32(&mut bytes[16..], MAX_CAPTURED as u32);
    LittleEndian::write_u32(&mut bytes[20..], ETHERNET);
    bytes
}

// Puts what stands before a frame's bytes into the first places.
#[tactic(auto, unfolding(crate::specs::Captures::head_bytes))]
fn fill_head(bytes: &mut [u8], time: u64, original: u32, size: u32)
    requires long { 16 ≤ length bytes.old }
    requires early { time < 2 ^ 32 * 1000000000 }
    ensures { bytes.new ≡ head_bytes written_encoding (written_head time original size) ++ drop 16 bytes.old }
{
    LittleEndian::write_u32(bytes, (time / NANOSECONDS_PER_SECOND) as u32);
    LittleEndian::write_u32(&mut bytes[4..], (time % NANOSECONDS_PER_SECOND) as u32);
    LittleEndian::write_u32(&mut bytes[8..], size);
    LittleEndian::write_u32(&mut bytes[12..], original);
}
