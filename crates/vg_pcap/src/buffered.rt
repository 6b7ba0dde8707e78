//! The bytes of a file, read ahead in large pieces.
ghost use Rattle.std.specs.Prelude.{◌≡◌, ◌++◌, ◌==◌, [], None, take, length, min};
ghost use Rattle.vg_pcap.specs.Reader.{IsReadable};

use std::marker::Model;
use vg_base::{Failed, Files};

/// The bytes of an open file from some place on, or no bytes at all.
#[derive(Drop)]
pub(crate) struct Buffered {
    id: Option<u32>,
    buffer: Vec<u8>,
    // What stands in the buffer from here and up to there is still to be given.
    from: usize,
    until: usize,
}

impl Model for Buffered {
    ghost use Rattle.std.specs.Prelude.{◌≡◌, ◌-◌, ◌<◌, ◌≤◌, None, take, drop, vec_len};
    ghost use Rattle.vg_pcap.specs.Buffered.{Source};

    ghost Value = { Source };

    ghost view = { λ b. record { id = b.id; ahead = take (b.until - b.from) (drop b.from b.buffer.items) } };

    ghost invariant = { λ b. (b.from ≤ b.until) × (b.until ≤ vec_len b.buffer) × (0 < vec_len b.buffer) × (b.id ≡ None → b.from ≡ b.until) };
}

impl Buffered {
    ghost use Rattle.std.specs.Prelude.{vec_len, ◌<◌};
    ghost use Rattle.vg_pcap.specs.Buffered.{Refills, ReadsSome, ReadsInto};

    /// The bytes of a file that was just opened, or none; nothing of them is read yet.
    pub(crate) fn new(id: Option<u32>, buffer: Vec<u8>) -> Buffered
        requires { 0 < vec_len buffer }
        ensures id { result.id ≡ id }
        ensures ahead { result.ahead ≡ [] }
    {
        Buffered {
            id,
            buffer,
            from: 0,
            until: 0,
        }
    }

    /// The open id of the file.
    pub(crate) fn id(&self) -> Option<u32>
        ensures { result ≡ self.now.id }
    {
        self.id
    }

    fn has_none_ahead(&self) -> bool
        ensures { result ≡ (length self.now.ahead == 0) }
    {
        self.from == self.until
    }

    // Reads ahead, where nothing is left.
    fn refill<F: Files>(&mut self, files: &mut F) -> Result<(), Failed>
        requires readable { IsReadable (F.disk files.old) self.old.id }
        requires none { self.old.ahead ≡ [] }
        ensures { Refills (F.disk files.old) (F.disk files.new) self.old self.new result }
    {
        let Some(id) = self.id else {
            return Ok(());
        };
        let n = files.read(id, self.buffer.as_mut_slice())?;
        self.from = 0;
        self.until = n;
        Ok(())
    }

    // Gives bytes that were read ahead, as many as there are and as fit.
    fn give(&mut self, into: &mut [u8]) -> usize
        ensures id { self.new.id ≡ self.old.id }
        ensures count { result ≡ min (length self.old.ahead) (length into.old) }
        ensures given { self.old.ahead ≡ take result into.new ++ self.new.ahead }
        ensures none { self.old.id ≡ None → self.old.ahead ≡ [] }
    {
        let n = (self.until - self.from).min(into.len());
        into[..n].copy_from_slice(&self.buffer[self.from..self.from + n]);
        self.from += n;
        n
    }

    // Gives next bytes, none of them only at the end.
    fn read_some<F: Files>(&mut self, files: &mut F, into: &mut [u8]) -> Result<usize, Failed>
        requires { IsReadable (F.disk files.old) self.old.id }
        ensures { ReadsSome (F.disk files.old) (F.disk files.new) self.old self.new into.new result }
    {
        if self.has_none_ahead() {
            self.refill(files)?;
        }
        Ok(self.give(into))
    }

    /// Gives next bytes, and fewer than there is room for only at the end.
    pub(crate) fn read_into<F: Files>(
        &mut self,
        files: &mut F,
        into: &mut [u8],
    ) -> Result<usize, Failed>
        requires { IsReadable (F.disk files.old) self.old.id }
        ensures { ReadsInto (F.disk files.old) (F.disk files.new) self.old self.new into.new result }
    {
        let mut done = 0;
        while done < into.len() {
            let n = self.read_some(files, &mut into[done..])?;
            if n == 0 {
                return Ok(done);
            }
            done += n;
        }
        Ok(done)
    }
}
