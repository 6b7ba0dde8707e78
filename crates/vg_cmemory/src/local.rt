//! Where the object of a declaration is kept.
ghost use Rattle.std.specs.Prelude.{◌≡◌, ◌<◌, ◌+◌, ◌^◌, length, None};
ghost use Rattle.vg_cmemory.specs.Kept.{slot_of};
ghost use Rattle.vg_cmemory.specs.State.{made, ended, held};
ghost use Rattle.vg_cmemory.specs.Access.{put_in_slot, bytes_of_word};

use crate::bytes::put;
use crate::object::Pointer;

/// The bytes of one declaration's objects. One lives in the run that made it, until its life ends.
#[derive(Drop)]
pub struct Local {
    pub(crate) bytes: Vec<Option<u8>>,
    pub(crate) points: Option<Pointer>,
    pub(crate) number: u64,
    pub(crate) run: u64,
}

/// A new object, of which nothing is set.
pub fn begin(local: &mut Local, run: u64, number: u64)
    ensures value { slot_of run local.new ≡ made number (slot_of run local.old) }
    ensures run { local.new.run ≡ run }
{
    local.bytes.fill(None);
    local.points = None;
    local.number = number;
    local.run = run;
}

/// The object lives no longer.
pub fn end(local: &mut Local, run: u64)
    requires { 0 < run }
    ensures value { slot_of run local.new ≡ ended (slot_of run local.old) }
    ensures run { local.new.run ≡ 0 }
{
    local.run = 0;
}

/// A pointer variable is set.
pub fn hold(local: &mut Local, run: u64, pointer: Pointer)
    ensures value { slot_of run local.new ≡ held pointer (slot_of run local.old) }
    ensures run { local.new.run ≡ local.old.run }
{
    local.points = Some(pointer);
}

/// The low bytes of a word are written from one byte on.
pub fn write(local: &mut Local, run: u64, at: u64, size: u32, word: u64)
    requires near { at + size < 2 ^ 64 }
    ensures value { slot_of run local.new ≡ put_in_slot at (bytes_of_word size word) (slot_of run local.old) }
    ensures run { local.new.run ≡ local.old.run }
{
    put(&mut local.bytes, at, size, word);
}

/// What was made in any run is forgotten.
pub fn forget(local: &mut Local)
    ensures size { length local.new.bytes.items ≡ length local.old.bytes.items }
    ensures run { local.new.run ≡ 0 }
{
    local.run = 0;
}
