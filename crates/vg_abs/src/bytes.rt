//! Bytes as a value.
ghost use Rattle.std.specs.Prelude.{◌≡◌, IfOk, replicate};

use std::alloc::{AllocError, Global};
use std::marker::Model;
use vg_parts::Memory;

/// Some bytes.
#[derive(Drop)]
pub struct Bytes {
    list: Vec<u8>,
}

impl Model for Bytes {
    ghost use Rattle.std.specs.Prelude.{List, ℕ};

    ghost Value = { List ℕ };

    ghost view = { λ b. b.list.items };
}

impl Bytes {
    /// These bytes.
    pub fn new(alloc: Global, bytes: &[u8]) -> Result<Bytes, Memory>
        ensures { IfOk result (λ made. made ≡ bytes.now) }
    {
        let list = Vec::from_slice(alloc, bytes)?;
        Ok(Bytes { list })
    }

    /// So many bytes, all 0.
    pub fn zeros(alloc: Global, count: u64) -> Result<Bytes, Memory>
        ensures { IfOk result (λ made. made ≡ replicate count 0) }
    {
        let mut list = Vec::new(alloc);
        list.resize(count as usize, 0)?;
        Ok(Bytes { list })
    }

    /// The bytes.
    pub fn as_slice(&self) -> &[u8]
        ensures { result.now ≡ self.now }
    {
        &self.list
    }
}

impl Clone for Bytes {
    ghost is_clone = { λ x y. y ≡ x };

    fn clone(&self) -> Result<Bytes, AllocError> {
        let list = Vec::from_slice(*self.list.allocator(), &self.list)?;
        Ok(Bytes { list })
    }
}
