//! A state of the library.
ghost use Rattle.std.specs.Prelude.{◌≡◌, IfOk};

use crate::object::Object;
use std::alloc::Global;
use std::marker::Model;
use vg_parts::Memory;

/// A state of the library, full or partial: the tables of its objects, in order of declaration.
#[derive(Drop)]
pub struct LibState {
    pub full: bool,
    pub objects: Vec<Object>,
}

impl Model for LibState {
    ghost use Rattle.vg_abs.specs.State.{State};
    ghost use Rattle.vg_abs.specs.StateCodes.{state_code};

    ghost Value = { State };

    ghost coded = { state_code };

    ghost view = { λ s. record { full = s.full; objects = s.objects.items } };
}

impl LibState {
    /// The same state once more.
    pub fn copy(&self, alloc: Global) -> Result<LibState, Memory>
        ensures { IfOk result (λ copied. copied ≡ self.now) }
    {
        let mut objects = Vec::new(alloc);
        for object in &self.objects {
            objects.push(object.copy(alloc)?)?;
        }
        Ok(LibState {
            full: self.full,
            objects,
        })
    }
}
