//! A specification.
ghost use Rattle.std.specs.Prelude.{◌≡◌, IfOk};
ghost use Rattle.vg_stree.specs.Specification.{name_of_object, declares};
ghost use Rattle.vg_stree.specs.Names.{spelled_at};
ghost use Rattle.vg_stree.specs.Depths.{NestsLittle};

use crate::code::{Code, Parts};
use crate::depths::check_nesting;
use crate::names::Names;
use crate::shape::Shape;
use std::alloc::Global;
use std::marker::Model;
use vg_parts::Memory;

/// A specification: the names that it declares, what they are, its expressions and statements, and the block of its step. It nests at
/// most 1,000 deep, and no call has more than 64 arguments.
#[derive(Drop)]
pub struct Spec {
    names: Names,
    declared: Shape,
    written: Code,
    block: Parts,
}

impl Model for Spec {
    ghost use Rattle.vg_stree.specs.Specification.{Specification};
    ghost use Rattle.vg_stree.specs.Depths.{NestsLittle};

    ghost Value = { Specification };

    ghost view = { λ s. record { names = s.names; shape = s.declared; code = s.written; step = s.block } };

    ghost invariant = { λ s. NestsLittle s.written s.block };
}

impl Spec {
    /// A specification of these parts. Where it nests more than 1,000 deep, or a call has more than 64 arguments, memory is wanted.
    pub fn new(
        alloc: Global,
        names: Names,
        shape: Shape,
        code: Code,
        step: Parts,
    ) -> Result<Spec, Memory>
        ensures { IfOk result (λ spec. spec ≡ record { names = names; shape = shape; code = code; step = step }) }
    {
        check_nesting(alloc, &code, step)?;
        Ok(Spec {
            names,
            declared: shape,
            written: code,
            block: step,
        })
    }

    /// What it declares.
    pub fn shape(&self) -> &Shape
        ensures { result.now ≡ self.now.shape }
    {
        &self.declared
    }

    /// Its expressions and statements.
    pub fn code(&self) -> &Code
        ensures code { result.now ≡ self.now.code }
        ensures nested { NestsLittle result.now self.now.step }
    {
        &self.written
    }

    /// The block of its step.
    pub fn step(&self) -> Parts
        ensures { result ≡ self.now.step }
    {
        self.block
    }

    /// The same specification once more.
    pub fn copy(&self, alloc: Global) -> Result<Spec, Memory>
        ensures { IfOk result (λ copied. copied ≡ self.now) }
    {
        Ok(Spec {
            names: self.names.copy(alloc)?,
            declared: self.declared.copy(alloc)?,
            written: self.written.copy(alloc)?,
            block: self.block,
        })
    }
}

/// The name that is declared at a place of the text, and nothing where none is.
pub fn name_at(spec: &Spec, at: u32) -> &str
    ensures { result.now ≡ spelled_at spec.now.names at }
{
    spec.names.name_at(at)
}

/// The name of an object, by its number in order of declaration, and nothing where there is no such object.
pub fn object_name(spec: &Spec, object: u16) -> &str
    ensures { result.now ≡ name_of_object spec.now object }
{
    match spec.declared.objects().get(object as usize) {
        Some(declared) => spec.names.name_at(declared.at),
        None => "",
    }
}

/// Whether a word is the name of a declaration: of a number, a struct, an object or a define. Fields' names are none.
pub fn is_declared(spec: &Spec, word: &[u8]) -> bool
    ensures { result ≡ declares spec.now word.now }
{
    spec.names.declare(spec.declared.fields(), word)
}
