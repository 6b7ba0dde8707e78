//! Reading what a run needs, and verifying it.
ghost use Rattle.std.specs.Prelude.{◌<◌, ◌^◌, length, IfOk, IfErr};
ghost use Rattle.vg_command.specs.View.{files_of};
ghost use Rattle.vg_small.specs.Spelling.{Spells};
ghost use Rattle.vg_top.specs.Setup.{LoadsText, LoadsTexts, StopsReading, Verifies, ReadsFunctions};

use crate::agreement::first_difference;
use crate::limits::MAX_TEXT;
use crate::stop::{Stop, Unbuilt};
use std::alloc::Global;
use vg_base::{Files, LoadFault, MAX_OPEN, load};
use vg_command::FileNames;
use vg_small::{Lang, Small, SmallFault, read_small};

/// The C text and the specification.
#[derive(Drop)]
pub struct Texts {
    pub c: Vec<u8>,
    pub spec: Vec<u8>,
}

/// A C function and its specification.
#[derive(Drop)]
pub struct Functions {
    pub c: Small,
    pub spec: Small,
}

// The bytes of a text in this language.
fn load_text<F: Files>(
    alloc: Global,
    files: &mut F,
    name: &str,
    lang: Lang,
) -> Result<Vec<u8>, Stop>
    requires { (F.disk files.old).open_count < MAX_OPEN }
    ensures { LoadsText (F.disk files.old) (F.disk files.new) name.now lang result }
{
    match load(alloc, files, name, MAX_TEXT) {
        Ok(bytes) => Ok(bytes),
        Err(LoadFault::Read) => Err(Stop::Read),
        Err(LoadFault::TooLong) => Err(Stop::Limit(lang)),
        Err(LoadFault::Memory) => Err(Stop::Memory),
    }
}

// Loads the C text, and then the specification.
fn load_texts<F: Files>(alloc: Global, files: &mut F, names: &FileNames<'_>) -> Result<Texts, Stop>
    requires { (F.disk files.old).open_count < MAX_OPEN }
    ensures { LoadsTexts (F.disk files.old) (F.disk files.new) (files_of names.now) result }
{
    let c = load_text(alloc, files, names.c, Lang::C)?;
    let spec = load_text(alloc, files, names.spec, Lang::Spec)?;
    Ok(Texts { c, spec })
}

// The function that a text spells.
fn read_function(alloc: Global, text: &[u8], lang: Lang) -> Result<Small, Stop>
    requires { length text.now < 2 ^ 31 }
    ensures spells { IfOk result (Spells lang text.now) }
    ensures stops { IfErr result (StopsReading lang text.now) }
{
    match read_small(alloc, text, lang) {
        Ok(small) => Ok(small),
        Err(SmallFault::Form) => Err(Stop::NotBuilt(Unbuilt::Text(lang))),
        Err(SmallFault::Memory) => Err(Stop::Memory),
    }
}

// The functions that both texts spell, which agree and are of so many ports.
fn functions_in(alloc: Global, texts: &Texts, ports: usize) -> Result<Functions, Stop>
    requires c { length texts.now.c.items < 2 ^ 31 }
    requires spec { length texts.now.spec.items < 2 ^ 31 }
    ensures { Verifies texts.now.c.items texts.now.spec.items ports result }
{
    let c = read_function(alloc, &texts.c, Lang::C)?;
    let spec = read_function(alloc, &texts.spec, Lang::Spec)?;
    if !c.sends_below(spec.ports) {
        return Err(Stop::NotBuilt(Unbuilt::Text(Lang::C)));
    }
    if ports != spec.ports as usize {
        return Err(Stop::Usage);
    }
    match first_difference(&c, &spec) {
        None => Ok(Functions { c, spec }),
        Some(port) => Err(Stop::Wrong { at: c.at, port }),
    }
}

/// Reads both texts and verifies that the C function does what its specification says.
pub fn read_functions<F: Files>(
    alloc: Global,
    files: &mut F,
    names: &FileNames<'_>,
) -> Result<Functions, Stop>
    requires { (F.disk files.old).open_count < MAX_OPEN }
    ensures { ReadsFunctions (F.disk files.old) (F.disk files.new) (files_of names.now) result }
{
    let texts = load_texts(alloc, files, names)?;
    functions_in(alloc, &texts, names.ins.len())
}
