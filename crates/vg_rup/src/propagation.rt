// Unit propagation over lists of literals, pass by pass.

ghost use Rattle.std.specs.Prelude.{◌≡◌, pos, false, IfOk};
ghost use Rattle.vg_cnf.specs.Orders.{IsConsistent, occurs};
ghost use Rattle.vg_rup.specs.Propagation.{Forces, Passes, Propagates};

use crate::assignment::Assignment;
use std::alloc::AllocError;
use vg_cnf::{Lit, LiteralLists};

/// What a clause forces where some literals are true.
#[derive(Clone, Copy)]
enum Forced {
    /// Nothing: a literal of it is true, or two different ones are not false.
    Nothing,
    /// That the only literal that isn't false is true.
    Literal(Lit),
    /// A contradiction: all its literals are false.
    Conflict,
}

/// How a pass over the clauses ended.
#[derive(Clone, Copy)]
enum Pass {
    /// No clause forced anything.
    Settled,
    /// Literals were made true.
    Grew,
    /// A clause is false.
    Conflict,
}

/// Makes true what the clauses force, until they force nothing more, and answers whether a clause became false.
pub(crate) fn propagate(clauses: &LiteralLists, made: &mut Assignment) -> Result<bool, AllocError>
    requires nonzero { occurs clauses.now (pos 0) ≡ false }
    requires consistent { IsConsistent made.old }
    ensures { IfOk result (Propagates clauses.now made.old made.new) }
{
    loop {
        match run_pass(clauses, made)? {
            Pass::Settled => return Ok(false),
            Pass::Grew => {}
            Pass::Conflict => return Ok(true),
        }
    }
}

/// Makes true what each clause forces in turn.
fn run_pass(clauses: &LiteralLists, made: &mut Assignment) -> Result<Pass, AllocError>
    requires nonzero { occurs clauses.now (pos 0) ≡ false }
    requires consistent { IsConsistent made.old }
    ensures { IfOk result (Passes clauses.now made.old made.new) }
{
    let mut grew = false;
    for at in 0..clauses.len() {
        match forced_by(clauses.get(at), made) {
            Forced::Nothing => {}
            Forced::Literal(literal) => {
                made.make_true(literal)?;
                grew = true;
            }
            Forced::Conflict => return Ok(Pass::Conflict),
        }
    }
    Ok(if grew { Pass::Grew } else { Pass::Settled })
}

/// What a clause forces.
fn forced_by(clause: &[Lit], made: &Assignment) -> Forced
    ensures { Forces made.now clause.now result }
{
    let mut open: Option<Lit> = None;
    for literal in clause {
        if made.is_true(*literal) {
            return Forced::Nothing;
        }
        if !made.is_false(*literal) {
            match open {
                None => open = Some(*literal),
                Some(other) => {
                    if other != *literal {
                        return Forced::Nothing;
                    }
                }
            }
        }
    }
    match open {
        None => Forced::Conflict,
        Some(literal) => Forced::Literal(literal),
    }
}
