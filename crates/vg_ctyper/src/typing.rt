//! Typing a whole text.
ghost use Rattle.std.specs.Prelude.{◌≡◌, ◌⊎◌, ℕ, List, length, IfOk, IfErr, Ok, Err, OnOk, MatchResult};
ghost use Rattle.vg_core.specs.Syntax.{Syntax, IsOrdered, IsUsedOnce};
ghost use Rattle.vg_core.specs.Units.{Typed};
ghost use Rattle.vg_core.specs.declared.unit.Note.{Note};
ghost use Rattle.vg_cscope.specs.Scopes.{standings_of};
ghost use Rattle.vg_ctyper.specs.Notes as notes;
ghost use Rattle.vg_ctyper.specs.Passes as passes;
ghost use Rattle.vg_ctyper.specs.Small.{AreSmall};
ghost use Rattle.vg_ctyper.specs.WellTyped.{AreNotes, IsWellTyped, IsFirstFault};
ghost use Rattle.vg_ctyper.specs.declared.fault.TypeFault.{TypeFault};
ghost use Rattle.vg_ctyper.specs.Views.{known, seen};
ghost use Rattle.vg_ctyper.specs.declared.fault.TypeFault.TheVariants as type_faults;

use crate::declaration_rules::last_of;
use crate::fault::{TypeFault, sooner};
use crate::given::Given;
use crate::notes::BLANK;
use std::alloc::{AllocError, Global};
use vg_core::{Kind, Note, Tree, Unit};
use vg_cscope::{Scopes, kind_at};

/// What is known behind some nodes: notes on them, the bytes of the variables that blocks declare, up to 65,537, and the first fault.
#[derive(Drop)]
struct Progress {
    notes: Vec<Note>,
    locals: u32,
    first: Option<TypeFault>,
}

/// The typed text of a tree that the bytes' tokens spell, with one note on each node.
///
/// `Typing` is answered where a typing rule of the profile is broken, `Padded` where a struct that isn't packed would get bytes between or behind its
/// fields, `Recursive` where a function calls itself, and `Turns` where a loop has more than 4,096 turns, each the first by its place, at one place
/// the lowest rule, and behind all rules the others in this order; `Turns` at the name of `nf_process` where it may take more than 1,000,000 steps and
/// there is no other fault. `Memory` is answered where memory ran out.
#[tactic(auto, using(crate::proofs::Deciding::of_its_text, crate::proofs::Deciding::of_its_tree, crate::proofs::Deciding::first_fault))]
pub fn type_unit(alloc: Global, text: &[u8], tree: Tree) -> Result<Unit, TypeFault>
    ensures text { IfOk result (λ u. u.text ≡ text.now) }
    ensures tree { IfOk result (λ u. u.tree ≡ tree) }
    ensures typed { IsOrdered tree → IsUsedOnce tree → IfOk result (λ u. IsWellTyped u) }
    ensures fault { IfErr result (λ e. (e ≡ type_faults.Memory) ⊎ IsFirstFault text.now tree e) }
    ensures only_typed { (ns : List Note) → IsWellTyped (record { text = text.now; tree = tree; notes = ns })
        → MatchResult result (λ u. u.notes ≡ ns) (λ e. e ≡ type_faults.Memory) }
    ensures only_fault { (f : TypeFault) → IsFirstFault text.now tree f → MatchResult result (λ _. ⊥) (λ e. (e ≡ type_faults.Memory) ⊎ (e ≡ f)) }
{
    typed(alloc, text, tree)
}

/// There is one list of notes on a tree.
pub fn notes_are_one()
    ensures { (text : List ℕ) (tree : Syntax) (ms ns : List Note) → AreNotes text tree ms → AreNotes text tree ns → ms ≡ ns }
{}

/// An object of a type that a note of a well typed text has takes at most 65,536 bytes.
pub fn types_are_small()
    ensures { (u : Typed) → IsWellTyped u → AreSmall u.notes }
{}

/// The typed text of a tree, or its first fault.
fn typed(alloc: Global, text: &[u8], tree: Tree) -> Result<Unit, TypeFault>
    ensures typed { IfOk result (λ u. passes.typed text.now tree ≡ Ok u) }
    ensures fault { IfErr result (λ e. (e ≡ type_faults.Memory) ⊎ (passes.typed text.now tree ≡ Err e)) }
{
    let progress = progress_of(alloc, text, &tree)?;
    match or_whole(&tree, &progress) {
        Some(fault) => Err(fault),
        None => {
            let mut bytes = Vec::new(alloc);
            bytes.extend_from_slice(text)?;
            Ok(Unit::new(bytes, tree, progress.notes))
        }
    }
}

/// Notes on all nodes of a text, and the first fault.
fn progress_of(alloc: Global, text: &[u8], tree: &Tree) -> Result<Progress, AllocError>
    ensures { IfOk result (λ p. seen p ≡ passes.typed_below text.now tree.now (standings_of tree.now) (length tree.now.nodes)) }
{
    let scopes = Scopes::of(alloc, text, tree)?;
    type_nodes(alloc, &scopes)
}

/// Notes on all nodes, and the first fault.
fn type_nodes(alloc: Global, scopes: &Scopes) -> Result<Progress, AllocError>
    ensures { IfOk result (λ p. seen p ≡ passes.typed_below scopes.now.text.now scopes.now.tree.now scopes.now.standings.items
        (length scopes.now.tree.now.nodes)) }
{
    let mut progress = Progress {
        notes: Vec::new(alloc),
        locals: 0,
        first: None,
    };
    for n in 0..scopes.tree.nodes().len() as u32 {
        type_node(scopes, &mut progress, n)?;
    }
    Ok(progress)
}

/// One node further.
fn type_node(scopes: &Scopes, progress: &mut Progress, n: u32) -> Result<(), AllocError>
    ensures { OnOk result (seen progress.new ≡ passes.node_typed (passes.known_behind scopes.now.text.now scopes.now.tree.now
        scopes.now.standings.items progress.old.notes.items) n (seen progress.old)) }
{
    let given = Given {
        scopes,
        notes: &progress.notes,
    };
    let kind = given.kind(n);
    let fault = given.broken(progress.locals, n);
    let note = note_unless(fault, given.note_of(n, kind));
    let locals = given.locals_behind(progress.locals, kind, note);
    progress.notes.push(note)?;
    progress.locals = locals;
    progress.first = sooner(progress.first, fault);
    Ok(())
}

/// Nothing is said of a node that breaks a rule.
fn note_unless(fault: Option<TypeFault>, note: Note) -> Note
    ensures { result ≡ notes.note_unless fault note }
{
    match fault {
        Some(_) => BLANK,
        None => note,
    }
}

impl Given<'_> {
    /// The bytes of the variables that blocks declare, up to and with a node.
    fn locals_behind(&self, locals: u32, kind: Kind, note: Note) -> u32
        ensures { result ≡ notes.locals_behind (known self.now) locals kind note }
    {
        match kind {
            Kind::Declare { .. } => {
                let size = match note.of {
                    Some(of) => self.size_of(of),
                    None => 0,
                };
                capped_bytes(u128::from(locals) + u128::from(size))
            }
            _ => locals,
        }
    }
}

fn capped_bytes(bytes: u128) -> u32
    ensures { result ≡ notes.capped_bytes bytes }
{
    if bytes < 65537 { bytes as u32 } else { 65537 }
}

/// The first fault of all nodes, or where there is none, that of the whole.
fn or_whole(tree: &Tree, progress: &Progress) -> Option<TypeFault>
    ensures { result ≡ passes.or_whole tree.now (seen progress.now) }
{
    match progress.first {
        Some(fault) => Some(fault),
        None => whole_fault(tree, &progress.notes),
    }
}

/// Whether `nf_process`, the last item, takes at most 1,000,000 steps.
fn whole_fault(tree: &Tree, list: &[Note]) -> Option<TypeFault>
    ensures { result ≡ notes.whole_fault tree.now list.now }
{
    let whole = tree.nodes().len().saturating_sub(1);
    let Kind::Unit { items } = kind_at(tree, whole as u32) else {
        return None;
    };
    let item = last_of(tree.listed(items))?;
    let steps = match list.get(item as usize) {
        Some(note) => note.steps,
        None => 0,
    };
    process_fault(steps, kind_at(tree, item))
}

fn process_fault(steps: u32, kind: Kind) -> Option<TypeFault>
    ensures { result ≡ notes.process_fault steps kind }
{
    match kind {
        Kind::Function { name, .. } if steps > 1_000_000 => {
            Some(TypeFault::Turns { at: name.from })
        }
        _ => None,
    }
}

impl From<AllocError> for TypeFault {
    ghost from_gives = { λ _ e. e ≡ type_faults.Memory };

    fn from(_e: AllocError) -> TypeFault {
        TypeFault::Memory
    }
}
