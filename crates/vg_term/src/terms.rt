//! The store of terms.

ghost use Rattle.std.specs.Prelude.{◌≡◌, ◌<◌, ◌≤◌, [], ◌∷◌, map, take, length, All, IfOk, Some, slice_get};
ghost use Rattle.vg_term.specs.Operations.{Fits, FitsNone, FitsOne, FitsTwo, width_of, width_none, width_one, width_two};
ghost use Rattle.vg_term.specs.Terms.{AreTerms, ComesNext, HasWidth, Stands, Needs, width_at, variable_count, held, listed, operation};
ghost use Rattle.vg_term.specs.Folding.{IsMark};
ghost use Rattle.vg_term.specs.declared.node.Node.TheVariants as nodes;

use crate::node::{Node, Op, Parts, TermId};
use crate::stops::TermStop;
use indexmap::IndexMap;
use std::alloc::Global;
use std::marker::Model;
use vg_parts::Memory;

/// How many terms may stand.
pub const MOST_TERMS: u32 = 4_194_304;

/// How many terms and variables stood.
#[derive(Clone, Copy, PartialEq, Eq, Debug)]
pub(crate) struct Mark {
    pub(crate) terms: u32,
    pub(crate) variables: u32,
}

/// Terms, each numbered by its place. Equal operations on equal parts are one term. Contracts see the list of what they are made of, with their widths.
#[derive(Drop)]
pub struct Terms {
    // The width of each term, in the order of the terms' numbers.
    nodes: IndexMap<Node, u8>,
    variables: u32,
}

impl Model for Terms {
    ghost use Rattle.std.specs.Prelude.{◌≡◌, ◌≤◌, List, length};
    ghost use Rattle.vg_term.specs.Terms.{AreTerms, Term, variable_count};

    ghost Value = { List Term };

    ghost view = { λ t. t.nodes.entries };

    ghost invariant = { λ t. AreTerms t.nodes.entries × (t.variables ≡ variable_count t.nodes.entries) × (length t.nodes.entries ≤ 4194304) };
}

impl Terms {
    /// No terms. What they need of memory is taken as they are made.
    pub fn new(alloc: Global) -> Result<Terms, Memory>
        ensures { IfOk result (λ terms. terms ≡ []) }
    {
        Ok(Terms {
            nodes: IndexMap::new(alloc),
            variables: 0,
        })
    }

    /// How many terms stand.
    pub fn len(&self) -> u32
        ensures len { result ≡ length self.now }
        ensures most { result ≤ MOST_TERMS }
        ensures made { AreTerms self.now }
    {
        self.nodes.len() as u32
    }

    /// The width of a term, in bits.
    #[tactic(auto, using(crate::proofs::Ranges::width_some, crate::proofs::Ranges::width_most))]
    pub fn width(&self, term: TermId) -> u8
        requires { Stands self.now term }
        ensures width { result ≡ width_at self.now term }
        ensures some { 0 < result }
        ensures most { result ≤ 64 }
        ensures made { AreTerms self.now }
    {
        self.entry(term).1
    }

    /// What a term is made of.
    pub fn node(&self, term: TermId) -> Node
        requires { Stands self.now term }
        ensures node { slice_get self.now term.0 ≡ Some (result, width_at self.now term) }
        ensures made { AreTerms self.now }
    {
        self.entry(term).0
    }

    fn entry(&self, term: TermId) -> (Node, u8)
        requires { Stands self.now term }
        ensures entry { slice_get self.now term.0 ≡ Some result }
        ensures made { AreTerms self.now }
    {
        match self.nodes.get_index(term.0 as usize) {
            Some((node, width)) => (*node, *width),
            None => unreachable!(),
        }
    }

    /// A new variable of `width` bits, numbered after those before it.
    pub fn var(&mut self, width: u8) -> Result<TermId, TermStop>
        requires not_empty { 0 < width }
        requires at_most_64 { width ≤ 64 }
        ensures made { AreTerms self.new }
        ensures term { Needs self.old self.new (nodes.Var (variable_count self.old) width, width) result }
    {
        let node = Node::Var {
            number: self.variables,
            width,
        };
        let id = need(&mut self.nodes, node, width)?;
        self.variables += 1;
        Ok(id)
    }

    /// The term of an operation on parts that fit it. Where it stands already it is answered; else it is added. Nothing is folded.
    pub fn make(&mut self, op: Op, parts: &[TermId]) -> Result<TermId, TermStop>
        requires parts_stand { All (Stands self.old) parts.now }
        requires fits { Fits op (map (width_at self.old) parts.now) }
        ensures stood { AreTerms self.old }
        ensures made { AreTerms self.new }
        ensures term { Needs self.old self.new (operation self.old op parts.now) result }
    {
        let held = Parts::new(parts);
        let width = self.answer_width(op, held);
        need(&mut self.nodes, Node::Op(op, held), width)
    }

    /// How many terms and variables stand.
    pub(crate) fn mark(&self) -> Mark
        ensures mark { IsMark self.now result }
        ensures made { AreTerms self.now }
    {
        Mark {
            terms: self.nodes.len() as u32,
            variables: self.variables,
        }
    }

    /// Forgets the terms after those that stood at a mark.
    pub(crate) fn forget(&mut self, mark: Mark)
        requires stood { mark.terms ≤ length self.old }
        requires variables { mark.variables ≡ variable_count (take mark.terms self.old) }
        ensures { self.new ≡ take mark.terms self.old }
    {
        self.nodes.truncate(mark.terms as usize);
        self.variables = mark.variables;
    }

    // The width of an operation's answer.
    pub(crate) fn answer_width(&self, op: Op, parts: Parts) -> u8
        requires parts_stand { All (Stands self.now) (listed parts) }
        requires fits { Fits op (map (width_at self.now) (listed parts)) }
        ensures { result ≡ width_of op (map (width_at self.now) (listed parts)) }
    {
        match parts {
            Parts::Zero => width_of_none(op),
            Parts::One(a) => width_of_one(op, self.width(a)),
            Parts::Two(a, b) => width_of_two(op, self.width(a), self.width(b)),
            Parts::Three(_, a, _) => self.width(a),
        }
    }
}

// The number of the entry with this key, which is added where there is none.
fn need(nodes: &mut IndexMap<Node, u8>, node: Node, width: u8) -> Result<TermId, TermStop>
    requires most { length nodes.old.entries ≤ 4194304 }
    requires width { HasWidth nodes.old.entries node width }
    ensures { Needs nodes.old.entries nodes.new.entries (node, width) result }
{
    if let Some(at) = nodes.get_index_of(&node) {
        return Ok(TermId(at as u32));
    }
    let number = nodes.len() as u32;
    if number >= MOST_TERMS {
        return Err(TermStop::Full);
    }
    match nodes.insert(node, width) {
        Ok(_) => Ok(TermId(number)),
        Err(_) => Err(TermStop::Memory),
    }
}

fn width_of_none(op: Op) -> u8
    requires { FitsNone op }
    ensures { result ≡ width_none op }
{
    match op {
        Op::Const(word) => word.width,
        _ => unreachable!(),
    }
}

fn width_of_one(op: Op, a: u8) -> u8
    requires { FitsOne op a }
    ensures { result ≡ width_one op a }
{
    match op {
        Op::Extract { width, .. } | Op::Zext(width) | Op::Sext(width) => width,
        _ => a,
    }
}

fn width_of_two(op: Op, a: u8, b: u8) -> u8
    requires { FitsTwo op a b }
    ensures { result ≡ width_two op a b }
{
    match op {
        Op::Eq | Op::Ult | Op::Slt => 1,
        Op::Concat => a + b,
        _ => a,
    }
}
