//! Terms in prefix order: an operation stands before its operands. Parentheses show which belong together, and aren't read.

use crate::operations::{Way, applied, operation};
use crate::stop::Stop;
use std::alloc::Global;
use vg_bits::Word;
use vg_term::{Op, TermId, Terms};

/// The terms of a question, and the names that its words may be.
#[derive(Drop)]
pub struct Reading<'a> {
    pub terms: Terms,
    /// Names of variables, in their order among the terms' variables.
    pub variables: Vec<&'a str>,
    named: Vec<(&'a str, TermId)>,
}

impl<'a> Reading<'a> {
    /// No terms and no names.
    pub fn new(alloc: Global) -> Result<Reading<'a>, Stop> {
        Ok(Reading {
            terms: Terms::new(alloc)?,
            variables: Vec::new(alloc),
            named: Vec::new(alloc),
        })
    }

    /// Gives a term a name.
    pub fn name(&mut self, name: &'a str, term: TermId) -> Result<(), Stop> {
        self.named.push((name, term))?;
        Ok(())
    }

    fn named(&self, name: &str) -> Option<TermId> {
        for (other, term) in &self.named {
            if *other == name {
                return Some(*term);
            }
        }
        None
    }

    /// A new variable of this name and width.
    pub fn variable(&mut self, name: &'a str, width: &str) -> Result<(), Stop> {
        let width = width.parse::<u8>().map_err(|_| Stop::Word)?;
        if width == 0 || width > 64 {
            return Err(Stop::Word);
        }
        let variable = self.terms.var(width)?;
        self.variables.push(name)?;
        self.name(name, variable)
    }

    fn number(&mut self, value: &str, width: &str) -> Result<TermId, Stop> {
        let value = value.parse::<u64>().map_err(|_| Stop::Word)?;
        let width = width.parse::<u8>().map_err(|_| Stop::Word)?;
        if width == 0 || width > 64 {
            return Err(Stop::Word);
        }
        let word = Word::from_low_bits(width, value);
        Ok(self.terms.make(Op::Const(word), &[])?)
    }

    // The term of an operand: `NUMBER:WIDTH`, or a name.
    fn operand(&mut self, word: &str) -> Result<TermId, Stop> {
        match word.split_once(':') {
            None => self.named(word).ok_or(Stop::Word),
            Some((value, width)) => self.number(value, width),
        }
    }

    /// The term that a text spells, read from its end.
    pub fn term(&mut self, alloc: Global, way: Way, text: &str) -> Result<TermId, Stop> {
        let mut words = Vec::new(alloc);
        for word in text.split_ascii_whitespace() {
            words.push(word.trim_start_matches('(').trim_end_matches(')'))?;
        }
        let mut stack = Vec::new(alloc);
        for place in (0..words.len()).rev() {
            let word = words[place];
            let term = match operation(word) {
                Some(op) => applied(&mut self.terms, way, op, &mut stack)?,
                None => self.operand(word)?,
            };
            stack.push(term)?;
        }
        match stack.as_slice() {
            [term] => Ok(*term),
            _ => Err(Stop::Operands),
        }
    }
}
