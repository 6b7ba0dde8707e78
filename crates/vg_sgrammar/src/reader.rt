//! A tree that grows along tokens: where a reader stands, and its steps over one token.
ghost use Rattle.std.specs.Prelude.{◌≡◌, ◌+◌, ◌<◌, ◌++◌, length, IfOk, IfErr, OnOk};
ghost use Rattle.vg_forms.specs.Places.{place_at, end_of, passes, tested};
ghost use Rattle.vg_forms.specs.Reading.{Gives, grown};
ghost use Rattle.vg_forms.specs.Spelling.{start};
ghost use Rattle.vg_forms.specs.declared.stops.Stop.TheVariants as stops;
ghost use Rattle.vg_sgrammar.specs.Growing as grow;
ghost use Rattle.vg_sgrammar.specs.Written.{with_items};
ghost use Rattle.vg_sgrammar.specs.declared.tree.Expression.TheVariants as exprs;
ghost use Rattle.vg_sgrammar.specs.Kinds.{is_sign, is_word, name_of, is_name, number_of, begins_expression};
ghost use Rattle.vg_sgrammar.specs.Rules.{sgrammar, sign, word, name, number};
ghost use Rattle.vg_sgrammar.specs.Reader.{reads, next};

use crate::kinds::{begins_expression, is_sign, is_word, name_of, number_of};
use crate::tree::{Block, Declaration, Expression, Field, Name, Statement, Tree};
use std::alloc::Global;
use std::marker::Model;
use vg_forms::{Stop, Token};
use vg_stok::{Sign, TokenKind, Word};
use vg_stree::{Operation, Parts};

/// Tokens, how many constructs may still be nested in one another, and where memory comes from.
#[derive(Clone, Copy)]
pub struct Source<'a> {
    pub alloc: Global,
    pub toks: &'a [Token<TokenKind>],
    pub room: u8,
}

impl Source<'_> {
    /// The same within a construct that is counted.
    pub fn deeper(self) -> Self
        requires { 0 < self.room }
        ensures tokens { result.toks.now ≡ self.entry.toks.now }
        ensures room { result.room + 1 ≡ self.entry.room }
    {
        Source {
            room: self.room - 1,
            ..self
        }
    }
}

/// How many tokens are read, and the tree that they made.
#[derive(Drop)]
pub struct Reader {
    at: usize,
    tree: Tree,
}

impl Model for Reader {
    ghost use Rattle.vg_sgrammar.specs.Reader.{SState};

    ghost Value = { SState };

    ghost view = { λ r. record { at = r.at; tree = r.tree } };
}

impl Reader {
    /// A reader before the first token.
    pub fn new(alloc: Global) -> Reader
        ensures { result ≡ start sgrammar }
    {
        Reader {
            at: 0,
            tree: Tree::new(alloc),
        }
    }

    /// The tree that the tokens made.
    pub fn into_tree(self) -> Tree
        ensures { result ≡ self.tree }
    {
        let Reader { at: _, tree } = self;
        tree
    }

    /// The next token.
    pub fn next(&self, src: Source<'_>) -> Option<Token<TokenKind>>
        ensures { result ≡ next src.entry self.now }
    {
        src.toks.get(self.at).copied()
    }

    /// The place of the next token, or the end of the last one where no more come.
    pub fn place(&self, src: Source<'_>) -> u32
        ensures { result ≡ place_at src.entry.toks.now self.now.at }
    {
        match self.next(src) {
            Some(t) => t.from,
            None => end_of(src.toks),
        }
    }

    /// Whether the next token is this sign.
    pub fn next_is_sign(&self, src: Source<'_>, which: Sign) -> bool
        ensures { result ≡ passes (is_sign which) (next src.entry self.now) }
    {
        match self.next(src) {
            Some(t) => is_sign(t, which),
            None => false,
        }
    }

    /// Whether the next token is this word.
    pub fn next_is_word(&self, src: Source<'_>, which: Word) -> bool
        ensures { result ≡ passes (is_word which) (next src.entry self.now) }
    {
        match self.next(src) {
            Some(t) => is_word(t, which),
            None => false,
        }
    }

    /// Whether the next token begins an expression.
    pub fn next_is_expression(&self, src: Source<'_>) -> bool
        ensures { result ≡ passes begins_expression (next src.entry self.now) }
    {
        match self.next(src) {
            Some(t) => begins_expression(t),
            None => false,
        }
    }

    /// The next token as a name.
    pub fn next_name(&self, src: Source<'_>) -> Option<Name>
        ensures { result ≡ tested name_of (next src.entry self.now) }
    {
        name_of(self.next(src)?)
    }

    /// Whether the next token is a name.
    pub fn next_is_name(&self, src: Source<'_>) -> bool
        ensures { result ≡ passes is_name (next src.entry self.now) }
    {
        match self.next(src) {
            Some(t) => name_of(t).is_some(),
            None => false,
        }
    }

    /// The next token as a number.
    pub fn next_number(&self, src: Source<'_>) -> Option<u64>
        ensures { result ≡ tested number_of (next src.entry self.now) }
    {
        number_of(self.next(src)?)
    }

    /// Goes on behind the next token.
    pub fn step(&mut self, src: Source<'_>)
        requires { self.old.at < length src.toks.now }
        ensures { self.new ≡ record self.old { at = self.old.at + 1 } }
    {
        self.at += 1;
    }

    /// Reads a sign.
    #[tactic(auto, unfolding(crate::specs::Rules::sign))]
    pub fn sign(&mut self, src: Source<'_>, which: Sign) -> Result<(), Stop>
        ensures { Gives result self.new (reads src.entry (sign which) self.old) }
    {
        if !self.next_is_sign(src, which) {
            return Err(Stop::Wrong);
        }
        self.step(src);
        Ok(())
    }

    /// Reads a word.
    #[tactic(auto, unfolding(crate::specs::Rules::word))]
    pub fn word(&mut self, src: Source<'_>, which: Word) -> Result<(), Stop>
        ensures { Gives result self.new (reads src.entry (word which) self.old) }
    {
        if !self.next_is_word(src, which) {
            return Err(Stop::Wrong);
        }
        self.step(src);
        Ok(())
    }

    /// Reads a name.
    #[tactic(auto, unfolding(crate::specs::Rules::name))]
    pub fn name(&mut self, src: Source<'_>) -> Result<Name, Stop>
        ensures { Gives result self.new (reads src.entry name self.old) }
    {
        let Some(name) = self.next_name(src) else {
            return Err(Stop::Wrong);
        };
        self.step(src);
        Ok(name)
    }

    /// Reads a number.
    #[tactic(auto, unfolding(crate::specs::Rules::number))]
    pub fn number(&mut self, src: Source<'_>) -> Result<u64, Stop>
        ensures { Gives result self.new (reads src.entry number self.old) }
    {
        let Some(number) = self.next_number(src) else {
            return Err(Stop::Wrong);
        };
        self.step(src);
        Ok(number)
    }

    /// Adds an expression, and answers its number.
    pub fn add_expression(&mut self, at: u32, what: Expression) -> Result<u32, Stop>
        ensures made { IfOk result (λ n. (n, self.new) ≡ grown (grow.expression at what self.old.tree) self.old) }
        ensures memory { IfErr result (λ e. e ≡ stops.Memory) }
    {
        Ok(self.tree.add_expression(at, what)?)
    }

    /// Adds a statement, and answers its number.
    pub fn add_statement(&mut self, at: u32, what: Statement) -> Result<u32, Stop>
        ensures made { IfOk result (λ n. (n, self.new) ≡ grown (grow.statement at what self.old.tree) self.old) }
        ensures memory { IfErr result (λ e. e ≡ stops.Memory) }
    {
        Ok(self.tree.add_statement(at, what)?)
    }

    /// Adds a declaration, and answers its number.
    pub fn add_declaration(&mut self, at: u32, what: Declaration) -> Result<u32, Stop>
        ensures made { IfOk result (λ n. (n, self.new) ≡ grown (grow.declaration at what self.old.tree) self.old) }
        ensures memory { IfErr result (λ e. e ≡ stops.Memory) }
    {
        Ok(self.tree.add_declaration(at, what)?)
    }

    /// Adds a call with its arguments, and answers its number.
    pub fn add_call(&mut self, at: u32, define: Name, parts: &[u32]) -> Result<u32, Stop>
        ensures made { IfOk result (λ n. (n, self.new) ≡ grown (grow.expression_with at (exprs.Call define) parts.now self.old.tree) self.old) }
        ensures memory { IfErr result (λ e. e ≡ stops.Memory) }
    {
        let arguments = self.tree.add_items(parts)?;
        Ok(
            self.tree
                .add_expression(at, Expression::Call { define, arguments })?,
        )
    }

    /// Adds a chain of operations behind its first operand, which stands alone where there are none; answers its number.
    pub fn add_chain(&mut self, at: u32, first: u32, operations: &[Operation]) -> Result<u32, Stop>
        ensures made { IfOk result (λ n. (n, self.new) ≡ grown (grow.chained at first operations.now self.old.tree) self.old) }
        ensures memory { IfErr result (λ e. e ≡ stops.Memory) }
    {
        if operations.is_empty() {
            return Ok(first);
        }
        let rest = self.tree.add_operations(operations)?;
        Ok(
            self.tree
                .add_expression(at, Expression::Chain { first, rest })?,
        )
    }

    /// Adds a block behind the list of its statements, and answers its number.
    pub fn add_block(&mut self, at: u32, parts: &[u32], end: u32) -> Result<u32, Stop>
        ensures made { IfOk result (λ n. (n, self.new) ≡ grown (grow.block at parts.now end self.old.tree) self.old) }
        ensures memory { IfErr result (λ e. e ≡ stops.Memory) }
    {
        let statements = self.tree.add_items(parts)?;
        Ok(self.tree.add_block(at, Block { statements, end })?)
    }

    /// Adds a struct behind its fields, and answers its number.
    pub fn add_struct(&mut self, at: u32, name: Name, list: &[Field]) -> Result<u32, Stop>
        ensures made { IfOk result (λ n. (n, self.new) ≡ grown (grow.struct_with at name list.now self.old.tree) self.old) }
        ensures memory { IfErr result (λ e. e ≡ stops.Memory) }
    {
        let fields = self.tree.add_fields(list)?;
        Ok(
            self.tree
                .add_declaration(at, Declaration::Struct { name, fields })?,
        )
    }

    /// Adds a define behind its parameters, and answers its number.
    pub fn add_define(
        &mut self,
        at: u32,
        name: Name,
        list: &[Name],
        value: u32,
    ) -> Result<u32, Stop>
        ensures made { IfOk result (λ n. (n, self.new) ≡ grown (grow.define_with at name list.now value self.old.tree) self.old) }
        ensures memory { IfErr result (λ e. e ≡ stops.Memory) }
    {
        let parameters = self.tree.add_names(list)?;
        let what = Declaration::Define {
            name,
            parameters,
            value,
        };
        Ok(self.tree.add_declaration(at, what)?)
    }

    /// Adds a list of numbers.
    pub fn add_items(&mut self, parts: &[u32]) -> Result<Parts, Stop>
        ensures made { IfOk result (λ p. p ≡ record { from = length self.old.tree.items; count = length parts.now }) }
        ensures grown { OnOk result (self.new ≡ record self.old { tree = with_items self.old.tree parts.now }) }
        ensures memory { IfErr result (λ e. e ≡ stops.Memory) }
    {
        Ok(self.tree.add_items(parts)?)
    }
}

// The end of the last token, or 0 where there is none.
fn end_of(toks: &[Token<TokenKind>]) -> u32
    ensures { result ≡ end_of toks.now }
{
    match toks.last() {
        Some(t) => t.to,
        None => 0,
    }
}
