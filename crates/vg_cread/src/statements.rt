//! Statements, declarations and blocks (C11 6.8).
ghost use Rattle.std.specs.Prelude.{◌≡◌};
ghost use Rattle.vg_cread.specs.Forms.{Statement, Body};
ghost use Rattle.vg_cread.specs.Places.{passes, tested};
ghost use Rattle.vg_cread.specs.Kinds.{assign_of, is_assign, begins_statement, begins_piece};
ghost use Rattle.vg_cread.specs.Grammar.{statement, block, pieces, piece, declaration, array_length, initial, if_statement, otherwise, for_statement};
ghost use Rattle.vg_cread.specs.Grammar.{step, return_statement, simple_statement, assignment, action, acted};
ghost use Rattle.vg_cread.specs.Reading.{Gives, reads, reads_inner, next, items_of};

use crate::kinds::{assign_of, begins_base, begins_statement};
use crate::reader::{Reader, Source, Stop};
use vg_core::{BinaryOp, Kind};
use vg_ctok::{Keyword, Sign};

/// What a simple statement does with the operand that it begins with.
#[derive(Clone, Copy, Debug, PartialEq, Eq)]
pub enum Action {
    /// `op= value`, or `= value`
    Assign(Option<BinaryOp>, u32),
    /// `++`
    Increment,
    /// `--`
    Decrement,
    /// Nothing: it is evaluated.
    Evaluate,
}

// The node of a simple statement.
fn acted(action: Action, target: u32) -> Kind
    ensures { result ≡ acted action target }
{
    match action {
        Action::Assign(op, value) => Kind::Assign { op, target, value },
        Action::Increment => Kind::Increment { target },
        Action::Decrement => Kind::Decrement { target },
        Action::Evaluate => Kind::Evaluate { value: target },
    }
}

impl Reader {
    // Whether the next token begins a statement.
    fn next_is_statement(&self, src: Source<'_>) -> bool
        ensures { result ≡ passes begins_statement (next src.entry self.now) }
    {
        match self.next(src) {
            Some(t) => begins_statement(t),
            None => false,
        }
    }

    // Whether the next token begins a declaration or a statement.
    fn next_is_piece(&self, src: Source<'_>) -> bool
        ensures { result ≡ passes begins_piece (next src.entry self.now) }
    {
        match self.next(src) {
            Some(t) => begins_base(t) || begins_statement(t),
            None => false,
        }
    }

    // The next token as an assignment.
    fn next_assign(&self, src: Source<'_>) -> Option<Option<BinaryOp>>
        ensures { result ≡ tested assign_of (next src.entry self.now) }
    {
        assign_of(self.next(src)?)
    }

    /// Reads the length of an array, if one stands there.
    #[tactic(auto, unfolding(crate::specs::Grammar::array_length))]
    pub fn array_length(&mut self, src: Source<'_>) -> Result<Option<u32>, Stop>
        ensures { Gives result self.new (reads src.entry array_length self.old) }
    {
        if !self.next_is_sign(src, Sign::LeftBracket) {
            return Ok(None);
        }
        self.sign(src, Sign::LeftBracket)?;
        let length = self.expression(src)?;
        self.sign(src, Sign::RightBracket)?;
        Ok(Some(length))
    }

    // Reads what a variable is set to where it is declared, if that stands there.
    #[tactic(auto, unfolding(crate::specs::Grammar::initial))]
    fn initial(&mut self, src: Source<'_>) -> Result<Option<u32>, Stop>
        ensures { Gives result self.new (reads src.entry initial self.old) }
    {
        if !self.next_is_sign(src, Sign::Assign) {
            return Ok(None);
        }
        self.sign(src, Sign::Assign)?;
        Ok(Some(self.expression(src)?))
    }

    // Reads a declaration in a block.
    #[tactic(auto, unfolding(crate::specs::Grammar::declaration))]
    fn declaration(&mut self, src: Source<'_>) -> Result<u32, Stop>
        ensures { Gives result self.new (reads src.entry declaration self.old) }
    {
        let at = self.place(src);
        let base = self.base(src)?;
        let pointer = self.star(src)?;
        let name = self.name(src)?;
        let length = self.array_length(src)?;
        let value = self.initial(src)?;
        self.sign(src, Sign::Semicolon)?;
        let kind = Kind::Declare {
            base,
            pointer,
            name,
            length,
            value,
        };
        self.node(at, kind)
    }

    // Reads a `return`.
    #[tactic(auto, unfolding(crate::specs::Grammar::return_statement))]
    fn return_statement(&mut self, src: Source<'_>) -> Result<u32, Stop>
        ensures { Gives result self.new (reads src.entry return_statement self.old) }
    {
        let at = self.place(src);
        self.word(src, Keyword::Return)?;
        if !self.next_is_expression(src) {
            self.sign(src, Sign::Semicolon)?;
            return self.node(at, Kind::Return { value: None });
        }
        let value = self.expression(src)?;
        self.sign(src, Sign::Semicolon)?;
        self.node(at, Kind::Return { value: Some(value) })
    }

    // Whether the next token is an assignment's operator.
    fn next_is_assign(&self, src: Source<'_>) -> bool
        ensures { result ≡ passes is_assign (next src.entry self.now) }
    {
        match self.next(src) {
            Some(t) => assign_of(t).is_some(),
            None => false,
        }
    }

    // Reads the operator of an assignment.
    #[tactic(auto, unfolding(crate::specs::Grammar::assignment))]
    fn assignment(&mut self, src: Source<'_>) -> Result<Option<BinaryOp>, Stop>
        ensures { Gives result self.new (reads src.entry assignment self.old) }
    {
        let Some(op) = self.next_assign(src) else {
            return Err(Stop::Wrong);
        };
        self.step(src);
        Ok(op)
    }

    // Reads what a simple statement does with the operand that it begins with.
    #[tactic(auto, unfolding(crate::specs::Grammar::action))]
    fn action(&mut self, src: Source<'_>) -> Result<Action, Stop>
        ensures { Gives result self.new (reads src.entry action self.old) }
    {
        if self.next_is_assign(src) {
            let op = self.assignment(src)?;
            let value = self.expression(src)?;
            return Ok(Action::Assign(op, value));
        }
        if self.next_is_sign(src, Sign::PlusPlus) {
            self.sign(src, Sign::PlusPlus)?;
            return Ok(Action::Increment);
        }
        if self.next_is_sign(src, Sign::MinusMinus) {
            self.sign(src, Sign::MinusMinus)?;
            return Ok(Action::Decrement);
        }
        Ok(Action::Evaluate)
    }

    // Reads an expression as a statement, an assignment, or a step up or down.
    #[tactic(auto, unfolding(crate::specs::Grammar::simple_statement))]
    fn simple_statement(&mut self, src: Source<'_>) -> Result<u32, Stop>
        ensures { Gives result self.new (reads src.entry simple_statement self.old) }
    {
        let at = self.place(src);
        let target = self.operand(src)?;
        let action = self.action(src)?;
        self.sign(src, Sign::Semicolon)?;
        self.node(at, acted(action, target))
    }

    // Reads how the counter of a loop goes on: by how much, or by 1.
    #[tactic(auto, unfolding(crate::specs::Grammar::step))]
    fn loop_step(&mut self, src: Source<'_>) -> Result<Option<u32>, Stop>
        ensures { Gives result self.new (reads src.entry step self.old) }
    {
        if self.next_is_sign(src, Sign::PlusPlus) {
            self.sign(src, Sign::PlusPlus)?;
            return Ok(None);
        }
        self.sign(src, Sign::PlusAssign)?;
        Ok(Some(self.expression(src)?))
    }

    /// Reads a statement that stands in another construct.
    #[cycle(statement)]
    #[tactic(auto, using(crate::proofs::Rooms::inner_wrong, crate::proofs::Rooms::inner_deep, crate::proofs::Rooms::inner_read))]
    fn statement(&mut self, src: Source<'_>) -> Result<u32, Stop>
        ensures { Gives result self.new (reads_inner src.entry Statement self.old) }
    {
        if !self.next_is_statement(src) {
            return Err(Stop::Wrong);
        }
        if src.room == 0 {
            return Err(Stop::Deep);
        }
        self.whole_statement(src.deeper())
    }

    // Reads a statement, whose nesting is counted already.
    #[cycle(statement)]
    #[tactic(auto, unfolding(crate::specs::Grammar::statement))]
    fn whole_statement(&mut self, src: Source<'_>) -> Result<u32, Stop>
        ensures { Gives result self.new (reads src.entry statement self.old) }
    {
        if self.next_is_sign(src, Sign::LeftBrace) {
            return self.block(src);
        }
        if self.next_is_sign(src, Sign::Semicolon) {
            let at = self.place(src);
            self.sign(src, Sign::Semicolon)?;
            return self.node(at, Kind::Empty);
        }
        if self.next_is_word(src, Keyword::If) {
            return self.if_statement(src);
        }
        if self.next_is_word(src, Keyword::For) {
            return self.for_statement(src);
        }
        if self.next_is_word(src, Keyword::Return) {
            return self.return_statement(src);
        }
        self.simple_statement(src)
    }

    // Reads an `if`, with the `else` that belongs to it.
    #[cycle(statement)]
    #[tactic(auto, unfolding(crate::specs::Grammar::if_statement))]
    fn if_statement(&mut self, src: Source<'_>) -> Result<u32, Stop>
        ensures { Gives result self.new (reads src.entry if_statement self.old) }
    {
        let at = self.place(src);
        self.word(src, Keyword::If)?;
        self.sign(src, Sign::LeftParen)?;
        let condition = self.expression(src)?;
        self.sign(src, Sign::RightParen)?;
        let then = self.statement(src)?;
        let otherwise = self.otherwise(src)?;
        let kind = Kind::If {
            condition,
            then,
            otherwise,
        };
        self.node(at, kind)
    }

    // Reads an `else` with its statement, if one stands there.
    #[cycle(statement)]
    #[tactic(auto, unfolding(crate::specs::Grammar::otherwise))]
    fn otherwise(&mut self, src: Source<'_>) -> Result<Option<u32>, Stop>
        ensures { Gives result self.new (reads src.entry otherwise self.old) }
    {
        if !self.next_is_word(src, Keyword::Else) {
            return Ok(None);
        }
        self.word(src, Keyword::Else)?;
        Ok(Some(self.statement(src)?))
    }

    // Reads a loop.
    #[cycle(statement)]
    #[tactic(auto, unfolding(crate::specs::Grammar::for_statement))]
    fn for_statement(&mut self, src: Source<'_>) -> Result<u32, Stop>
        ensures { Gives result self.new (reads src.entry for_statement self.old) }
    {
        let at = self.place(src);
        self.word(src, Keyword::For)?;
        self.sign(src, Sign::LeftParen)?;
        let of = self.int_type(src)?;
        let counter = self.name(src)?;
        self.sign(src, Sign::Assign)?;
        let start = self.expression(src)?;
        self.sign(src, Sign::Semicolon)?;
        let tested = self.name(src)?;
        self.sign(src, Sign::Less)?;
        let bound = self.expression(src)?;
        self.sign(src, Sign::Semicolon)?;
        let stepped = self.name(src)?;
        let step = self.loop_step(src)?;
        self.sign(src, Sign::RightParen)?;
        let body = self.statement(src)?;
        let kind = Kind::For {
            of,
            counter,
            start,
            tested,
            bound,
            stepped,
            step,
            body,
        };
        self.node(at, kind)
    }

    // Reads a block, whose nesting is counted already.
    #[cycle(statement)]
    #[tactic(auto, unfolding(crate::specs::Grammar::block))]
    fn block(&mut self, src: Source<'_>) -> Result<u32, Stop>
        ensures { Gives result self.new (reads src.entry block self.old) }
    {
        let at = self.place(src);
        self.sign(src, Sign::LeftBrace)?;
        let parts = self.pieces(src)?;
        let end = self.place(src);
        self.sign(src, Sign::RightBrace)?;
        let statements = self.parts(&parts)?;
        self.node(at, Kind::Block { statements, end })
    }

    // Reads the declarations and statements of a block.
    #[cycle(statement)]
    #[tactic(auto, unfolding(crate::specs::Grammar::pieces))]
    fn pieces(&mut self, src: Source<'_>) -> Result<Vec<u32>, Stop>
        ensures { Gives (items_of result) self.new (reads src.entry pieces self.old) }
    {
        let mut parts = Vec::new(src.alloc);
        while self.next_is_piece(src) {
            parts.push(self.piece(src)?)?;
        }
        Ok(parts)
    }

    // Reads a declaration or a statement.
    #[cycle(statement)]
    #[tactic(auto, unfolding(crate::specs::Grammar::piece))]
    fn piece(&mut self, src: Source<'_>) -> Result<u32, Stop>
        ensures { Gives result self.new (reads src.entry piece self.old) }
    {
        if self.next_is_base(src) {
            return self.declaration(src);
        }
        self.statement(src)
    }

    /// Reads the block of a function.
    #[tactic(auto, using(crate::proofs::Rooms::inner_wrong, crate::proofs::Rooms::inner_deep, crate::proofs::Rooms::inner_read))]
    pub fn body(&mut self, src: Source<'_>) -> Result<u32, Stop>
        ensures { Gives result self.new (reads_inner src.entry Body self.old) }
    {
        if !self.next_is_sign(src, Sign::LeftBrace) {
            return Err(Stop::Wrong);
        }
        if src.room == 0 {
            return Err(Stop::Deep);
        }
        self.block(src.deeper())
    }
}
