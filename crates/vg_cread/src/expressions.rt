//! Expressions: ten ranks of operators between two operands, and what binds tighter than these (C11 6.5).
ghost use Rattle.std.specs.Prelude.{◌≡◌, ◌≤◌, ◌<◌, ◌-◌, ◌+◌, IfOk};
ghost use Rattle.vg_cread.specs.Forms.{Expression, Operand};
ghost use Rattle.vg_cread.specs.Places.{passes, tested};
ghost use Rattle.vg_cread.specs.Kinds.{is_binary, binary_of, unary_of, number_of, begins_base, begins_expression, begins_suffix, is_postfix_operator};
ghost use Rattle.vg_cread.specs.Grammar.{expression, unary, operator, binary, link, postfix, suffix, no_postfix, opened, primary, arguments};
ghost use Rattle.vg_cread.specs.Reading.{Gives, reads, reads_inner, turn, next, items_of};

use crate::kinds::{
    begins_expression, begins_suffix, binary_of, is_postfix_operator, number_of, number_type,
    unary_of,
};
use crate::reader::{Reader, Source, Stop};
use vg_core::{BinaryOp, Kind, UnaryOp};
use vg_ctok::{Keyword, Number, Sign};

/// How many ranks of operators between two operands there are.
const RANKS: u8 = 10;

impl Reader {
    /// Whether the next token begins an expression.
    pub fn next_is_expression(&self, src: Source<'_>) -> bool
        ensures { result ≡ passes begins_expression (next src.entry self.now) }
    {
        match self.next(src) {
            Some(t) => begins_expression(t),
            None => false,
        }
    }

    // Whether the next token begins a suffix.
    fn next_is_suffix(&self, src: Source<'_>) -> bool
        ensures { result ≡ passes begins_suffix (next src.entry self.now) }
    {
        match self.next(src) {
            Some(t) => begins_suffix(t),
            None => false,
        }
    }

    // Whether the next token is an operator that stands behind a postfix alone.
    fn next_is_postfix_operator(&self, src: Source<'_>) -> bool
        ensures { result ≡ passes is_postfix_operator (next src.entry self.now) }
    {
        match self.next(src) {
            Some(t) => is_postfix_operator(t),
            None => false,
        }
    }

    // Refuses an operator that stands behind a postfix alone.
    #[tactic(auto, unfolding(crate::specs::Grammar::no_postfix))]
    fn no_postfix(&mut self, src: Source<'_>) -> Result<(), Stop>
        ensures { Gives result self.new (reads src.entry no_postfix self.old) }
    {
        if self.next_is_postfix_operator(src) {
            return Err(Stop::Wrong);
        }
        Ok(())
    }

    // Whether the next token is an operator of a rank.
    fn next_is_binary(&self, src: Source<'_>, rank: u8) -> bool
        ensures { result ≡ passes (is_binary rank) (next src.entry self.now) }
    {
        match self.next(src) {
            Some(t) => binary_of(t, rank).is_some(),
            None => false,
        }
    }

    // The next token as an operator of a rank.
    fn next_binary(&self, src: Source<'_>, rank: u8) -> Option<BinaryOp>
        ensures { result ≡ tested (binary_of rank) (next src.entry self.now) }
    {
        binary_of(self.next(src)?, rank)
    }

    // Reads an operator of a rank.
    #[tactic(auto, unfolding(crate::specs::Grammar::operator))]
    fn operator(&mut self, src: Source<'_>, rank: u8) -> Result<BinaryOp, Stop>
        ensures { Gives result self.new (reads src.entry (operator rank) self.old) }
    {
        let Some(op) = self.next_binary(src, rank) else {
            return Err(Stop::Wrong);
        };
        self.step(src);
        Ok(op)
    }

    // The next token as an operator before its operand.
    fn next_unary(&self, src: Source<'_>) -> Option<UnaryOp>
        ensures { result ≡ tested unary_of (next src.entry self.now) }
    {
        unary_of(self.next(src)?)
    }

    // The next token as a number.
    fn next_number(&self, src: Source<'_>) -> Option<Number>
        ensures { result ≡ tested number_of (next src.entry self.now) }
    {
        number_of(self.next(src)?)
    }

    /// Reads an expression that stands in another construct.
    #[cycle(expression)]
    #[tactic(auto, using(crate::proofs::Rooms::inner_wrong, crate::proofs::Rooms::inner_deep, crate::proofs::Rooms::inner_read))]
    pub fn expression(&mut self, src: Source<'_>) -> Result<u32, Stop>
        ensures { Gives result self.new (reads_inner src.entry Expression self.old) }
    {
        if !self.next_is_expression(src) {
            return Err(Stop::Wrong);
        }
        if src.room == 0 {
            return Err(Stop::Deep);
        }
        self.whole_expression(src.deeper())
    }

    // Reads an expression, whose nesting is counted already.
    #[cycle(expression)]
    #[tactic(auto, unfolding(crate::specs::Grammar::expression))]
    fn whole_expression(&mut self, src: Source<'_>) -> Result<u32, Stop>
        ensures { Gives result self.new (reads src.entry expression self.old) }
    {
        let at = self.place(src);
        let condition = self.binary(src, RANKS)?;
        if !self.next_is_sign(src, Sign::Question) {
            return Ok(condition);
        }
        self.sign(src, Sign::Question)?;
        let then = self.expression(src)?;
        self.sign(src, Sign::Colon)?;
        let otherwise = self.expression(src)?;
        let kind = Kind::Choose {
            condition,
            then,
            otherwise,
        };
        self.node(at, kind)
    }

    // Reads operands with the operators of a rank, and of the ranks below it, between them.
    #[cycle(expression)]
    fn binary(&mut self, src: Source<'_>, rank: u8) -> Result<u32, Stop>
        ensures { Gives result self.new (reads src.entry (binary rank) self.old) }
    {
        if rank == 0 {
            return self.unary(src);
        }
        let at = self.place(src);
        let mut left = self.binary(src, rank - 1)?;
        while self.next_is_binary(src, rank) {
            left = self.link(src, rank, at, left)?;
        }
        Ok(left)
    }

    // Reads an operator of a rank and its right operand, behind its left one.
    #[cycle(expression)]
    #[tactic(auto, unfolding(crate::specs::Grammar::link))]
    fn link(&mut self, src: Source<'_>, rank: u8, at: u32, left: u32) -> Result<u32, Stop>
        requires { 0 < rank }
        ensures { Gives result self.new (turn (reads src.entry (link rank (binary (rank - 1)))) at left self.old) }
    {
        let op = self.operator(src, rank)?;
        let right = self.binary(src, rank - 1)?;
        self.node(at, Kind::Binary { op, left, right })
    }

    /// Reads the operand of a sign or of a cast, or what a simple statement begins with.
    #[cycle(expression)]
    #[tactic(auto, using(crate::proofs::Rooms::inner_wrong, crate::proofs::Rooms::inner_deep, crate::proofs::Rooms::inner_read))]
    pub fn operand(&mut self, src: Source<'_>) -> Result<u32, Stop>
        ensures { Gives result self.new (reads_inner src.entry Operand self.old) }
    {
        if !self.next_is_expression(src) {
            return Err(Stop::Wrong);
        }
        if src.room == 0 {
            return Err(Stop::Deep);
        }
        self.unary(src.deeper())
    }

    // Reads an operand with the signs before it.
    #[cycle(expression)]
    #[tactic(auto, unfolding(crate::specs::Grammar::unary))]
    fn unary(&mut self, src: Source<'_>) -> Result<u32, Stop>
        ensures { Gives result self.new (reads src.entry unary self.old) }
    {
        let at = self.place(src);
        if let Some(op) = self.next_unary(src) {
            self.step(src);
            let operand = self.operand(src)?;
            self.no_postfix(src)?;
            return self.node(at, Kind::Unary { op, operand });
        }
        if !self.next_is_word(src, Keyword::Sizeof) {
            return self.postfix(src);
        }
        self.word(src, Keyword::Sizeof)?;
        self.sign(src, Sign::LeftParen)?;
        let base = self.base(src)?;
        self.sign(src, Sign::RightParen)?;
        self.no_postfix(src)?;
        self.node(at, Kind::Sizeof { base })
    }

    // Reads an operand with the suffixes behind it.
    #[cycle(expression)]
    #[tactic(auto, unfolding(crate::specs::Grammar::postfix))]
    fn postfix(&mut self, src: Source<'_>) -> Result<u32, Stop>
        ensures { Gives result self.new (reads src.entry postfix self.old) }
    {
        let at = self.place(src);
        let mut whole = self.primary(src)?;
        while self.next_is_suffix(src) {
            whole = self.suffix(src, at, whole)?;
        }
        Ok(whole)
    }

    // Reads a suffix behind its operand.
    #[cycle(expression)]
    #[tactic(auto, unfolding(crate::specs::Grammar::suffix))]
    fn suffix(&mut self, src: Source<'_>, at: u32, whole: u32) -> Result<u32, Stop>
        ensures { Gives result self.new (turn (reads src.entry suffix) at whole self.old) }
    {
        if self.next_is_sign(src, Sign::LeftBracket) {
            self.sign(src, Sign::LeftBracket)?;
            let index = self.expression(src)?;
            self.sign(src, Sign::RightBracket)?;
            return self.node(
                at,
                Kind::Index {
                    array: whole,
                    index,
                },
            );
        }
        if self.next_is_sign(src, Sign::Dot) {
            self.sign(src, Sign::Dot)?;
            let field = self.name(src)?;
            return self.node(at, Kind::Member { whole, field });
        }
        self.sign(src, Sign::Arrow)?;
        let field = self.name(src)?;
        self.node(
            at,
            Kind::Arrow {
                pointer: whole,
                field,
            },
        )
    }

    // Reads a number, a name, a call, or what stands in parentheses.
    #[cycle(expression)]
    #[tactic(auto, unfolding(crate::specs::Grammar::primary))]
    fn primary(&mut self, src: Source<'_>) -> Result<u32, Stop>
        ensures { Gives result self.new (reads src.entry primary self.old) }
    {
        if self.next_is_sign(src, Sign::LeftParen) {
            return self.opened(src);
        }
        let at = self.place(src);
        if let Some(number) = self.next_number(src) {
            self.step(src);
            let kind = Kind::Number {
                value: number.value,
                of: number_type(number.of),
            };
            return self.node(at, kind);
        }
        let name = self.name(src)?;
        if !self.next_is_sign(src, Sign::LeftParen) {
            return self.node(at, Kind::Variable { name });
        }
        self.sign(src, Sign::LeftParen)?;
        let arguments = self.arguments(src)?;
        self.sign(src, Sign::RightParen)?;
        let arguments = self.parts(&arguments)?;
        self.node(at, Kind::Call { name, arguments })
    }

    // Reads the arguments of a call.
    #[cycle(expression)]
    #[tactic(auto, unfolding(crate::specs::Grammar::arguments))]
    fn arguments(&mut self, src: Source<'_>) -> Result<Vec<u32>, Stop>
        ensures { Gives (items_of result) self.new (reads src.entry arguments self.old) }
    {
        let mut parts = Vec::new(src.alloc);
        if !self.next_is_expression(src) {
            return Ok(parts);
        }
        parts.push(self.expression(src)?)?;
        while self.next_is_sign(src, Sign::Comma) {
            self.sign(src, Sign::Comma)?;
            parts.push(self.expression(src)?)?;
        }
        Ok(parts)
    }

    // Reads what stands in parentheses, with them: the type of a cast and its operand, or an expression.
    #[cycle(expression)]
    #[tactic(auto, unfolding(crate::specs::Grammar::opened))]
    fn opened(&mut self, src: Source<'_>) -> Result<u32, Stop>
        ensures { Gives result self.new (reads src.entry opened self.old) }
    {
        let at = self.place(src);
        self.sign(src, Sign::LeftParen)?;
        if !self.next_is_base(src) {
            let inner = self.expression(src)?;
            self.sign(src, Sign::RightParen)?;
            return self.node(at, Kind::Parens { inner });
        }
        let base = self.base(src)?;
        let pointer = self.star(src)?;
        self.sign(src, Sign::RightParen)?;
        let operand = self.operand(src)?;
        self.no_postfix(src)?;
        let kind = Kind::Cast {
            base,
            pointer,
            operand,
        };
        self.node(at, kind)
    }
}
