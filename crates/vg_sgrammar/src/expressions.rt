//! Expressions: ten ranks of operators between two operands, and what binds tighter than these.
ghost use Rattle.std.specs.Prelude.{◌≡◌, ◌<◌, ◌-◌};
ghost use Rattle.vg_forms.specs.Forms.{Inner};
ghost use Rattle.vg_forms.specs.Places.{passes, tested};
ghost use Rattle.vg_forms.specs.Reading.{Gives};
ghost use Rattle.vg_sgrammar.specs.Kinds.{is_binary, binary_of, frame_word_of};
ghost use Rattle.vg_sgrammar.specs.Reader.{reads, reads_inner, next, items_of};
ghost use Rattle.vg_sgrammar.specs.Rules as rules;
ghost use Rattle.vg_sgrammar.specs.Rules.{number_alone, some_expressions, arguments, frame_word, framed, parens, has};
ghost use Rattle.vg_sgrammar.specs.Rules.{frame_primary, cell_primary, known, named_primary, primary, unary, operator, operation, operations, ranked};
ghost use Rattle.vg_sgrammar.specs.Rules.{next_expression};
ghost use Rattle.vg_sgrammar.specs.Rules.{binary, expression};

use crate::kinds::{binary_of, frame_word_of};
use crate::reader::{Reader, Source};
use crate::tree::Expression;
use vg_forms::Stop;
use vg_stok::{Sign, Word};
use vg_stree::{FrameWord, Operation, Operator};

/// How many ranks of operators between two operands there are.
const RANKS: u8 = 10;

impl Reader {
    // The next token as an operator of a rank.
    fn next_operator(&self, src: Source<'_>, rank: u8) -> Option<Operator>
        ensures { result ≡ tested (binary_of rank) (next src.entry self.now) }
    {
        binary_of(self.next(src)?, rank)
    }

    // Whether the next token is an operator of a rank.
    fn next_is_operator(&self, src: Source<'_>, rank: u8) -> bool
        ensures { result ≡ passes (is_binary rank) (next src.entry self.now) }
    {
        match self.next(src) {
            Some(t) => binary_of(t, rank).is_some(),
            None => false,
        }
    }

    // Reads an operator of a rank.
    #[tactic(auto, unfolding(crate::specs::Rules::operator))]
    fn operator(&mut self, src: Source<'_>, rank: u8) -> Result<Operator, Stop>
        ensures { Gives result self.new (reads src.entry (operator rank) self.old) }
    {
        let Some(operator) = self.next_operator(src, rank) else {
            return Err(Stop::Wrong);
        };
        self.step(src);
        Ok(operator)
    }

    // The next token as what reads bytes of a frame.
    fn next_frame_word(&self, src: Source<'_>) -> Option<FrameWord>
        ensures { result ≡ tested frame_word_of (next src.entry self.now) }
    {
        frame_word_of(self.next(src)?)
    }

    // Reads how many bytes of a frame are meant.
    #[tactic(auto, unfolding(crate::specs::Rules::frame_word))]
    fn frame_word(&mut self, src: Source<'_>) -> Result<FrameWord, Stop>
        ensures { Gives result self.new (reads src.entry frame_word self.old) }
    {
        let Some(word) = self.next_frame_word(src) else {
            return Err(Stop::Wrong);
        };
        self.step(src);
        Ok(word)
    }

    // Reads a number as an expression.
    #[tactic(auto, unfolding(crate::specs::Rules::number_alone))]
    fn number_alone(&mut self, src: Source<'_>) -> Result<u32, Stop>
        ensures { Gives result self.new (reads src.entry number_alone self.old) }
    {
        let at = self.place(src);
        let number = self.number(src)?;
        self.add_expression(at, Expression::Number(number))
    }

    /// Reads bytes of a frame: how many, and the number of their place.
    #[tactic(auto, unfolding(crate::specs::Rules::framed))]
    pub fn framed(&mut self, src: Source<'_>) -> Result<(FrameWord, u32), Stop>
        ensures { Gives result self.new (reads src.entry framed self.old) }
    {
        self.word(src, Word::Frame)?;
        self.sign(src, Sign::Dot)?;
        let word = self.frame_word(src)?;
        self.sign(src, Sign::LeftBracket)?;
        let place = self.number_alone(src)?;
        self.sign(src, Sign::RightBracket)?;
        Ok((word, place))
    }

    // Reads bytes of a frame as an expression.
    #[tactic(auto, unfolding(crate::specs::Rules::frame_primary))]
    fn frame_primary(&mut self, src: Source<'_>) -> Result<u32, Stop>
        ensures { Gives result self.new (reads src.entry frame_primary self.old) }
    {
        let at = self.place(src);
        let (word, place) = self.framed(src)?;
        self.add_expression(at, Expression::Frame { word, place })
    }

    // Reads a field of the cell that a rule speaks of.
    #[tactic(auto, unfolding(crate::specs::Rules::cell_primary))]
    fn cell_primary(&mut self, src: Source<'_>) -> Result<u32, Stop>
        ensures { Gives result self.new (reads src.entry cell_primary self.old) }
    {
        let at = self.place(src);
        self.word(src, Word::Cell)?;
        self.sign(src, Sign::Dot)?;
        let field = self.name(src)?;
        self.add_expression(at, Expression::CellField(field))
    }

    // Reads a word that is an expression by itself.
    #[tactic(auto, unfolding(crate::specs::Rules::known))]
    fn known(&mut self, src: Source<'_>, word: Word, what: Expression) -> Result<u32, Stop>
        ensures { Gives result self.new (reads src.entry (known word what) self.old) }
    {
        let at = self.place(src);
        self.word(src, word)?;
        self.add_expression(at, what)
    }

    /// Reads an expression that stands in another construct.
    #[cycle(expression)]
    #[tactic(auto, using(crate::proofs::Steps::inner_wrong, crate::proofs::Steps::inner_deep, crate::proofs::Steps::inner_read))]
    pub fn expression(&mut self, src: Source<'_>) -> Result<u32, Stop>
        ensures { Gives result self.new (reads_inner src.entry rules.Expression self.old) }
    {
        if !self.next_is_expression(src) {
            return Err(Stop::Wrong);
        }
        if src.room == 0 {
            return Err(Stop::Deep);
        }
        self.whole_expression(src.deeper())
    }

    // Reads an expression, whose nesting is counted already.
    #[cycle(expression)]
    #[tactic(auto, unfolding(crate::specs::Rules::expression))]
    fn whole_expression(&mut self, src: Source<'_>) -> Result<u32, Stop>
        ensures { Gives result self.new (reads src.entry expression self.old) }
    {
        let at = self.place(src);
        let condition = self.binary(src, RANKS)?;
        if !self.next_is_sign(src, Sign::Question) {
            return Ok(condition);
        }
        self.sign(src, Sign::Question)?;
        let then = self.expression(src)?;
        self.sign(src, Sign::Colon)?;
        let otherwise = self.expression(src)?;
        let what = Expression::Choose {
            condition,
            then,
            otherwise,
        };
        self.add_expression(at, what)
    }

    // Reads operands with the operators of a rank, and of the ranks below it, between them.
    #[cycle(expression)]
    fn binary(&mut self, src: Source<'_>, rank: u8) -> Result<u32, Stop>
        ensures { Gives result self.new (reads src.entry (binary rank) self.old) }
    {
        if rank == 0 {
            return self.unary(src);
        }
        self.ranked(src, rank)
    }

    // Reads an operand of the rank below, and the operations of a rank behind it.
    #[cycle(expression)]
    #[tactic(auto, unfolding(crate::specs::Rules::ranked))]
    fn ranked(&mut self, src: Source<'_>, rank: u8) -> Result<u32, Stop>
        requires { 0 < rank }
        ensures { Gives result self.new (reads src.entry (ranked rank (binary (rank - 1))) self.old) }
    {
        let at = self.place(src);
        let first = self.binary(src, rank - 1)?;
        let rest = self.operations(src, rank)?;
        self.add_chain(at, first, &rest)
    }

    // Reads the operations of a rank behind an operand.
    #[cycle(expression)]
    #[tactic(auto, unfolding(crate::specs::Rules::operations))]
    fn operations(&mut self, src: Source<'_>, rank: u8) -> Result<Vec<Operation>, Stop>
        requires { 0 < rank }
        ensures { Gives (items_of result) self.new (reads src.entry (operations rank (binary (rank - 1))) self.old) }
    {
        let mut list = Vec::new(src.alloc);
        while self.next_is_operator(src, rank) {
            list.push(self.operation(src, rank)?)?;
        }
        Ok(list)
    }

    // Reads an operator of a rank and its right operand.
    #[cycle(expression)]
    #[tactic(auto, unfolding(crate::specs::Rules::operation))]
    fn operation(&mut self, src: Source<'_>, rank: u8) -> Result<Operation, Stop>
        requires { 0 < rank }
        ensures { Gives result self.new (reads src.entry (operation rank (binary (rank - 1))) self.old) }
    {
        let operator = self.operator(src, rank)?;
        let operand = self.binary(src, rank - 1)?;
        Ok(Operation { operator, operand })
    }

    /// Reads the operand of `!`.
    #[cycle(expression)]
    #[tactic(auto, using(crate::proofs::Steps::inner_wrong, crate::proofs::Steps::inner_deep, crate::proofs::Steps::inner_read))]
    fn operand(&mut self, src: Source<'_>) -> Result<u32, Stop>
        ensures { Gives result self.new (reads_inner src.entry rules.Operand self.old) }
    {
        if !self.next_is_expression(src) {
            return Err(Stop::Wrong);
        }
        if src.room == 0 {
            return Err(Stop::Deep);
        }
        self.unary(src.deeper())
    }

    // Reads an operand with the `!` before it.
    #[cycle(expression)]
    #[tactic(auto, unfolding(crate::specs::Rules::unary))]
    fn unary(&mut self, src: Source<'_>) -> Result<u32, Stop>
        ensures { Gives result self.new (reads src.entry unary self.old) }
    {
        if !self.next_is_sign(src, Sign::Not) {
            return self.primary(src);
        }
        let at = self.place(src);
        self.sign(src, Sign::Not)?;
        let operand = self.operand(src)?;
        self.add_expression(at, Expression::Not(operand))
    }

    // Reads a number, a name with what is behind it, a word, or what stands in parentheses.
    #[cycle(expression)]
    #[tactic(auto, unfolding(crate::specs::Rules::primary))]
    fn primary(&mut self, src: Source<'_>) -> Result<u32, Stop>
        ensures { Gives result self.new (reads src.entry primary self.old) }
    {
        if self.next_is_sign(src, Sign::LeftParen) {
            return self.parens(src);
        }
        if self.next_number(src).is_some() {
            return self.number_alone(src);
        }
        if self.next_is_word(src, Word::Frame) {
            return self.frame_primary(src);
        }
        if self.next_is_word(src, Word::Cell) {
            return self.cell_primary(src);
        }
        if self.next_is_word(src, Word::Has) {
            return self.has(src);
        }
        if self.next_is_word(src, Word::Length) {
            return self.known(src, Word::Length, Expression::Length);
        }
        if self.next_is_word(src, Word::Port) {
            return self.known(src, Word::Port, Expression::Port);
        }
        if self.next_is_word(src, Word::Now) {
            return self.known(src, Word::Now, Expression::Now);
        }
        self.named_primary(src)
    }

    // Reads an expression in parentheses.
    #[cycle(expression)]
    #[tactic(auto, unfolding(crate::specs::Rules::parens))]
    fn parens(&mut self, src: Source<'_>) -> Result<u32, Stop>
        ensures { Gives result self.new (reads src.entry parens self.old) }
    {
        let at = self.place(src);
        self.sign(src, Sign::LeftParen)?;
        let inner = self.expression(src)?;
        self.sign(src, Sign::RightParen)?;
        self.add_expression(at, Expression::Parens(inner))
    }

    // Reads the question whether an index of a link is allocated.
    #[cycle(expression)]
    #[tactic(auto, unfolding(crate::specs::Rules::has))]
    fn has(&mut self, src: Source<'_>) -> Result<u32, Stop>
        ensures { Gives result self.new (reads src.entry has self.old) }
    {
        let at = self.place(src);
        self.word(src, Word::Has)?;
        self.sign(src, Sign::LeftParen)?;
        let link = self.name(src)?;
        self.sign(src, Sign::Comma)?;
        let index = self.expression(src)?;
        self.sign(src, Sign::RightParen)?;
        self.add_expression(at, Expression::Has { link, index })
    }

    // Reads a name alone, a call, or a field of a cell.
    #[cycle(expression)]
    #[tactic(auto, unfolding(crate::specs::Rules::named_primary, crate::specs::Rules::behind_name))]
    fn named_primary(&mut self, src: Source<'_>) -> Result<u32, Stop>
        ensures { Gives result self.new (reads src.entry named_primary self.old) }
    {
        let at = self.place(src);
        let name = self.name(src)?;
        if self.next_is_sign(src, Sign::LeftParen) {
            self.sign(src, Sign::LeftParen)?;
            let parts = self.arguments(src)?;
            self.sign(src, Sign::RightParen)?;
            return self.add_call(at, name, &parts);
        }
        if !self.next_is_sign(src, Sign::LeftBracket) {
            return self.add_expression(at, Expression::Name(name));
        }
        self.sign(src, Sign::LeftBracket)?;
        let index = self.expression(src)?;
        self.sign(src, Sign::RightBracket)?;
        self.sign(src, Sign::Dot)?;
        let field = self.name(src)?;
        let what = Expression::Cell {
            vector: name,
            index,
            field,
        };
        self.add_expression(at, what)
    }

    // Reads the arguments of a call.
    #[cycle(expression)]
    #[tactic(auto, unfolding(crate::specs::Rules::arguments))]
    fn arguments(&mut self, src: Source<'_>) -> Result<Vec<u32>, Stop>
        ensures { Gives (items_of result) self.new (reads src.entry arguments self.old) }
    {
        if !self.next_is_expression(src) {
            return Ok(Vec::new(src.alloc));
        }
        self.some_expressions(src)
    }

    /// Reads expressions with commas between them.
    #[cycle(expression)]
    #[tactic(auto, unfolding(crate::specs::Rules::some_expressions))]
    pub fn some_expressions(&mut self, src: Source<'_>) -> Result<Vec<u32>, Stop>
        ensures { Gives (items_of result) self.new (reads src.entry some_expressions self.old) }
    {
        let mut parts = Vec::new(src.alloc);
        parts.push(self.expression(src)?)?;
        while self.next_is_sign(src, Sign::Comma) {
            parts.push(self.next_expression(src)?)?;
        }
        Ok(parts)
    }

    // Reads a comma and an expression.
    #[cycle(expression)]
    #[tactic(auto, unfolding(crate::specs::Rules::next_expression))]
    fn next_expression(&mut self, src: Source<'_>) -> Result<u32, Stop>
        ensures { Gives result self.new (reads src.entry next_expression self.old) }
    {
        self.sign(src, Sign::Comma)?;
        self.expression(src)
    }
}
