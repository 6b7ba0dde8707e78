//! Statements and blocks.
ghost use Rattle.std.specs.Prelude.{◌≡◌, ◌++◌, length, IfOk, IfErr};
ghost use Rattle.vg_forms.specs.Places.{passes};
ghost use Rattle.vg_forms.specs.Reading.{Gives};
ghost use Rattle.vg_sgrammar.specs.Kinds.{begins_statement};
ghost use Rattle.vg_sgrammar.specs.Reader.{reads, reads_inner, next, items_of};
ghost use Rattle.vg_sgrammar.specs.Rules as rules;
ghost use Rattle.vg_stok.specs.declared.kinds.Word.TheVariants as words;
ghost use Rattle.vg_sgrammar.specs.declared.tree.Statement.TheVariants as stmts;

use crate::kinds::begins_statement;
use crate::reader::{Reader, Source};
use crate::tree::Statement;
use vg_forms::Stop;
use vg_stok::{Sign, Word};

impl Reader {
    // Whether the next token begins a statement.
    fn next_is_statement(&self, src: Source<'_>) -> bool
        ensures { result ≡ passes begins_statement (next src.entry self.now) }
    {
        match self.next(src) {
            Some(t) => begins_statement(t),
            None => false,
        }
    }

    /// Reads `=`, an expression and `;`.
    #[tactic(auto, unfolding(crate::specs::Rules::assigned))]
    pub fn assigned(&mut self, src: Source<'_>) -> Result<u32, Stop>
        ensures { Gives result self.new (reads src.entry rules.assigned self.old) }
    {
        self.sign(src, Sign::Assign)?;
        let value = self.expression(src)?;
        self.sign(src, Sign::Semicolon)?;
        Ok(value)
    }

    // Reads a `let`.
    #[tactic(auto, unfolding(crate::specs::Rules::let_statement))]
    fn let_statement(&mut self, src: Source<'_>) -> Result<u32, Stop>
        ensures { Gives result self.new (reads src.entry rules.let_statement self.old) }
    {
        let at = self.place(src);
        self.word(src, Word::Let)?;
        let name = self.name(src)?;
        let value = self.assigned(src)?;
        self.add_statement(at, Statement::Let { name, value })
    }

    // Reads a word that is a statement by itself.
    #[tactic(auto, unfolding(crate::specs::Rules::alone))]
    fn alone(&mut self, src: Source<'_>, word: Word, what: Statement) -> Result<u32, Stop>
        ensures { Gives result self.new (reads src.entry (rules.alone word what) self.old) }
    {
        let at = self.place(src);
        self.word(src, word)?;
        self.sign(src, Sign::Semicolon)?;
        self.add_statement(at, what)
    }

    // Reads a `send`.
    #[tactic(auto, unfolding(crate::specs::Rules::send_statement))]
    fn send_statement(&mut self, src: Source<'_>) -> Result<u32, Stop>
        ensures { Gives result self.new (reads src.entry rules.send_statement self.old) }
    {
        let at = self.place(src);
        self.word(src, Word::Send)?;
        let port = self.expression(src)?;
        self.sign(src, Sign::Semicolon)?;
        self.add_statement(at, Statement::Send { port })
    }

    // Reads a store to bytes of the frame.
    #[tactic(auto, unfolding(crate::specs::Rules::frame_statement))]
    fn frame_statement(&mut self, src: Source<'_>) -> Result<u32, Stop>
        ensures { Gives result self.new (reads src.entry rules.frame_statement self.old) }
    {
        let at = self.place(src);
        let (word, place) = self.framed(src)?;
        let value = self.assigned(src)?;
        self.add_statement(at, Statement::SetFrame { word, place, value })
    }

    // Reads a store to a field of a cell.
    #[tactic(auto, unfolding(crate::specs::Rules::cell_statement))]
    fn cell_statement(&mut self, src: Source<'_>) -> Result<u32, Stop>
        ensures { Gives result self.new (reads src.entry rules.cell_statement self.old) }
    {
        let at = self.place(src);
        let vector = self.name(src)?;
        self.sign(src, Sign::LeftBracket)?;
        let index = self.expression(src)?;
        self.sign(src, Sign::RightBracket)?;
        self.sign(src, Sign::Dot)?;
        let field = self.name(src)?;
        let value = self.assigned(src)?;
        let what = Statement::SetCell {
            vector,
            index,
            field,
            value,
        };
        self.add_statement(at, what)
    }

    // Reads an `expire`.
    #[tactic(auto, unfolding(crate::specs::Rules::expire_statement))]
    fn expire_statement(&mut self, src: Source<'_>) -> Result<u32, Stop>
        ensures { Gives result self.new (reads src.entry rules.expire_statement self.old) }
    {
        let at = self.place(src);
        self.word(src, Word::Expire)?;
        let link = self.name(src)?;
        self.word(src, Word::Before)?;
        let before = self.expression(src)?;
        self.sign(src, Sign::Semicolon)?;
        self.add_statement(at, Statement::Expire { link, before })
    }

    // Reads a `touch`.
    #[tactic(auto, unfolding(crate::specs::Rules::indexed))]
    fn touch(&mut self, src: Source<'_>) -> Result<u32, Stop>
        ensures { Gives result self.new (reads src.entry (rules.indexed words.Touch stmts.Touch) self.old) }
    {
        let at = self.place(src);
        self.word(src, Word::Touch)?;
        let link = self.name(src)?;
        let index = self.expression(src)?;
        self.sign(src, Sign::Semicolon)?;
        self.add_statement(at, Statement::Touch { link, index })
    }

    // Reads a `remove`.
    #[tactic(auto, unfolding(crate::specs::Rules::indexed))]
    fn remove(&mut self, src: Source<'_>) -> Result<u32, Stop>
        ensures { Gives result self.new (reads src.entry (rules.indexed words.Remove stmts.Remove) self.old) }
    {
        let at = self.place(src);
        self.word(src, Word::Remove)?;
        let link = self.name(src)?;
        let index = self.expression(src)?;
        self.sign(src, Sign::Semicolon)?;
        self.add_statement(at, Statement::Remove { link, index })
    }

    // Reads a key: expressions in braces.
    #[tactic(auto, unfolding(crate::specs::Rules::key))]
    fn key(&mut self, src: Source<'_>) -> Result<Vec<u32>, Stop>
        ensures { Gives (items_of result) self.new (reads src.entry rules.key self.old) }
    {
        self.sign(src, Sign::LeftBrace)?;
        let parts = self.some_expressions(src)?;
        self.sign(src, Sign::RightBrace)?;
        Ok(parts)
    }

    // Reads a statement that stands in a block.
    #[cycle(statement)]
    #[tactic(auto, using(crate::proofs::Steps::inner_wrong, crate::proofs::Steps::inner_deep, crate::proofs::Steps::inner_read))]
    fn statement(&mut self, src: Source<'_>) -> Result<u32, Stop>
        ensures { Gives result self.new (reads_inner src.entry rules.Statement self.old) }
    {
        if !self.next_is_statement(src) {
            return Err(Stop::Wrong);
        }
        if src.room == 0 {
            return Err(Stop::Deep);
        }
        self.whole_statement(src.deeper())
    }

    // Reads a statement, whose nesting is counted already.
    #[cycle(statement)]
    #[tactic(auto, unfolding(crate::specs::Rules::statement))]
    fn whole_statement(&mut self, src: Source<'_>) -> Result<u32, Stop>
        ensures { Gives result self.new (reads src.entry rules.statement self.old) }
    {
        if self.next_is_word(src, Word::Let) {
            return self.let_statement(src);
        }
        if self.next_is_word(src, Word::Flood) {
            return self.alone(src, Word::Flood, Statement::Flood);
        }
        if self.next_is_word(src, Word::Send) {
            return self.send_statement(src);
        }
        if self.next_is_word(src, Word::If) {
            return self.if_statement(src);
        }
        if self.next_is_word(src, Word::Frame) {
            return self.frame_statement(src);
        }
        if self.next_name(src).is_some() {
            return self.cell_statement(src);
        }
        self.link_statement(src)
    }

    // Reads a statement on a link or a table, or a `drop`.
    #[cycle(statement)]
    #[tactic(auto, unfolding(crate::specs::Rules::link_statement))]
    fn link_statement(&mut self, src: Source<'_>) -> Result<u32, Stop>
        ensures { Gives result self.new (reads src.entry rules.link_statement self.old) }
    {
        if self.next_is_word(src, Word::Expire) {
            return self.expire_statement(src);
        }
        if self.next_is_word(src, Word::Find) {
            return self.find_statement(src);
        }
        if self.next_is_word(src, Word::Add) {
            return self.add_statement_on(src);
        }
        if self.next_is_word(src, Word::Touch) {
            return self.touch(src);
        }
        if self.next_is_word(src, Word::Remove) {
            return self.remove(src);
        }
        if self.next_is_word(src, Word::Lookup) {
            return self.lookup_statement(src);
        }
        self.alone(src, Word::Drop, Statement::Drop)
    }

    // Reads an `if`.
    #[cycle(statement)]
    #[tactic(auto, unfolding(crate::specs::Rules::if_statement))]
    fn if_statement(&mut self, src: Source<'_>) -> Result<u32, Stop>
        ensures { Gives result self.new (reads src.entry rules.if_statement self.old) }
    {
        let at = self.place(src);
        self.word(src, Word::If)?;
        let condition = self.expression(src)?;
        let then = self.block(src)?;
        let otherwise = self.otherwise(src)?;
        let what = Statement::If {
            condition,
            then,
            otherwise,
        };
        self.add_statement(at, what)
    }

    // Reads a `find`.
    #[cycle(statement)]
    #[tactic(auto, unfolding(crate::specs::Rules::keyed))]
    fn find_statement(&mut self, src: Source<'_>) -> Result<u32, Stop>
        ensures { Gives result self.new (reads src.entry (rules.keyed words.Find stmts.Find) self.old) }
    {
        let at = self.place(src);
        self.word(src, Word::Find)?;
        let link = self.name(src)?;
        let parts = self.key(src)?;
        self.word(src, Word::As)?;
        let index = self.name(src)?;
        let then = self.block(src)?;
        let otherwise = self.otherwise(src)?;
        let key = self.add_items(&parts)?;
        let what = Statement::Find {
            link,
            key,
            index,
            then,
            otherwise,
        };
        self.add_statement(at, what)
    }

    // Reads an `add`.
    #[cycle(statement)]
    #[tactic(auto, unfolding(crate::specs::Rules::keyed))]
    fn add_statement_on(&mut self, src: Source<'_>) -> Result<u32, Stop>
        ensures { Gives result self.new (reads src.entry (rules.keyed words.Add stmts.Add) self.old) }
    {
        let at = self.place(src);
        self.word(src, Word::Add)?;
        let link = self.name(src)?;
        let parts = self.key(src)?;
        self.word(src, Word::As)?;
        let index = self.name(src)?;
        let then = self.block(src)?;
        let otherwise = self.otherwise(src)?;
        let key = self.add_items(&parts)?;
        let what = Statement::Add {
            link,
            key,
            index,
            then,
            otherwise,
        };
        self.add_statement(at, what)
    }

    // Reads a `lookup`.
    #[cycle(statement)]
    #[tactic(auto, unfolding(crate::specs::Rules::lookup_statement))]
    fn lookup_statement(&mut self, src: Source<'_>) -> Result<u32, Stop>
        ensures { Gives result self.new (reads src.entry rules.lookup_statement self.old) }
    {
        let at = self.place(src);
        self.word(src, Word::Lookup)?;
        let table = self.name(src)?;
        let address = self.expression(src)?;
        self.word(src, Word::As)?;
        let value = self.name(src)?;
        let then = self.block(src)?;
        let otherwise = self.otherwise(src)?;
        let what = Statement::Lookup {
            table,
            address,
            value,
            then,
            otherwise,
        };
        self.add_statement(at, what)
    }

    // Reads an `else` with its block, if one stands there.
    #[cycle(statement)]
    #[tactic(auto, unfolding(crate::specs::Rules::otherwise))]
    fn otherwise(&mut self, src: Source<'_>) -> Result<Option<u32>, Stop>
        ensures { Gives result self.new (reads src.entry rules.otherwise self.old) }
    {
        if !self.next_is_word(src, Word::Else) {
            return Ok(None);
        }
        self.word(src, Word::Else)?;
        Ok(Some(self.block(src)?))
    }

    /// Reads a block that stands in another construct.
    #[cycle(statement)]
    #[tactic(auto, using(crate::proofs::Steps::inner_wrong, crate::proofs::Steps::inner_deep, crate::proofs::Steps::inner_read))]
    pub fn block(&mut self, src: Source<'_>) -> Result<u32, Stop>
        ensures { Gives result self.new (reads_inner src.entry rules.Block self.old) }
    {
        if !self.next_is_sign(src, Sign::LeftBrace) {
            return Err(Stop::Wrong);
        }
        if src.room == 0 {
            return Err(Stop::Deep);
        }
        self.whole_block(src.deeper())
    }

    // Reads a block, whose nesting is counted already.
    #[cycle(statement)]
    #[tactic(auto, unfolding(crate::specs::Rules::block))]
    fn whole_block(&mut self, src: Source<'_>) -> Result<u32, Stop>
        ensures { Gives result self.new (reads src.entry rules.block self.old) }
    {
        let at = self.place(src);
        self.sign(src, Sign::LeftBrace)?;
        let parts = self.statements(src)?;
        let end = self.place(src);
        self.sign(src, Sign::RightBrace)?;
        self.add_block(at, &parts, end)
    }

    // Reads the statements of a block.
    #[cycle(statement)]
    #[tactic(auto, unfolding(crate::specs::Rules::statements))]
    fn statements(&mut self, src: Source<'_>) -> Result<Vec<u32>, Stop>
        ensures { Gives (items_of result) self.new (reads src.entry rules.statements self.old) }
    {
        let mut parts = Vec::new(src.alloc);
        while self.next_is_statement(src) {
            parts.push(self.statement(src)?)?;
        }
        Ok(parts)
    }
}
