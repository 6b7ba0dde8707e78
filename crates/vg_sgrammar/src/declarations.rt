//! Declarations, and a whole text.
ghost use Rattle.std.specs.Prelude.{◌≡◌};
ghost use Rattle.vg_forms.specs.Places.{passes, tested};
ghost use Rattle.vg_forms.specs.Reading.{Gives};
ghost use Rattle.vg_sgrammar.specs.Kinds.{begins_declaration, width_of, field_type_of};
ghost use Rattle.vg_sgrammar.specs.Reader.{reads, next, items_of};
ghost use Rattle.vg_sgrammar.specs.Rules as rules;

use crate::kinds::{begins_declaration, field_type_of, width_of};
use crate::reader::{Reader, Source};
use crate::tree::{Declaration, Field, Name, Size};
use vg_forms::Stop;
use vg_stok::{Sign, Word};
use vg_stree::{FieldType, Width};

impl Reader {
    // Whether the next token begins a declaration.
    fn next_is_declaration(&self, src: Source<'_>) -> bool
        ensures { result ≡ passes begins_declaration (next src.entry self.now) }
    {
        match self.next(src) {
            Some(t) => begins_declaration(t),
            None => false,
        }
    }

    // The next token as a width.
    fn next_width(&self, src: Source<'_>) -> Option<Width>
        ensures { result ≡ tested width_of (next src.entry self.now) }
    {
        width_of(self.next(src)?)
    }

    // Reads the width of a number.
    #[tactic(auto, unfolding(crate::specs::Rules::width))]
    fn width(&mut self, src: Source<'_>) -> Result<Width, Stop>
        ensures { Gives result self.new (reads src.entry rules.width self.old) }
    {
        let Some(width) = self.next_width(src) else {
            return Err(Stop::Wrong);
        };
        self.step(src);
        Ok(width)
    }

    // The next token as the type of a field.
    fn next_field_type(&self, src: Source<'_>) -> Option<FieldType>
        ensures { result ≡ tested field_type_of (next src.entry self.now) }
    {
        field_type_of(self.next(src)?)
    }

    // Reads the type of a field.
    #[tactic(auto, unfolding(crate::specs::Rules::field_type))]
    fn field_type(&mut self, src: Source<'_>) -> Result<FieldType, Stop>
        ensures { Gives result self.new (reads src.entry rules.field_type self.old) }
    {
        let Some(of) = self.next_field_type(src) else {
            return Err(Stop::Wrong);
        };
        self.step(src);
        Ok(of)
    }

    // Reads how many ports there are.
    #[tactic(auto, unfolding(crate::specs::Rules::ports))]
    fn ports(&mut self, src: Source<'_>) -> Result<u32, Stop>
        ensures { Gives result self.new (reads src.entry rules.ports self.old) }
    {
        let at = self.place(src);
        self.word(src, Word::Ports)?;
        let count = self.number(src)?;
        self.sign(src, Sign::Semicolon)?;
        self.add_declaration(at, Declaration::Ports { count })
    }

    // Reads a number of the configuration.
    #[tactic(auto, unfolding(crate::specs::Rules::config))]
    fn config(&mut self, src: Source<'_>) -> Result<u32, Stop>
        ensures { Gives result self.new (reads src.entry rules.config self.old) }
    {
        let at = self.place(src);
        self.word(src, Word::Config)?;
        let name = self.name(src)?;
        self.sign(src, Sign::Colon)?;
        let of = self.width(src)?;
        let low = self.number(src)?;
        self.sign(src, Sign::Range)?;
        let high = self.number(src)?;
        self.sign(src, Sign::Semicolon)?;
        let what = Declaration::Config {
            name,
            of,
            low,
            high,
        };
        self.add_declaration(at, what)
    }

    // Reads a premise.
    #[tactic(auto, unfolding(crate::specs::Rules::premise))]
    fn premise(&mut self, src: Source<'_>) -> Result<u32, Stop>
        ensures { Gives result self.new (reads src.entry rules.premise self.old) }
    {
        let at = self.place(src);
        self.word(src, Word::Premise)?;
        let value = self.expression(src)?;
        self.sign(src, Sign::Semicolon)?;
        self.add_declaration(at, Declaration::Premise { value })
    }

    // Reads a field of a struct.
    #[tactic(auto, unfolding(crate::specs::Rules::field))]
    fn field(&mut self, src: Source<'_>) -> Result<Field, Stop>
        ensures { Gives result self.new (reads src.entry rules.field self.old) }
    {
        let name = self.name(src)?;
        self.sign(src, Sign::Colon)?;
        let of = self.field_type(src)?;
        self.sign(src, Sign::Semicolon)?;
        Ok(Field { name, of })
    }

    // Reads the fields of a struct, one at least.
    #[tactic(auto, unfolding(crate::specs::Rules::fields))]
    fn fields(&mut self, src: Source<'_>) -> Result<Vec<Field>, Stop>
        ensures { Gives (items_of result) self.new (reads src.entry rules.fields self.old) }
    {
        let mut list = Vec::new(src.alloc);
        list.push(self.field(src)?)?;
        while self.next_is_name(src) {
            list.push(self.field(src)?)?;
        }
        Ok(list)
    }

    // Reads a struct.
    #[tactic(auto, unfolding(crate::specs::Rules::struct_declaration))]
    fn struct_declaration(&mut self, src: Source<'_>) -> Result<u32, Stop>
        ensures { Gives result self.new (reads src.entry rules.struct_declaration self.old) }
    {
        let at = self.place(src);
        self.word(src, Word::Struct)?;
        let name = self.name(src)?;
        self.sign(src, Sign::LeftBrace)?;
        let fields = self.fields(src)?;
        self.sign(src, Sign::RightBrace)?;
        self.add_struct(at, name, &fields)
    }

    // Reads a capacity or a length.
    #[tactic(auto, unfolding(crate::specs::Rules::size))]
    fn size(&mut self, src: Source<'_>) -> Result<Size, Stop>
        ensures { Gives result self.new (reads src.entry rules.size self.old) }
    {
        if self.next_number(src).is_some() {
            return Ok(Size::Count(self.number(src)?));
        }
        Ok(Size::Name(self.name(src)?))
    }

    // Reads a link.
    #[tactic(auto, unfolding(crate::specs::Rules::link))]
    fn link(&mut self, src: Source<'_>) -> Result<u32, Stop>
        ensures { Gives result self.new (reads src.entry rules.link self.old) }
    {
        let at = self.place(src);
        self.word(src, Word::Link)?;
        let map = self.name(src)?;
        self.sign(src, Sign::Comma)?;
        let chain = self.name(src)?;
        self.sign(src, Sign::Comma)?;
        let keys = self.name(src)?;
        self.sign(src, Sign::Colon)?;
        let key = self.name(src)?;
        self.sign(src, Sign::Comma)?;
        let capacity = self.size(src)?;
        self.sign(src, Sign::Semicolon)?;
        let what = Declaration::Link {
            map,
            chain,
            keys,
            key,
            capacity,
        };
        self.add_declaration(at, what)
    }

    // Reads a vector of its own.
    #[tactic(auto, unfolding(crate::specs::Rules::vector))]
    fn vector(&mut self, src: Source<'_>) -> Result<u32, Stop>
        ensures { Gives result self.new (reads src.entry rules.vector self.old) }
    {
        let at = self.place(src);
        self.word(src, Word::Vector)?;
        let name = self.name(src)?;
        self.sign(src, Sign::Colon)?;
        let cell = self.name(src)?;
        self.sign(src, Sign::Comma)?;
        let length = self.size(src)?;
        self.sign(src, Sign::Semicolon)?;
        self.add_declaration(at, Declaration::Vector { name, cell, length })
    }

    // Reads a prefix table.
    #[tactic(auto, unfolding(crate::specs::Rules::prefix))]
    fn prefix(&mut self, src: Source<'_>) -> Result<u32, Stop>
        ensures { Gives result self.new (reads src.entry rules.prefix self.old) }
    {
        let at = self.place(src);
        self.word(src, Word::Prefix)?;
        let name = self.name(src)?;
        self.sign(src, Sign::Colon)?;
        let low = self.number(src)?;
        self.sign(src, Sign::Range)?;
        let high = self.number(src)?;
        self.sign(src, Sign::Semicolon)?;
        self.add_declaration(at, Declaration::Prefix { name, low, high })
    }

    // Reads a rule.
    #[tactic(auto, unfolding(crate::specs::Rules::rule))]
    fn rule(&mut self, src: Source<'_>) -> Result<u32, Stop>
        ensures { Gives result self.new (reads src.entry rules.rule self.old) }
    {
        let at = self.place(src);
        self.word(src, Word::Rule)?;
        let vector = self.name(src)?;
        self.sign(src, Sign::Colon)?;
        let value = self.expression(src)?;
        self.sign(src, Sign::Semicolon)?;
        self.add_declaration(at, Declaration::Rule { vector, value })
    }

    // Reads a comma and a name.
    #[tactic(auto, unfolding(crate::specs::Rules::next_name))]
    fn another_name(&mut self, src: Source<'_>) -> Result<Name, Stop>
        ensures { Gives result self.new (reads src.entry rules.next_name self.old) }
    {
        self.sign(src, Sign::Comma)?;
        self.name(src)
    }

    // Reads names with commas between them.
    #[tactic(auto, unfolding(crate::specs::Rules::some_names))]
    fn some_names(&mut self, src: Source<'_>) -> Result<Vec<Name>, Stop>
        ensures { Gives (items_of result) self.new (reads src.entry rules.some_names self.old) }
    {
        let mut list = Vec::new(src.alloc);
        list.push(self.name(src)?)?;
        while self.next_is_sign(src, Sign::Comma) {
            list.push(self.another_name(src)?)?;
        }
        Ok(list)
    }

    // Reads the parameters of a define.
    #[tactic(auto, unfolding(crate::specs::Rules::parameters))]
    fn parameters(&mut self, src: Source<'_>) -> Result<Vec<Name>, Stop>
        ensures { Gives (items_of result) self.new (reads src.entry rules.parameters self.old) }
    {
        if !self.next_is_name(src) {
            return Ok(Vec::new(src.alloc));
        }
        self.some_names(src)
    }

    // Reads a define.
    #[tactic(auto, unfolding(crate::specs::Rules::define))]
    fn define(&mut self, src: Source<'_>) -> Result<u32, Stop>
        ensures { Gives result self.new (reads src.entry rules.define self.old) }
    {
        let at = self.place(src);
        self.word(src, Word::Define)?;
        let name = self.name(src)?;
        self.sign(src, Sign::LeftParen)?;
        let parameters = self.parameters(src)?;
        self.sign(src, Sign::RightParen)?;
        let value = self.assigned(src)?;
        self.add_define(at, name, &parameters, value)
    }

    // Reads a declaration.
    #[tactic(auto, unfolding(crate::specs::Rules::declaration))]
    fn declaration(&mut self, src: Source<'_>) -> Result<u32, Stop>
        ensures { Gives result self.new (reads src.entry rules.declaration self.old) }
    {
        if self.next_is_word(src, Word::Ports) {
            return self.ports(src);
        }
        if self.next_is_word(src, Word::Config) {
            return self.config(src);
        }
        if self.next_is_word(src, Word::Premise) {
            return self.premise(src);
        }
        if self.next_is_word(src, Word::Struct) {
            return self.struct_declaration(src);
        }
        if self.next_is_word(src, Word::Link) {
            return self.link(src);
        }
        if self.next_is_word(src, Word::Vector) {
            return self.vector(src);
        }
        if self.next_is_word(src, Word::Prefix) {
            return self.prefix(src);
        }
        if self.next_is_word(src, Word::Rule) {
            return self.rule(src);
        }
        self.define(src)
    }

    // Reads declarations, as many as there are.
    #[tactic(auto, unfolding(crate::specs::Rules::declarations))]
    fn declarations(&mut self, src: Source<'_>) -> Result<(), Stop>
        ensures { Gives result self.new (reads src.entry rules.declarations self.old) }
    {
        while self.next_is_declaration(src) {
            self.declaration(src)?;
        }
        Ok(())
    }

    // Tells that no token is left.
    #[tactic(auto, unfolding(crate::specs::Rules::ended))]
    fn ended(&mut self, src: Source<'_>) -> Result<(), Stop>
        ensures { Gives result self.new (reads src.entry rules.ended self.old) }
    {
        match self.next(src) {
            Some(_) => Err(Stop::Wrong),
            None => Ok(()),
        }
    }

    /// Reads a whole text, and answers the number of the step's block.
    #[tactic(auto, unfolding(crate::specs::Rules::specification))]
    pub fn specification(&mut self, src: Source<'_>) -> Result<u32, Stop>
        ensures { Gives result self.new (reads src.entry rules.specification self.old) }
    {
        self.declarations(src)?;
        self.word(src, Word::Step)?;
        let block = self.block(src)?;
        self.ended(src)?;
        Ok(block)
    }
}
