//! Items: structs, externs and functions (C11 6.7 and 6.9).
ghost use Rattle.std.specs.Prelude.{◌≡◌};
ghost use Rattle.vg_cread.specs.Places.{tested};
ghost use Rattle.vg_cread.specs.Kinds.{handle_of};
ghost use Rattle.vg_cread.specs.Grammar.{field, fields, attribute, packing, handle, struct_item, extern_item, param, params, answer, flagged};
ghost use Rattle.vg_cread.specs.Grammar.{function, item, items, unit};
ghost use Rattle.vg_cread.specs.Reading.{Gives, reads, next, items_of};

use crate::kinds::handle_of;
use crate::reader::{Reader, Source, Stop};
use vg_core::{HandleKind, IntType, Kind, Name};
use vg_ctok::{Keyword, Sign};

impl Reader {
    // The next token as a kind of handle.
    fn next_handle(&self, src: Source<'_>) -> Option<HandleKind>
        ensures { result ≡ tested handle_of (next src.entry self.now) }
    {
        handle_of(self.next(src)?)
    }

    // Reads a kind of handle.
    #[tactic(auto, unfolding(crate::specs::Grammar::handle))]
    fn handle(&mut self, src: Source<'_>) -> Result<HandleKind, Stop>
        ensures { Gives result self.new (reads src.entry handle self.old) }
    {
        let Some(handle) = self.next_handle(src) else {
            return Err(Stop::Wrong);
        };
        self.step(src);
        Ok(handle)
    }

    // Reads a field of a struct.
    #[tactic(auto, unfolding(crate::specs::Grammar::field))]
    fn field(&mut self, src: Source<'_>) -> Result<u32, Stop>
        ensures { Gives result self.new (reads src.entry field self.old) }
    {
        let at = self.place(src);
        let base = self.base(src)?;
        let name = self.name(src)?;
        let length = self.array_length(src)?;
        self.sign(src, Sign::Semicolon)?;
        self.node(at, Kind::Field { base, name, length })
    }

    // Reads the fields of a struct, at least one.
    #[tactic(auto, unfolding(crate::specs::Grammar::fields))]
    fn fields(&mut self, src: Source<'_>) -> Result<Vec<u32>, Stop>
        ensures { Gives (items_of result) self.new (reads src.entry fields self.old) }
    {
        let mut parts = Vec::new(src.alloc);
        parts.push(self.field(src)?)?;
        while self.next_is_base(src) {
            parts.push(self.field(src)?)?;
        }
        Ok(parts)
    }

    // Reads an attribute, up to its name and the parentheses behind it.
    #[tactic(auto, unfolding(crate::specs::Grammar::attribute))]
    fn attribute(&mut self, src: Source<'_>) -> Result<Name, Stop>
        ensures { Gives result self.new (reads src.entry attribute self.old) }
    {
        self.word(src, Keyword::Attribute)?;
        self.sign(src, Sign::LeftParen)?;
        self.sign(src, Sign::LeftParen)?;
        let name = self.name(src)?;
        self.sign(src, Sign::RightParen)?;
        self.sign(src, Sign::RightParen)?;
        Ok(name)
    }

    // Reads an attribute, if one stands there.
    #[tactic(auto, unfolding(crate::specs::Grammar::packing))]
    fn packing(&mut self, src: Source<'_>) -> Result<Option<Name>, Stop>
        ensures { Gives result self.new (reads src.entry packing self.old) }
    {
        if !self.next_is_word(src, Keyword::Attribute) {
            return Ok(None);
        }
        Ok(Some(self.attribute(src)?))
    }

    // Reads a struct.
    #[tactic(auto, unfolding(crate::specs::Grammar::struct_item))]
    fn struct_item(&mut self, src: Source<'_>) -> Result<u32, Stop>
        ensures { Gives result self.new (reads src.entry struct_item self.old) }
    {
        let at = self.place(src);
        self.word(src, Keyword::Struct)?;
        let tag = self.name(src)?;
        self.sign(src, Sign::LeftBrace)?;
        let fields = self.fields(src)?;
        self.sign(src, Sign::RightBrace)?;
        let attribute = self.packing(src)?;
        self.sign(src, Sign::Semicolon)?;
        let fields = self.parts(&fields)?;
        let kind = Kind::Struct {
            tag,
            fields,
            attribute,
        };
        self.node(at, kind)
    }

    // Reads a handle or a number that comes from outside.
    #[tactic(auto, unfolding(crate::specs::Grammar::extern_item))]
    fn extern_item(&mut self, src: Source<'_>) -> Result<u32, Stop>
        ensures { Gives result self.new (reads src.entry extern_item self.old) }
    {
        let at = self.place(src);
        self.word(src, Keyword::Extern)?;
        if self.next_is_word(src, Keyword::Const) {
            self.word(src, Keyword::Const)?;
            let of = self.int_type(src)?;
            let name = self.name(src)?;
            self.sign(src, Sign::Semicolon)?;
            return self.node(at, Kind::ExternNumber { of, name });
        }
        let handle = self.handle(src)?;
        let name = self.name(src)?;
        self.sign(src, Sign::Semicolon)?;
        self.node(at, Kind::ExternHandle { handle, name })
    }

    // Reads a parameter.
    #[tactic(auto, unfolding(crate::specs::Grammar::param))]
    fn param(&mut self, src: Source<'_>) -> Result<u32, Stop>
        ensures { Gives result self.new (reads src.entry param self.old) }
    {
        let at = self.place(src);
        let base = self.base(src)?;
        let pointer = self.star(src)?;
        let name = self.name(src)?;
        let kind = Kind::Param {
            base,
            pointer,
            name,
        };
        self.node(at, kind)
    }

    // Reads the parameters of a function: `void`, or at least one.
    #[tactic(auto, unfolding(crate::specs::Grammar::params))]
    fn params(&mut self, src: Source<'_>) -> Result<Vec<u32>, Stop>
        ensures { Gives (items_of result) self.new (reads src.entry params self.old) }
    {
        let mut parts = Vec::new(src.alloc);
        if self.next_is_word(src, Keyword::Void) {
            self.word(src, Keyword::Void)?;
            return Ok(parts);
        }
        parts.push(self.param(src)?)?;
        while self.next_is_sign(src, Sign::Comma) {
            self.sign(src, Sign::Comma)?;
            parts.push(self.param(src)?)?;
        }
        Ok(parts)
    }

    // Reads the type of a function's answer, if it has one, or `void`.
    #[tactic(auto, unfolding(crate::specs::Grammar::answer))]
    fn answer(&mut self, src: Source<'_>) -> Result<Option<IntType>, Stop>
        ensures { Gives result self.new (reads src.entry answer self.old) }
    {
        if self.next_is_word(src, Keyword::Void) {
            self.word(src, Keyword::Void)?;
            return Ok(None);
        }
        Ok(Some(self.int_type(src)?))
    }

    // Reads `static` or `inline`, if it stands there.
    #[tactic(auto, unfolding(crate::specs::Grammar::flagged))]
    fn flag(&mut self, src: Source<'_>, which: Keyword) -> Result<bool, Stop>
        ensures { Gives result self.new (reads src.entry (flagged which) self.old) }
    {
        if !self.next_is_word(src, which) {
            return Ok(false);
        }
        self.word(src, which)?;
        Ok(true)
    }

    // Reads a function.
    #[tactic(auto, unfolding(crate::specs::Grammar::function))]
    fn function(&mut self, src: Source<'_>) -> Result<u32, Stop>
        ensures { Gives result self.new (reads src.entry function self.old) }
    {
        let at = self.place(src);
        let is_static = self.flag(src, Keyword::Static)?;
        let is_inline = self.flag(src, Keyword::Inline)?;
        let answer = self.answer(src)?;
        let name = self.name(src)?;
        self.sign(src, Sign::LeftParen)?;
        let params = self.params(src)?;
        self.sign(src, Sign::RightParen)?;
        let body = self.body(src)?;
        let params = self.parts(&params)?;
        let kind = Kind::Function {
            is_static,
            is_inline,
            answer,
            name,
            params,
            body,
        };
        self.node(at, kind)
    }

    // Reads an item.
    #[tactic(auto, unfolding(crate::specs::Grammar::item))]
    fn item(&mut self, src: Source<'_>) -> Result<u32, Stop>
        ensures { Gives result self.new (reads src.entry item self.old) }
    {
        if self.next_is_word(src, Keyword::Struct) {
            return self.struct_item(src);
        }
        if self.next_is_word(src, Keyword::Extern) {
            return self.extern_item(src);
        }
        self.function(src)
    }

    // Reads items up to the last token.
    #[tactic(auto, unfolding(crate::specs::Grammar::items))]
    fn items(&mut self, src: Source<'_>) -> Result<Vec<u32>, Stop>
        ensures { Gives (items_of result) self.new (reads src.entry items self.old) }
    {
        let mut parts = Vec::new(src.alloc);
        while self.next(src).is_some() {
            parts.push(self.item(src)?)?;
        }
        Ok(parts)
    }

    /// Reads a whole text.
    #[tactic(auto, unfolding(crate::specs::Grammar::unit))]
    pub fn unit(&mut self, src: Source<'_>) -> Result<u32, Stop>
        ensures { Gives result self.new (reads src.entry unit self.old) }
    {
        let at = self.place(src);
        let items = self.items(src)?;
        let items = self.parts(&items)?;
        self.node(at, Kind::Unit { items })
    }
}
