//! Types, as they stand in declarations and casts.
ghost use Rattle.std.specs.Prelude.{◌≡◌};
ghost use Rattle.vg_cread.specs.Grammar.{int_type, base, star};
ghost use Rattle.vg_cread.specs.Reading.{Gives, reads};

use crate::kinds::int_of;
use crate::reader::{Reader, Source, Stop};
use vg_core::{Base, IntType};
use vg_ctok::{Keyword, Sign};

impl Reader {
    /// Reads an integer type.
    #[tactic(auto, unfolding(crate::specs::Grammar::int_type))]
    pub fn int_type(&mut self, src: Source<'_>) -> Result<IntType, Stop>
        ensures { Gives result self.new (reads src.entry int_type self.old) }
    {
        if self.next_is_word(src, Keyword::Unsigned) {
            self.word(src, Keyword::Unsigned)?;
            if self.next_is_word(src, Keyword::Int) {
                self.word(src, Keyword::Int)?;
            }
            return Ok(IntType::Unsigned);
        }
        let Some(t) = self.next(src) else {
            return Err(Stop::Wrong);
        };
        let Some(of) = int_of(t) else {
            return Err(Stop::Wrong);
        };
        self.step(src);
        Ok(of)
    }

    /// Reads the type that a variable is of or points to.
    #[tactic(auto, unfolding(crate::specs::Grammar::base))]
    pub fn base(&mut self, src: Source<'_>) -> Result<Base, Stop>
        ensures { Gives result self.new (reads src.entry base self.old) }
    {
        if !self.next_is_word(src, Keyword::Struct) {
            return Ok(Base::Int(self.int_type(src)?));
        }
        let at = self.place(src);
        self.word(src, Keyword::Struct)?;
        let tag = self.name(src)?;
        Ok(Base::Struct { at, tag })
    }

    /// Reads a `*`, if one stands there.
    #[tactic(auto, unfolding(crate::specs::Grammar::star))]
    pub fn star(&mut self, src: Source<'_>) -> Result<bool, Stop>
        ensures { Gives result self.new (reads src.entry star self.old) }
    {
        if !self.next_is_sign(src, Sign::Star) {
            return Ok(false);
        }
        self.sign(src, Sign::Star)?;
        Ok(true)
    }
}
