//! One token, where it may stand.

ghost use Rattle.std.specs.Prelude.{◌≡◌, ◌≤◌, IfOk};
ghost use Rattle.ll_grammar.specs.Reading.{Gives, mark, keyword, name, metadatum, width, one_width, literal};

use crate::cursor::Cursor;
use crate::opcodes::has_width;
use crate::stop::{Place, Stop};
use crate::words::{is_text, width_of};
use ll_token::TokenKind;
use std::alloc::Global;
use wx_base::Name;

impl<'a> Cursor<'a> {
    /// Reads this mark.
    #[tactic(auto, unfolding(crate::specs::Reading::mark))]
    pub fn mark(&mut self, byte: u8) -> Result<(), Stop>
        ensures { Gives result self.new (mark byte self.old) }
    {
        if !self.is_mark(byte) {
            return self.stop(Place::Other);
        }
        self.advance();
        Ok(())
    }

    /// Reads this word.
    #[tactic(auto, unfolding(crate::specs::Reading::keyword))]
    pub fn keyword(&mut self, word: &[u8]) -> Result<(), Stop>
        ensures { Gives result self.new (keyword word.now self.old) }
    {
        if !is_text(self.word(), word) {
            return self.stop(Place::Other);
        }
        self.advance();
        Ok(())
    }

    /// Reads a token of a kind that holds a name.
    #[tactic(auto, unfolding(crate::specs::Reading::name))]
    pub fn name(&mut self, alloc: Global, kind: TokenKind, place: Place) -> Result<Name, Stop>
        ensures { Gives result self.new (name kind place self.old) }
    {
        if !self.is_kind(kind) {
            return self.stop(place);
        }
        let name = self.next_name(alloc)?;
        self.advance();
        Ok(name)
    }

    /// Reads a `!` and what follows it.
    #[tactic(auto, unfolding(crate::specs::Reading::metadatum))]
    pub fn metadatum(&mut self) -> Result<(), Stop>
        ensures { Gives result self.new (metadatum self.old) }
    {
        if !self.is_kind(TokenKind::Meta) {
            return self.stop(Place::Other);
        }
        self.advance();
        Ok(())
    }

    /// Reads an integer type, and gives its width.
    #[tactic(auto, unfolding(crate::specs::Reading::width))]
    pub fn width(&mut self) -> Result<u32, Stop>
        ensures reads { Gives result self.new (width self.old) }
        ensures few { IfOk result (λ width. width ≤ 32) }
    {
        let Some(width) = width_of(self.word()) else {
            return self.stop(Place::Type);
        };
        self.advance();
        Ok(width)
    }

    /// Reads the integer type of this width.
    #[tactic(auto, unfolding(crate::specs::Reading::one_width))]
    pub fn one_width(&mut self, width: u32) -> Result<(), Stop>
        ensures { Gives result self.new (one_width width self.old) }
    {
        if !has_width(width, self.word()) {
            return self.stop(Place::Type);
        }
        self.advance();
        Ok(())
    }

    /// Reads a literal of this width, and gives the number below 2^width that it stands for.
    #[tactic(auto, unfolding(crate::specs::Reading::literal))]
    pub fn literal(&mut self, width: u32) -> Result<u32, Stop>
        requires { width ≤ 32 }
        ensures { Gives result self.new (literal width self.old) }
    {
        let Some(number) = self.next_literal(width) else {
            return self.stop(Place::Literal);
        };
        self.advance();
        Ok(number)
    }
}
