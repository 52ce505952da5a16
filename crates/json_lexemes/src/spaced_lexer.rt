ghost use Rattle.std.specs.Prelude.{◌≡◌, ℕ, ◌≤◌, List, [], ◌∷◌, length, drop, nat_le, MatchOption};
ghost use Rattle.std.specs.Str.{IsCharBoundary};
ghost use Rattle.json_lexemes.specs.SpacedLexemes.{after_gap, line_feeds, spaced_lexemes};
ghost use Rattle.json_lexemes.specs.SpacedLexer.{IsFirstByte, IsFirstGap};
ghost use Rattle.json_lexemes.specs.View.{text_of, IsNamed};

use crate::cut::{lexeme_at, spaces_end};
use crate::lexeme::Lexeme;
use std::marker::Model;

/// Returns the lexemes of a text one by one, in their order. Of the next one it knows the spaces before it and the first byte. It
/// takes no memory. A clause sees those that are left, each after its gap.
#[derive(Drop)]
pub struct SpacedLexer<'a> {
    text: &'a str,
    /// Where the spaces before the next lexeme begin.
    from: usize,
    /// Where the next lexeme begins, or the end.
    place: usize,
}

impl<'a> Model for SpacedLexer<'a> {
    ghost use Rattle.std.specs.Prelude.{List};
    ghost use Rattle.json_lexemes.specs.SpacedLexemes.{Spaced};
    ghost use Rattle.json_lexemes.specs.SpacedLexer.{spaced_view, IsJsonSpacedLexer};

    ghost Value = { List Spaced };

    ghost view = { spaced_view };

    ghost invariant = { IsJsonSpacedLexer };
}

impl<'a> SpacedLexer<'a> {
    /// Returns all lexemes of this text.
    pub fn new(text: &'a str) -> SpacedLexer<'a>
        ensures { result ≡ spaced_lexemes text.now }
    {
        SpacedLexer::from_place(text, 0)
    }

    // Returns those from this place on.
    #[inline(always)]
    fn from_place(text: &'a str, from: usize) -> SpacedLexer<'a>
        requires within { from ≤ length text.now }
        requires boundary { IsCharBoundary text.now from }
        ensures { result ≡ spaced_lexemes (drop from text.now) }
    {
        let place = spaces_end(text.as_bytes(), from);
        SpacedLexer { text, from, place }
    }

    /// Another one, which returns the same lexemes.
    #[inline]
    pub fn again(&self) -> SpacedLexer<'a>
        ensures { result ≡ self.now }
    {
        SpacedLexer {
            text: self.text,
            from: self.from,
            place: self.place,
        }
    }

    /// The spaces before the next lexeme.
    #[inline(always)]
    pub fn gap(&self) -> &'a [u8]
        ensures { IsFirstGap self.now result.now }
    {
        &self.text.as_bytes()[self.from..self.place]
    }

    /// The first byte of the next lexeme, or `None` where none is left.
    #[inline(always)]
    pub fn first_byte(&self) -> Option<u8>
        ensures { MatchOption result (self.now ≡ []) (IsFirstByte self.now) }
    {
        let bytes = self.text.as_bytes();
        if self.place < bytes.len() {
            Some(bytes[self.place])
        } else {
            None
        }
    }

    /// The next lexeme, or `None` where none is left.
    #[inline(always)]
    pub fn next(&mut self) -> Option<Lexeme<'a>>
        ensures next { MatchOption result ((self.old ≡ []) × (self.new ≡ []))
            (λ lexeme. (gap : List ℕ) × (self.old ≡ after_gap gap (text_of lexeme) ∷ self.new) × IsNamed lexeme) }
    {
        let text = self.text;
        let place = self.place;
        if place == text.len() {
            return None;
        }
        let lexeme = lexeme_at(text, place);
        *self = SpacedLexer::from_place(text, place + lexeme.text().len());
        Some(lexeme)
    }
}

/// Whether a line end is among these spaces.
pub fn has_line_end(spaces: &[u8]) -> bool
    ensures { result ≡ nat_le 1 (line_feeds spaces.now) }
{
    let mut rest = spaces;
    while let Some((byte, after)) = rest.split_first() {
        if *byte == b'\n' {
            return true;
        }
        rest = after;
    }
    false
}
