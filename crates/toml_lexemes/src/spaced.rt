use crate::cut::{blanks_end, lexeme_at};
use crate::lexeme::Lexeme;
use std::marker::Model;

/// A lexeme of a text with the gap before it.
#[derive(Clone, Copy, Debug, PartialEq, Eq)]
pub struct Spaced<'a> {
    /// The blanks before the lexeme: spaces, tabs and CRs.
    pub gap: &'a str,
    /// `None` at the end of the text.
    pub lexeme: Option<Lexeme<'a>>,
}

impl<'a> Spaced<'a> {
    ghost use Rattle.std.specs.Prelude.{◌≡◌};
    ghost use Rattle.toml_lexemes.specs.SpacedLexer.{text_if};

    /// The lexeme as it is spelled, and nothing at the end.
    #[inline]
    pub fn text(self) -> &'a str
        ensures { result.now ≡ text_if self.entry.lexeme }
    {
        match self.lexeme {
            Some(lexeme) => lexeme.text(),
            None => "",
        }
    }
}

/// Returns the lexemes of a text one by one, each with the gap before it, and then the end with the last gap. It takes no memory.
/// A clause sees those that are left.
#[derive(Drop)]
pub struct SpacedLexer<'a> {
    text: &'a str,
    place: usize,
    ended: bool,
}

impl<'a> Model for SpacedLexer<'a> {
    ghost use Rattle.std.specs.Prelude.{List};
    ghost use Rattle.toml_lexemes.specs.SpacedLexemes as spec;
    ghost use Rattle.toml_lexemes.specs.SpacedLexer.{spaced_lexer_view, IsSpacedLexer};

    ghost Value = { List spec.SpacedToml };

    ghost view = { spaced_lexer_view };

    ghost invariant = { IsSpacedLexer };
}

impl<'a> SpacedLexer<'a> {
    ghost use Rattle.std.specs.Prelude.{◌≡◌};
    ghost use Rattle.toml_lexemes.specs.SpacedLexemes.{toml_spaced_lexemes};

    /// Returns all lexemes of this text, and the end.
    pub fn new(text: &'a str) -> SpacedLexer<'a>
        ensures { result ≡ toml_spaced_lexemes text.now }
    {
        SpacedLexer {
            text,
            place: 0,
            ended: false,
        }
    }

    /// Another lexer, which returns the same lexemes.
    #[inline]
    pub fn again(&self) -> SpacedLexer<'a>
        ensures { result ≡ self.now }
    {
        SpacedLexer {
            text: self.text,
            place: self.place,
            ended: self.ended,
        }
    }
}

impl<'a> Iterator for SpacedLexer<'a> {
    type Item = Spaced<'a>;

    ghost use Rattle.std.specs.Iterator.{item_count};
    ghost use Rattle.toml_lexemes.specs.SpacedLexer.{YieldsSpaced};

    ghost next_gives = { YieldsSpaced };

    ghost remaining = { item_count (λ left. left) };

    fn next(&mut self) -> Option<Spaced<'a>> {
        if self.ended {
            return None;
        }
        let text = self.text;
        let from = self.place;
        let place = blanks_end(text.as_bytes(), from);
        if place == text.len() {
            self.ended = true;
            return Some(Spaced {
                gap: &text[from..],
                lexeme: None,
            });
        }
        let lexeme = lexeme_at(text, place);
        self.place = place + lexeme.text().len();
        Some(Spaced {
            gap: &text[from..place],
            lexeme: Some(lexeme),
        })
    }
}
