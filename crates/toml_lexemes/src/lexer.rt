ghost use Rattle.std.specs.Prelude.{◌≡◌, map, IfOk, All};
ghost use Rattle.toml_lexemes.specs.Lexemes.{toml_lexemes_of};
ghost use Rattle.toml_lexemes.specs.View.{toml_text_of, HasTomlKind};

use crate::cut::{blanks_end, lexeme_at};
use crate::lexeme::Lexeme;
use std::alloc::{AllocError, Global};
use std::marker::Model;

/// Returns the lexemes of a text one by one, in their order. It takes no memory. A clause sees how those that are left are spelled.
#[derive(Drop)]
pub struct Lexer<'a> {
    text: &'a str,
    place: usize,
}

impl<'a> Model for Lexer<'a> {
    ghost use Rattle.std.specs.Prelude.{ℕ, List};
    ghost use Rattle.toml_lexemes.specs.Lexer.{toml_lexer_view, IsTomlLexer};

    ghost Value = { List (List ℕ) };

    ghost view = { toml_lexer_view };

    ghost invariant = { IsTomlLexer };
}

impl<'a> Lexer<'a> {
    /// Returns all lexemes of this text.
    pub fn new(text: &'a str) -> Lexer<'a>
        ensures { result ≡ toml_lexemes_of text.now }
    {
        Lexer { text, place: 0 }
    }

    /// Another lexer, which returns the same lexemes.
    #[inline]
    pub fn again(&self) -> Lexer<'a>
        ensures { result ≡ self.now }
    {
        Lexer {
            text: self.text,
            place: self.place,
        }
    }
}

impl<'a> Iterator for Lexer<'a> {
    type Item = Lexeme<'a>;

    ghost use Rattle.std.specs.Iterator.{item_count};
    ghost use Rattle.toml_lexemes.specs.View.{YieldsTomlLexeme};

    ghost next_gives = { YieldsTomlLexeme };

    ghost remaining = { item_count (λ left. left) };

    fn next(&mut self) -> Option<Lexeme<'a>> {
        let text = self.text;
        let place = blanks_end(text.as_bytes(), self.place);
        if place == text.len() {
            self.place = place;
            return None;
        }
        let lexeme = lexeme_at(text, place);
        self.place = place + lexeme.text().len();
        Some(lexeme)
    }
}

/// The lexemes of a text, in their order. Each is a slice of the text or one sign; blanks are in none but strings and comments.
///
/// `AllocError` where memory is refused.
pub fn lexemes<'a>(alloc: Global, text: &'a str) -> Result<Vec<Lexeme<'a>>, AllocError>
    ensures texts { IfOk result (λ found. map toml_text_of found.items ≡ toml_lexemes_of text.now) }
    ensures names { IfOk result (λ found. All HasTomlKind found.items) }
{
    let mut found = Vec::new(alloc);
    for lexeme in Lexer::new(text) {
        found.push(lexeme)?;
    }
    Ok(found)
}
