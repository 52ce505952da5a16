ghost use Rattle.std.specs.Prelude.{◌≡◌, ◌∷◌, [], false, IfSome, IfNone, MatchOption, ◌⊎◌};
ghost use Rattle.toml_lexemes.specs.Bytes.{line_feed};
ghost use Rattle.toml_lexemes.specs.Lexemes.{toml_lexemes_of};
ghost use Rattle.toml_lexemes.specs.View.{toml_text_of, HasTomlKind};
ghost use Rattle.toml_documents.specs.Kinds.{is_closing};
ghost use Rattle.toml_documents.specs.Lexing.{ClosesNext};
ghost use Rattle.toml_lexemes.specs.Sound.{AreSound, IsSound, LineEndsNext};

use crate::kind::closes;
use std::marker::Model;
use toml_lexemes::{Lexeme, Lexer};

/// The lexemes of a text, with one that is read ahead. A clause sees how those that are left are spelled.
#[derive(Drop)]
pub struct Ahead<'a> {
    lexer: Lexer<'a>,
    next: Option<Lexeme<'a>>,
}

impl<'a> Model for Ahead<'a> {
    ghost use Rattle.std.specs.Prelude.{ℕ, List};
    ghost use Rattle.toml_documents.specs.Ahead.{toml_lexemes_left, IsTomlAhead};

    ghost Value = { List (List ℕ) };

    ghost view = { λ a. toml_lexemes_left a.next a.lexer };

    ghost invariant = { λ a. IsTomlAhead a.next a.lexer };
}

impl<'a> Ahead<'a> {
    /// All lexemes of this text.
    pub fn new(text: &'a str) -> Ahead<'a>
        requires { AreSound (toml_lexemes_of text.now) }
        ensures { result ≡ toml_lexemes_of text.now }
    {
        let mut lexer = Lexer::new(text);
        let next = lexer.next();
        Ahead { lexer, next }
    }

    /// The same lexemes once more.
    pub fn again(&self) -> Ahead<'a>
        ensures { result ≡ self.now }
    {
        Ahead {
            lexer: self.lexer.again(),
            next: self.next,
        }
    }

    /// Takes the next lexeme, or answers `None` where none is left.
    pub fn next(&mut self) -> Option<Lexeme<'a>>
        ensures next { MatchOption result ((self.old ≡ []) × (self.new ≡ []))
            (λ lexeme. self.old ≡ toml_text_of lexeme ∷ self.new) }
        ensures named { IfSome result HasTomlKind }
        ensures sound { IfSome result (λ lexeme. IsSound (toml_text_of lexeme) self.new) }
    {
        let taken = self.next;
        if taken.is_some() {
            self.next = self.lexer.next();
        }
        taken
    }

    /// Takes the next lexeme, unless it closes a list.
    pub fn next_inside(&mut self) -> Option<Lexeme<'a>>
        ensures some { IfSome result (λ lexeme. (self.old ≡ toml_text_of lexeme ∷ self.new)
            × (is_closing lexeme ≡ false)) }
        ensures named { IfSome result HasTomlKind }
        ensures sound { IfSome result (λ lexeme. IsSound (toml_text_of lexeme) self.new) }
        ensures none { IfNone result (self.new ≡ self.old) }
        ensures closing { IfNone result (ClosesNext self.old) }
    {
        match self.next {
            Some(lexeme) if closes(lexeme) => None,
            _ => self.next(),
        }
    }

    /// Takes the next lexeme, or answers `None` where none is left. A line end is taken too, and is answered as `None`.
    pub fn next_on_line(&mut self) -> Option<Lexeme<'a>>
        ensures some { IfSome result (λ lexeme. self.old ≡ toml_text_of lexeme ∷ self.new) }
        ensures named { IfSome result HasTomlKind }
        ensures sound { IfSome result (λ lexeme. IsSound (toml_text_of lexeme) self.new) }
        ensures none { IfNone result (((self.old ≡ []) × (self.new ≡ [])) ⊎ (self.old ≡ (line_feed ∷ []) ∷ self.new)) }
        ensures no_line_end { IfSome result (λ lexeme. LineEndsNext self.old → ⊥) }
    {
        match self.next() {
            Some(Lexeme::LineEnd) => None,
            next => next,
        }
    }
}
