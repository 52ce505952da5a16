ghost use Rattle.std.specs.Prelude.{◌≡◌, Bool, true, not, ◌&&◌, [], ◌∷◌, IfSome, MatchOption};
ghost use Rattle.json.specs.Ascii.{comma};
ghost use Rattle.json_lexemes.specs.SpacedLexemes.{spaced_lexemes};
ghost use Rattle.json_lexemes.specs.View.{text_of, IsNamed};
ghost use Rattle.json_formatter.specs.Documents.{closes, is_json_sign, next_is, opens, stops};
ghost use Rattle.json_formatter.specs.Pieces.{begins_line, pieces_of};
ghost use Rattle.json_formatter.specs.PieceTexts.{piece_text, IsPiece};

use crate::piece::JsonPiece;
use json_lexemes::{Lexeme, SpacedLexer, has_line_end};
use std::marker::Model;

/// The pieces of a text. A clause sees how those that are left are spelled.
#[derive(Drop)]
pub(crate) struct Ahead<'a> {
    lexer: SpacedLexer<'a>,
    /// Whether line ends keep no list broken.
    compact: bool,
}

impl<'a> Model for Ahead<'a> {
    ghost use Rattle.std.specs.Prelude.{ℕ, List, ⊤};
    ghost use Rattle.json_formatter.specs.Pieces.{pieces_of};

    ghost Value = { List (List ℕ) };

    ghost view = { λ a. pieces_of a.compact a.lexer };

    ghost invariant = { λ a. ⊤ };
}

// Whether the lexeme opens a list.
#[inline(always)]
fn opens_list(lexeme: Lexeme<'_>) -> bool
    requires { IsNamed lexeme }
    ensures { result ≡ opens (text_of lexeme.entry) }
{
    matches!(lexeme, Lexeme::OpenObject | Lexeme::OpenArray)
}

// Whether no lexeme is left, or the next one closes a list.
#[inline(always)]
fn list_ends(lexemes: &SpacedLexer<'_>) -> bool
    ensures { (compact : Bool) → result ≡ stops closes (pieces_of compact lexemes.now) }
{
    matches!(lexemes.first_byte(), None | Some(b'}' | b']'))
}

// Whether the next lexeme begins a line, and closes no list.
#[inline(always)]
fn begins_line(lexemes: &SpacedLexer<'_>) -> bool
    ensures { result ≡ begins_line lexemes.now }
{
    !list_ends(lexemes) && has_line_end(lexemes.gap())
}

// Whether the list that the lexeme opens is kept broken, where it opens one.
#[inline(always)]
fn keeps_broken(compact: bool, lexeme: Lexeme<'_>, later: &SpacedLexer<'_>) -> bool
    requires { IsNamed lexeme }
    ensures { opens (text_of lexeme.entry) ≡ true → result ≡ (not compact && begins_line later.now) }
{
    !compact && opens_list(lexeme) && begins_line(later)
}

impl<'a> Ahead<'a> {
    /// All pieces of this text.
    pub(crate) fn new(text: &'a str, compact: bool) -> Ahead<'a>
        ensures { result ≡ pieces_of compact (spaced_lexemes text.now) }
    {
        Ahead {
            lexer: SpacedLexer::new(text),
            compact,
        }
    }

    /// The same pieces once more.
    #[inline]
    pub(crate) fn again(&self) -> Ahead<'a>
        ensures { result ≡ self.now }
    {
        Ahead {
            lexer: self.lexer.again(),
            compact: self.compact,
        }
    }

    /// Takes the next piece, or answers `None` where none is left.
    #[inline(always)]
    pub(crate) fn next(&mut self) -> Option<JsonPiece<'a>>
        ensures next { MatchOption result ((self.old ≡ []) × (self.new ≡ []))
            (λ piece. self.old ≡ piece_text piece ∷ self.new) }
        ensures kind { IfSome result IsPiece }
    {
        let lexeme = self.lexer.next()?;
        let breaks = keeps_broken(self.compact, lexeme, &self.lexer);
        Some(JsonPiece::new(lexeme, breaks))
    }

    /// Whether nothing is left of the list that is open here but what closes it.
    #[inline]
    pub(crate) fn is_at_end(&self) -> bool
        ensures { result ≡ stops closes self.now }
    {
        list_ends(&self.lexer)
    }

    /// Whether a comma comes next.
    #[inline]
    pub(crate) fn next_is_comma(&self) -> bool
        ensures { result ≡ next_is (is_json_sign comma) self.now }
    {
        matches!(self.lexer.first_byte(), Some(b','))
    }
}
