//! Pieces of a text: its lexemes, and of a bracket that opens a list whether a line end after it keeps that list broken.
ghost use Rattle.std.specs.Prelude.{◌≡◌, ◌++◌, if◌then◌else◌};
ghost use Rattle.json_lexemes.specs.View.{text_of, IsNamed};
ghost use Rattle.json_formatter.specs.Documents.{lexeme_of, opens};
ghost use Rattle.json_formatter.specs.PieceTexts.{piece_text, IsPiece};
ghost use Rattle.json_formatter.specs.Values.{line_end_if};

use json_lexemes::Lexeme;

/// A lexeme of a text. Where it opens a list it says whether that is kept broken.
#[derive(Clone, Copy)]
pub(crate) enum JsonPiece<'a> {
    OpenObject(bool),
    CloseObject,
    OpenArray(bool),
    CloseArray,
    Comma,
    Colon,
    String(&'a str),
    Word(&'a str),
}

impl<'a> JsonPiece<'a> {
    /// This lexeme, and where it opens a list whether that is kept broken.
    #[inline(always)]
    pub(crate) fn new(lexeme: Lexeme<'a>, breaks: bool) -> JsonPiece<'a>
        requires { IsNamed lexeme }
        ensures text { piece_text result
            ≡ (if opens (text_of lexeme.entry) then text_of lexeme.entry ++ line_end_if breaks else text_of lexeme.entry) }
        ensures kind { IsPiece result }
    {
        match lexeme {
            Lexeme::OpenObject => JsonPiece::OpenObject(breaks),
            Lexeme::CloseObject => JsonPiece::CloseObject,
            Lexeme::OpenArray => JsonPiece::OpenArray(breaks),
            Lexeme::CloseArray => JsonPiece::CloseArray,
            Lexeme::Comma => JsonPiece::Comma,
            Lexeme::Colon => JsonPiece::Colon,
            Lexeme::String(text) => JsonPiece::String(text),
            Lexeme::Word(text) => JsonPiece::Word(text),
        }
    }

    /// The lexeme.
    #[inline(always)]
    pub(crate) fn lexeme(self) -> Lexeme<'a>
        requires { IsPiece self }
        ensures text { text_of result ≡ lexeme_of (piece_text self.entry) }
        ensures named { IsNamed result }
    {
        match self {
            JsonPiece::OpenObject(_) => Lexeme::OpenObject,
            JsonPiece::CloseObject => Lexeme::CloseObject,
            JsonPiece::OpenArray(_) => Lexeme::OpenArray,
            JsonPiece::CloseArray => Lexeme::CloseArray,
            JsonPiece::Comma => Lexeme::Comma,
            JsonPiece::Colon => Lexeme::Colon,
            JsonPiece::String(text) => Lexeme::String(text),
            JsonPiece::Word(text) => Lexeme::Word(text),
        }
    }
}
