//! What lexemes are to a layout.
ghost use Rattle.std.specs.Prelude.{◌≡◌, true};
ghost use Rattle.toml_lexemes.specs.Bytes as byte;
ghost use Rattle.toml_documents.specs.Kinds.{is_closing, is_opening, kind_in, last_after, sort_for};
ghost use Rattle.toml_documents.specs.Gaps.{is_nested};

use toml_lexemes::Lexeme;

/// What lexemes stand in.
#[derive(Clone, Copy)]
pub enum Kind {
    /// A statement, outside of all brackets.
    Statement,
    /// The brackets of a header.
    Header,
    /// An inline table.
    Table,
    /// An array.
    Array,
    /// An array of numbers alone.
    Numbers,
}

/// What a document ends with.
#[derive(Clone, Copy)]
pub enum Last {
    /// The bracket of a list that has just begun, or nothing.
    Start,
    /// A closing bracket.
    Close,
    Equals,
    Word,
    /// A word that ends with a dot.
    Dot,
    String,
    Comma,
    Comment,
}

/// Whether the lexeme opens a list.
pub fn opens(lexeme: Lexeme<'_>) -> bool
    ensures { result ≡ is_opening lexeme.entry }
{
    matches!(lexeme, Lexeme::OpenArray | Lexeme::OpenTable)
}

/// Whether the lexeme closes a list.
pub fn closes(lexeme: Lexeme<'_>) -> bool
    ensures { result ≡ is_closing lexeme.entry }
{
    matches!(lexeme, Lexeme::CloseArray | Lexeme::CloseTable)
}

/// Whether the last byte of a word is a dot.
fn ends_with_dot(word: &str) -> bool
    ensures { result ≡ byte.ends_with_dot word.now }
{
    word.as_bytes().last().copied().unwrap_or(b' ') == b'.'
}

/// What a document ends with after the value that this lexeme begins.
pub fn last_of(lexeme: Lexeme<'_>) -> Last
    ensures { result ≡ last_after lexeme.entry }
{
    match lexeme {
        Lexeme::Word(word) if ends_with_dot(word) => Last::Dot,
        Lexeme::Word(_) => Last::Word,
        Lexeme::String(_) => Last::String,
        Lexeme::Equals => Last::Equals,
        _ => Last::Close,
    }
}

/// What the bracket opens where it stands in this, first or not.
pub fn kind_of(around: Kind, is_first: bool, bracket: Lexeme<'_>) -> Kind
    ensures nested { is_nested result ≡ true }
    ensures kind { result ≡ kind_in around is_first (sort_for bracket.entry) }
{
    match (around, bracket) {
        (Kind::Statement, Lexeme::OpenArray) if is_first => Kind::Header,
        (Kind::Header, Lexeme::OpenArray) => Kind::Header,
        (_, Lexeme::OpenArray) => Kind::Array,
        _ => Kind::Table,
    }
}
