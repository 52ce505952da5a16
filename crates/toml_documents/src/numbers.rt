//! Which arrays hold numbers alone.
ghost use Rattle.std.specs.Prelude.{◌≡◌, slice_index, true};
ghost use Rattle.toml_documents.specs.Gaps.{is_nested};
ghost use Rattle.toml_documents.specs.Numbers as spec;

use crate::ahead::Ahead;
use crate::kind::Kind;
use toml_lexemes::Lexeme;

/// The byte at a place of a text, or 0 past the end.
fn byte_at(text: &str, place: usize) -> u8
    ensures { result ≡ slice_index text.now place }
{
    text.as_bytes().get(place).copied().unwrap_or(0)
}

/// Whether a number may begin with the byte: a digit, a sign, or the first letter of `inf` and `nan`.
fn begins_number(byte: u8) -> bool
    ensures { result ≡ spec.begins_number byte }
{
    byte.is_ascii_digit() || matches!(byte, b'+' | b'-' | b'i' | b'n')
}

/// Whether a word goes on as a date or a time does.
fn is_dated(word: &str) -> bool
    ensures { result ≡ spec.is_dated word.now }
{
    byte_at(word, 2) == b':' || (byte_at(word, 3).is_ascii_digit() && byte_at(word, 4) == b'-')
}

/// Whether the word is a number, where it is a value.
fn is_number(word: &str) -> bool
    ensures { result ≡ spec.is_number_word word.now }
{
    begins_number(byte_at(word, 0)) && !is_dated(word)
}

/// Whether numbers alone stand in the array that is open here.
fn only_numbers(mut lexemes: Ahead<'_>) -> bool
    ensures { result ≡ spec.only_number_words lexemes.entry }
{
    while let Some(lexeme) = lexemes.next() {
        match lexeme {
            Lexeme::CloseArray => return true,
            Lexeme::Comma | Lexeme::LineEnd => {}
            Lexeme::Word(word) if is_number(word) => {}
            _ => return false,
        }
    }
    false
}

/// What a bracket opens that opens this in front of these lexemes.
pub fn kind_before(kind: Kind, lexemes: &Ahead<'_>) -> Kind
    ensures nested { is_nested kind ≡ true → is_nested result ≡ true }
    ensures kind { result ≡ spec.kind_before kind lexemes.now }
{
    match kind {
        Kind::Array if only_numbers(lexemes.again()) => Kind::Numbers,
        _ => kind,
    }
}
