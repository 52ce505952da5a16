//! What a lexeme is to what may come next.
ghost use Rattle.std.specs.Prelude.{◌≡◌, false};
ghost use Rattle.toml_grammar.specs.Grammar as spec;
ghost use Rattle.toml_grammar.specs.Sorts.{sort_of};
ghost use Rattle.toml_grammar.specs.Keys.{key_word};
ghost use Rattle.toml_grammar.specs.Strings.{is_key_string};
ghost use Rattle.toml_lexemes.specs.SpacedLexer.{spaced_of, IsNamedIf};

use crate::comment::is_comment;
use crate::date::{is_date, is_time};
use crate::expected::Expected;
use crate::gap::{is_clear, is_one_space};
use crate::key::key_word;
use crate::next::{Bracket, Next, Owner};
use crate::string::{is_key_string, is_string};
use crate::value::is_value;
use toml_lexemes::{Lexeme, Spaced};

/// What a lexeme does.
#[derive(Clone, Copy, Debug, PartialEq, Eq)]
pub enum LexemeTurn {
    /// It may stand there, and this may come after it.
    GoesOn(Next),
    /// It opens a bracket, in which this may come.
    Opens(Bracket, Next),
    /// It closes the innermost bracket.
    Closes,
    /// It may not stand there: this was expected.
    Stops(Expected),
}

/// What ends a key or goes on with it, after a part of it.
fn expected_after_part(owner: Owner) -> Expected
    ensures { result ≡ spec.expected_after_part owner }
{
    match owner {
        Owner::Value => Expected::DotOrEquals,
        Owner::Table => Expected::DotOrBracket,
        Owner::Tables => Expected::DotOrBrackets,
    }
}

/// What follows a value.
fn expected_after(innermost: Option<Bracket>) -> Expected
    ensures { result ≡ spec.expected_after innermost }
{
    match innermost {
        None => Expected::LineEnd,
        Some(Bracket::Array) => Expected::CommaOrBracket,
        Some(Bracket::Table) => Expected::CommaOrBrace,
    }
}

/// What is expected, within the innermost bracket.
fn expected(next: Next, innermost: Option<Bracket>) -> Expected
    ensures { result ≡ spec.expected next innermost }
{
    match next {
        Next::Line => Expected::Line,
        Next::Header | Next::Key(_, true) => Expected::Key,
        Next::Key(owner, false) => expected_after_part(owner),
        Next::Closing => Expected::Bracket,
        Next::Value => Expected::Value,
        Next::Member => Expected::ValueOrBracket,
        Next::Entry => Expected::KeyOrBrace,
        Next::After | Next::AfterDate => expected_after(innermost),
    }
}

/// Goes on where this is so.
fn where_so(so: bool, next: Next, expected: Expected) -> LexemeTurn
    ensures { result ≡ spec.where_so so next expected }
{
    if so {
        LexemeTurn::GoesOn(next)
    } else {
        LexemeTurn::Stops(expected)
    }
}

/// What `[` does.
fn open_array(next: Next, innermost: Option<Bracket>, gap: &str) -> LexemeTurn
    ensures { result ≡ spec.open_array_turn next innermost gap.now }
{
    match next {
        Next::Line => LexemeTurn::GoesOn(Next::Header),
        Next::Header => where_so(
            gap.is_empty(),
            Next::Key(Owner::Tables, true),
            Expected::Key,
        ),
        Next::Value | Next::Member => LexemeTurn::Opens(Bracket::Array, Next::Member),
        _ => LexemeTurn::Stops(expected(next, innermost)),
    }
}

/// What `]` does after a value.
fn array_end(next: Next, innermost: Option<Bracket>) -> LexemeTurn
    ensures { result ≡ spec.array_end next innermost }
{
    match innermost {
        Some(Bracket::Array) => LexemeTurn::Closes,
        _ => LexemeTurn::Stops(expected(next, innermost)),
    }
}

/// What `]` does.
fn close_array(next: Next, innermost: Option<Bracket>, gap: &str) -> LexemeTurn
    ensures { result ≡ spec.close_array_turn next innermost gap.now }
{
    match next {
        Next::Key(Owner::Table, false) => LexemeTurn::GoesOn(Next::After),
        Next::Key(Owner::Tables, false) => LexemeTurn::GoesOn(Next::Closing),
        Next::Closing => where_so(gap.is_empty(), Next::After, Expected::Bracket),
        Next::Member => LexemeTurn::Closes,
        Next::After | Next::AfterDate => array_end(next, innermost),
        _ => LexemeTurn::Stops(expected(next, innermost)),
    }
}

/// What `{` does.
fn open_table(next: Next, innermost: Option<Bracket>) -> LexemeTurn
    ensures { result ≡ spec.open_table_turn next innermost }
{
    match next {
        Next::Value | Next::Member => LexemeTurn::Opens(Bracket::Table, Next::Entry),
        _ => LexemeTurn::Stops(expected(next, innermost)),
    }
}

/// What `}` does.
fn close_table(next: Next, innermost: Option<Bracket>) -> LexemeTurn
    ensures { result ≡ spec.close_table_turn next innermost }
{
    match (next, innermost) {
        (Next::Entry, _) | (Next::After | Next::AfterDate, Some(Bracket::Table)) =>
            LexemeTurn::Closes,
        _ => LexemeTurn::Stops(expected(next, innermost)),
    }
}

/// What a comma does.
fn comma(next: Next, innermost: Option<Bracket>) -> LexemeTurn
    ensures { result ≡ spec.comma_turn next innermost }
{
    match (next, innermost) {
        (Next::After | Next::AfterDate, Some(Bracket::Array)) => LexemeTurn::GoesOn(Next::Member),
        (Next::After | Next::AfterDate, Some(Bracket::Table)) => LexemeTurn::GoesOn(Next::Key(
            Owner::Value,
            true,
        )),
        _ => LexemeTurn::Stops(expected(next, innermost)),
    }
}

/// What an equals sign does.
fn equals(next: Next, innermost: Option<Bracket>) -> LexemeTurn
    ensures { result ≡ spec.equals_turn next innermost }
{
    match next {
        Next::Key(Owner::Value, false) => LexemeTurn::GoesOn(Next::Value),
        _ => LexemeTurn::Stops(expected(next, innermost)),
    }
}

/// What a line end does.
fn line_end(next: Next, innermost: Option<Bracket>) -> LexemeTurn
    ensures { result ≡ spec.line_end_turn next innermost }
{
    match (next, innermost) {
        (Next::Line, _) | (Next::After | Next::AfterDate, None) => LexemeTurn::GoesOn(Next::Line),
        (Next::Member, _) => LexemeTurn::GoesOn(Next::Member),
        (Next::After | Next::AfterDate, Some(Bracket::Array)) => LexemeTurn::GoesOn(Next::After),
        _ => LexemeTurn::Stops(expected(next, innermost)),
    }
}

/// What a comment does, which TOML allows or not.
fn comment(next: Next, innermost: Option<Bracket>, allowed: bool) -> LexemeTurn
    ensures { result ≡ spec.comment_turn next innermost allowed }
{
    match (next, innermost) {
        (Next::Line | Next::Member, _) => where_so(allowed, next, Expected::Comment),
        (Next::After | Next::AfterDate, None | Some(Bracket::Array)) => where_so(
            allowed,
            Next::After,
            Expected::Comment,
        ),
        _ => LexemeTurn::Stops(expected(next, innermost)),
    }
}

/// What a string does as a part of a key.
fn key_string(owner: Owner, text: &str) -> LexemeTurn
    ensures { result ≡ spec.where_so (is_key_string text.now) (Next.Key owner false) Expected.KeyString }
{
    where_so(
        is_key_string(text),
        Next::Key(owner, false),
        Expected::KeyString,
    )
}

/// What a string does.
fn string(next: Next, innermost: Option<Bracket>, text: &str) -> LexemeTurn
    ensures { result ≡ spec.string_turn next innermost text.now }
{
    match next {
        Next::Line | Next::Entry => key_string(Owner::Value, text),
        Next::Header => key_string(Owner::Table, text),
        Next::Key(owner, true) => key_string(owner, text),
        Next::Value | Next::Member => where_so(is_string(text), Next::After, Expected::String),
        _ => LexemeTurn::Stops(expected(next, innermost)),
    }
}

/// What a word does in a key.
fn key(owner: Owner, due: bool, text: &str, expected: Expected) -> LexemeTurn
    ensures { result ≡ spec.key_turn owner (key_word due text.now) expected }
{
    match key_word(text, due) {
        Some(due) => LexemeTurn::GoesOn(Next::Key(owner, due)),
        None => LexemeTurn::Stops(expected),
    }
}

/// What a word does in place of a value.
fn value(text: &str, expected: Expected) -> LexemeTurn
    ensures { result ≡ spec.value_turn text.now expected }
{
    let next = if is_date(text) {
        Next::AfterDate
    } else {
        Next::After
    };
    where_so(is_value(text), next, expected)
}

/// What a word does.
fn word(next: Next, innermost: Option<Bracket>, gap: &str, text: &str) -> LexemeTurn
    ensures { result ≡ spec.word_turn next innermost gap.now text.now }
{
    let expected = expected(next, innermost);
    match next {
        Next::Line | Next::Entry => key(Owner::Value, true, text, expected),
        Next::Header => key(Owner::Table, true, text, expected),
        Next::Key(owner, due) => key(owner, due, text, expected),
        Next::Value | Next::Member => value(text, expected),
        Next::AfterDate => where_so(is_one_space(gap) && is_time(text), Next::After, expected),
        Next::Closing | Next::After => LexemeTurn::Stops(expected),
    }
}

/// What the end of the text does.
fn end(next: Next, innermost: Option<Bracket>) -> LexemeTurn
    ensures { result ≡ spec.end_turn next innermost }
{
    match (next, innermost) {
        (Next::Line, _) | (Next::After | Next::AfterDate, None) => LexemeTurn::GoesOn(next),
        _ => LexemeTurn::Stops(expected(next, innermost)),
    }
}

/// What a lexeme does with this gap before it, where the gap holds no stray CR.
fn lexeme_turn(next: Next, innermost: Option<Bracket>, found: Spaced<'_>) -> LexemeTurn
    requires { IsNamedIf found.lexeme }
    ensures { let p = spaced_of found.entry in result ≡ spec.sort_turn (sort_of p.lexeme) next innermost p.gap p.lexeme }
{
    match found.lexeme {
        None => end(next, innermost),
        Some(Lexeme::OpenArray) => open_array(next, innermost, found.gap),
        Some(Lexeme::CloseArray) => close_array(next, innermost, found.gap),
        Some(Lexeme::OpenTable) => open_table(next, innermost),
        Some(Lexeme::CloseTable) => close_table(next, innermost),
        Some(Lexeme::Comma) => comma(next, innermost),
        Some(Lexeme::Equals) => equals(next, innermost),
        Some(Lexeme::LineEnd) => line_end(next, innermost),
        Some(Lexeme::Comment(text)) => comment(next, innermost, is_comment(text)),
        Some(Lexeme::String(text)) => string(next, innermost, text),
        Some(Lexeme::Word(text)) => word(next, innermost, found.gap, text),
    }
}

/// What a lexeme does with this gap before it.
pub(crate) fn turn_at(next: Next, innermost: Option<Bracket>, found: Spaced<'_>) -> LexemeTurn
    requires { IsNamedIf found.lexeme }
    ensures { result ≡ spec.turn_of_lexeme next innermost (spaced_of found.entry) }
{
    let before_line_end = matches!(found.lexeme, Some(Lexeme::LineEnd));
    if is_clear(found.gap, before_line_end) {
        lexeme_turn(next, innermost, found)
    } else {
        LexemeTurn::Stops(Expected::LineFeed)
    }
}
