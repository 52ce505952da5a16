//! What is between two lexemes of a layout.
ghost use Rattle.std.specs.Prelude.{◌≡◌, ◌==◌, true, false};
ghost use Rattle.prettyless_model.specs.Shows.{LineEnd, Spacing, more};
ghost use Rattle.toml_lexemes.specs.Bytes.{comma, close_bracket, dot, hash, head};
ghost use Rattle.toml_lexemes.specs.View.{toml_text_of, HasTomlKind};
ghost use Rattle.toml_documents.specs.Gaps as spec;
ghost use Rattle.toml_documents.specs.Gaps.{is_nested, is_last_comment, least_needed, least_of, stays, Suits};
ghost use Rattle.toml_documents.specs.Kinds.{sort_for};

use crate::kind::{Kind, Last};
use toml_lexemes::Lexeme;

/// What is between two lexemes.
#[derive(Clone, Copy)]
pub enum Gap {
    Nothing,
    Space,
    /// A space that counts no columns.
    Beside,
    /// A line end, or nothing where lines are flat.
    Edge,
    /// A line end, or a space where lines are flat.
    Line,
    /// A line end only where the line has no room for what comes next, and else a space.
    Fill,
    /// The same with a blank line where lines are broken.
    BlankLine,
    /// A line end.
    Break,
    /// A line end and a blank line.
    BlankBreak,
}

/// A line end, with a blank line or without.
fn line_break(blank: bool) -> Gap
    ensures least { least_of result ≡ LineEnd }
    ensures gap { result ≡ spec.line_break blank }
{
    if blank { Gap::BlankBreak } else { Gap::Break }
}

/// What is after the comma of a list.
fn after_comma(kind: Kind, blank: bool) -> Gap
    ensures stays { is_nested kind ≡ false → stays result ≡ true }
    ensures gap { result ≡ spec.gap_after_comma kind blank }
{
    match kind {
        Kind::Array | Kind::Numbers if blank => Gap::BlankLine,
        Kind::Array => Gap::Line,
        Kind::Numbers => Gap::Fill,
        _ => Gap::Space,
    }
}

/// What is inside the brackets of a list.
fn edge(kind: Kind) -> Gap
    ensures stays { is_nested kind ≡ false → stays result ≡ true }
    ensures gap { result ≡ spec.edge_gap kind }
{
    match kind {
        Kind::Array | Kind::Numbers => Gap::Edge,
        Kind::Table => Gap::Space,
        Kind::Header | Kind::Statement => Gap::Nothing,
    }
}

/// Whether the first byte of a word is a dot.
fn begins_with_dot(word: &str) -> bool
    ensures { result ≡ (head word.now == dot) }
{
    word.as_bytes().first().copied().unwrap_or(b' ') == b'.'
}

/// What is between two lexemes of one key or value. Beside a dot nothing is between words: in TOML they are those of a key.
fn between(last: Last, next: Lexeme<'_>) -> Gap
    requires named { HasTomlKind next }
    requires no_comment { is_last_comment last ≡ false }
    ensures enough { more (least_needed last (head (toml_text_of next.entry))) (least_of result) ≡ least_of result }
    ensures stays { stays result ≡ true }
    ensures gap { result ≡ spec.gap_on_line last (sort_for next.entry) (head (toml_text_of next.entry) == dot) }
{
    match (last, next) {
        (_, Lexeme::Equals) | (Last::Equals, _) => Gap::Space,
        (Last::Word, Lexeme::Word(word)) if begins_with_dot(word) => Gap::Nothing,
        (Last::Word, Lexeme::Word(_)) | (Last::String, Lexeme::String(_)) => Gap::Space,
        _ => Gap::Nothing,
    }
}

/// What is before a lexeme that begins a value or goes on with one.
pub fn before(kind: Kind, last: Last, next: Lexeme<'_>, blank: bool) -> Gap
    requires named { HasTomlKind next }
    requires goes_on { is_nested kind ≡ false → is_last_comment last ≡ false }
    ensures suits { Suits (is_nested kind) last (head (toml_text_of next.entry)) result }
    ensures gap { result
        ≡ spec.gap_before_part kind last (sort_for next.entry) (head (toml_text_of next.entry) == dot) blank }
{
    match last {
        Last::Start => edge(kind),
        Last::Comma => after_comma(kind, blank),
        Last::Comment => line_break(blank),
        _ => between(last, next),
    }
}

/// What is before a comma.
pub fn before_comma(last: Last) -> Gap
    ensures enough { more (least_needed last comma) (least_of result) ≡ least_of result }
    ensures stays { is_last_comment last ≡ false → stays result ≡ true }
    ensures gap { result ≡ spec.gap_before_comma last }
{
    match last {
        Last::Comment => Gap::Break,
        _ => Gap::Nothing,
    }
}

/// What is before a comment, which other comments stand before or not.
pub fn before_comment(kind: Kind, last: Last, others: bool, broken: bool, blank: bool) -> Gap
    requires { is_nested kind ≡ false → is_last_comment last ≡ false }
    ensures enough { more (least_needed last hash) (least_of result) ≡ least_of result }
    ensures others { others ≡ true → least_of result ≡ LineEnd }
    ensures stays { is_nested kind ≡ false → others ≡ false → stays result ≡ true }
    ensures spacing { more Spacing (least_of result) ≡ least_of result }
    ensures gap { result ≡ spec.gap_before_comment kind last others broken blank }
{
    match (kind, last) {
        _ if others => line_break(blank),
        (_, Last::Comment) => line_break(blank),
        (Kind::Statement, _) => Gap::Beside,
        (_, Last::Start) if broken => Gap::Break,
        _ if broken => line_break(blank),
        _ => Gap::Beside,
    }
}

/// What is before the bracket that closes a list.
pub fn before_close(kind: Kind, last: Last) -> Gap
    requires { is_nested kind ≡ true }
    ensures suits { Suits (is_nested kind) last close_bracket result }
    ensures gap { result ≡ spec.gap_before_close kind last }
{
    match last {
        Last::Start => Gap::Nothing,
        Last::Comment => Gap::Break,
        _ => edge(kind),
    }
}
