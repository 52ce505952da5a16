ghost use Rattle.std.specs.Prelude.{◌≡◌, ◌+◌, ◌-◌, ◌<◌, ◌≤◌, ◌⊎◌, ◌∷◌, false, length, take, drop, slice_index};
ghost use Rattle.std.specs.Str.{IsCharBoundary};
ghost use Rattle.toml_lexemes.specs.Bytes as ascii;
ghost use Rattle.text_lexemes.specs.FirstLexemes.{IsFirstLexeme};
ghost use Rattle.text_lexemes.specs.Languages.{begins, between, within};
ghost use Rattle.toml_lexemes.specs.Lexemes.{begins_line_feed, cut_toml, first, toml};
ghost use Rattle.toml_lexemes.specs.Modes.{inner_of, is_after_quote};
ghost use Rattle.toml_lexemes.specs.SpacedLexemes.{blanks};
ghost use Rattle.toml_lexemes.specs.View.{toml_text_of, HasTomlKind};

use crate::lexeme::Lexeme;
use crate::mode::{ByteTurn, LexerMode, StringKind, is_blank, turn_at};

/// The first place from `from` on where no blank stands, or the end.
#[inline]
pub(crate) fn blanks_end(bytes: &[u8], from: usize) -> usize
    requires { from ≤ length bytes.now }
    ensures bounds { (from ≤ result) × (result ≤ length bytes.now) }
    ensures cut { cut_toml between (drop result bytes.now) ≡ cut_toml between (drop from bytes.now) }
    ensures blanks { blanks (drop from bytes.now) ≡ take (result - from) (drop from bytes.now) }
    ensures after { from < result → slice_index bytes.now (result - 1) < 128 }
    ensures stops { result < length bytes.now → ascii.is_blank (slice_index bytes.now result) ≡ false }
{
    for place in from..bytes.len() {
        if !is_blank(bytes[place]) {
            return place;
        }
    }
    bytes.len()
}

/// Whether a line feed stands at the place.
#[inline]
fn is_line_feed_at(bytes: &[u8], place: usize) -> bool
    ensures { result ≡ begins_line_feed (drop place bytes.now) }
{
    place < bytes.len() && bytes[place] == b'\n'
}

/// The place where the lexeme ends that goes on at `from` in this mode.
#[inline]
fn lexeme_end(bytes: &[u8], from: usize, begun: LexerMode) -> usize
    requires within { from ≤ length bytes.now }
    requires begun { is_after_quote (inner_of begun) ≡ false }
    ensures bounds { (from ≤ result) × (result ≤ length bytes.now) }
    ensures cut { cut_toml (within (inner_of begun)) (drop from bytes.now)
        ≡ take (result - from) (drop from bytes.now) ∷ cut_toml between (drop result bytes.now) }
    ensures ended { result < length bytes.now
        → (slice_index bytes.now result < 128)
        ⊎ (let before = result - 1 in (from < result) × (slice_index bytes.now before < 128)) }
{
    let mut mode = begun;
    for place in from..bytes.len() {
        match turn_at(mode, bytes[place], is_line_feed_at(bytes, place + 1)) {
            ByteTurn::GoesOn(next) => mode = next,
            ByteTurn::Ends => return place + 1,
            ByteTurn::Stops => return place,
        }
    }
    bytes.len()
}

/// The text from a place up to the end of the lexeme whose first byte stands there and leads to this mode.
#[inline]
fn slice_at<'a>(text: &'a str, place: usize, begun: LexerMode) -> &'a str
    requires within { place < length text.now }
    requires boundary { IsCharBoundary text.now place }
    requires begun { is_after_quote (inner_of begun) ≡ false }
    requires blank { ascii.is_blank (slice_index text.now place) ≡ false }
    requires begins { first (slice_index text.now place) ≡ begins (inner_of begun) }
    ensures first { IsFirstLexeme toml text.now place result.now }
    ensures head { ascii.head result.now ≡ slice_index text.now place }
{
    &text[place..lexeme_end(text.as_bytes(), place + 1, begun)]
}

/// The lexeme that begins at a place.
#[inline]
pub(crate) fn lexeme_at<'a>(text: &'a str, place: usize) -> Lexeme<'a>
    requires within { place < length text.now }
    requires boundary { IsCharBoundary text.now place }
    requires begins { ascii.is_blank (slice_index text.now place) ≡ false }
    ensures first { IsFirstLexeme toml text.now place (toml_text_of result) }
    ensures named { HasTomlKind result }
{
    match text.as_bytes()[place] {
        b'[' => Lexeme::OpenArray,
        b']' => Lexeme::CloseArray,
        b'{' => Lexeme::OpenTable,
        b'}' => Lexeme::CloseTable,
        b',' => Lexeme::Comma,
        b'=' => Lexeme::Equals,
        b'\n' => Lexeme::LineEnd,
        b'#' => Lexeme::Comment(slice_at(text, place, LexerMode::InComment)),
        b'"' => Lexeme::String(slice_at(text, place, LexerMode::Opened(StringKind::Basic))),
        b'\'' => Lexeme::String(slice_at(text, place, LexerMode::Opened(StringKind::Literal))),
        _ => Lexeme::Word(slice_at(text, place, LexerMode::InWord)),
    }
}
