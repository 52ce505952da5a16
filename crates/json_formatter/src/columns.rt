ghost use Rattle.std.specs.Prelude.{◌≡◌, ◌+◌, ◌≤◌, true, length, take, drop, MatchOption};
ghost use Rattle.prettyless_model.specs.Metrics.{is_ascii, text_width};
ghost use Rattle.json_formatter.specs.Documents.{greatest_width, lexeme_of};
ghost use Rattle.json_formatter.specs.Flat.{piece_columns};
ghost use Rattle.json_formatter.specs.PieceTexts.{piece_text, IsPiece};

use crate::ahead::Ahead;
use crate::piece::JsonPiece;
use prettyless_text::measure::{is_ascii, text_width};
use std::simd::prelude::*;

/// Whether four bytes from a place on are below 128. They are tested side by side.
#[inline(always)]
fn four_are_ascii(bytes: &[u8], from: usize) -> bool
    requires { from + 4 ≤ length bytes.now }
    ensures { result ≡ is_ascii (take 4 (drop from bytes.now)) }
{
    u8x4::from_slice(&bytes[from..])
        .simd_ge(u8x4::splat(128))
        .to_bitmask()
        == 0
}

/// How many bytes come before the first step of four in which one is not below 128, or fewer are left.
#[inline(always)]
fn ascii_front(bytes: &[u8]) -> usize
    ensures bounds { result ≤ length bytes.now }
    ensures ascii { is_ascii (take result bytes.now) ≡ true }
{
    let mut front = 0;
    while bytes.len() - front >= 4 && four_are_ascii(bytes, front) {
        front += 4;
    }
    front
}

/// Whether all bytes are below 128. It is made for a text of few bytes.
#[inline(always)]
fn is_short_ascii(bytes: &[u8]) -> bool
    ensures { result ≡ is_ascii bytes.now }
{
    for place in ascii_front(bytes)..bytes.len() {
        if bytes[place] >= 128 {
            return false;
        }
    }
    true
}

/// The columns that a text takes.
#[inline(never)]
fn long_columns(text: &str) -> usize
    ensures { result ≡ text_width text.now }
{
    text_width(text, is_ascii(text))
}

/// The same. Most texts have few bytes, all below 128.
#[inline(always)]
fn columns(text: &str) -> usize
    ensures { result ≡ text_width text.now }
{
    if text.len() <= 16 && is_short_ascii(text.as_bytes()) {
        text.len()
    } else {
        long_columns(text)
    }
}

/// The columns of a piece without a line end.
#[inline(always)]
pub(crate) fn text_columns(piece: JsonPiece<'_>) -> usize
    requires { IsPiece piece }
    ensures { result ≡ text_width (lexeme_of (piece_text piece.entry)) }
{
    match piece {
        JsonPiece::String(text) | JsonPiece::Word(text) => columns(text),
        _ => 1,
    }
}

/// The columns that a piece takes on a flat line, before these, with the space after a comma or a colon. With the brace that opens
/// an object both blanks inside its braces are counted, if it has any.
///
/// `None` where it is a bracket whose list is kept broken: that is wider than any line.
#[inline]
pub(crate) fn piece_columns(compact: bool, piece: JsonPiece<'_>, later: &Ahead<'_>) -> Option<usize>
    requires { IsPiece piece }
    ensures { MatchOption result (greatest_width ≤ piece_columns compact (piece_text piece.entry) later.now)
        (λ columns. columns ≡ piece_columns compact (piece_text piece.entry) later.now) }
{
    match piece {
        JsonPiece::OpenObject(true) | JsonPiece::OpenArray(true) => None,
        JsonPiece::OpenObject(false) if !compact && !later.is_at_end() => Some(3),
        JsonPiece::Comma | JsonPiece::Colon => Some(2),
        JsonPiece::String(text) | JsonPiece::Word(text) => Some(columns(text)),
        _ => Some(1),
    }
}
