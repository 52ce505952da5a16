//! What a value begins with.
ghost use Rattle.std.specs.Prelude.{◌≢◌, ◌<◌, length};
ghost use Rattle.json_validity.specs.Open.{BeginsWith};

use crate::bracket::Bracket;
use json::{Reader, Token};

/// The first token of a value.
#[derive(Clone, Copy, Drop)]
pub(crate) enum Begun {
    /// The whole value: no list.
    Leaf,
    /// What opens a list.
    List(Bracket),
    /// No token that begins a value, or none.
    Nothing,
}

/// Passes the first token of a value.
#[inline(always)]
pub(crate) fn begin(reader: &mut Reader<'_>) -> Begun
    ensures begins { BeginsWith reader.old result reader.new }
    ensures passed { result ≢ Begun.Nothing → length reader.new < length reader.old }
{
    match reader.next() {
        Some(Token::String(_) | Token::Number(_) | Token::Bool(_) | Token::Null) => Begun::Leaf,
        Some(Token::BeginArray) => Begun::List(Bracket::Array),
        Some(Token::BeginObject) => Begun::List(Bracket::Object),
        _ => Begun::Nothing,
    }
}
