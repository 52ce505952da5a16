//! Whether a text is one value.
ghost use Rattle.std.specs.Prelude.{◌≡◌, ◌-◌, ◌<◌, ◌≤◌, ◌↔◌, Some, None, IsTrue, IsSome, IfOk};
ghost use Rattle.std.specs.Bool.{MatchBool};
ghost use Rattle.json.specs.Json.{skip_value};
ghost use Rattle.json_validity.specs.Document.{document, document_within, IsJsonWithin};
ghost use Rattle.json_validity.specs.Open.{after_list};

use crate::bracket::{Bracket, Next, next_in};
use crate::value::{Begun, begin};
use json::{Reader, Scratch};
use std::alloc::{AllocError, Global};

/// How deep arrays and objects may nest.
pub const MAX_DEPTH: usize = 100_000;

/// Passes what is left of a list that is open, with its bracket. `false` where it doesn't come, or what is in the list nests
/// deeper than it may. Its memory is a byte or two for each list that is open at once.
fn pass_list(
    alloc: Global,
    reader: &mut Reader<'_>,
    outermost: Bracket,
    most: usize,
) -> Result<bool, AllocError>
    requires { 0 < most }
    ensures { IfOk result (λ passed. MatchBool passed (after_list outermost (most - 1) reader.old ≡ Some reader.new)
        (after_list outermost (most - 1) reader.old ≡ None)) }
{
    let mut outer = Vec::new(alloc);
    let mut innermost = outermost;
    loop {
        match next_in(innermost, reader) {
            Next::Member => match begin(reader) {
                Begun::Leaf => (),
                Begun::List(bracket) => {
                    if outer.len() + 1 >= most {
                        return Ok(false);
                    }
                    outer.push(innermost)?;
                    innermost = bracket;
                }
                Begun::Nothing => return Ok(false),
            },
            Next::End => match outer.pop() {
                Some(bracket) => innermost = bracket,
                None => return Ok(true),
            },
            Next::Nothing => return Ok(false),
        }
    }
}

/// Passes one value. `false` where none comes, or it nests deeper than it may.
fn pass_value(alloc: Global, reader: &mut Reader<'_>, most: usize) -> Result<bool, AllocError>
    ensures { IfOk result (λ passed. MatchBool passed (skip_value most reader.old ≡ Some reader.new)
        (skip_value most reader.old ≡ None)) }
{
    match begin(reader) {
        Begun::Leaf => Ok(true),
        Begun::List(_) if most == 0 => Ok(false),
        Begun::List(bracket) => pass_list(alloc, reader, bracket, most),
        Begun::Nothing => Ok(false),
    }
}

/// Whether a text is one JSON value, read with so many levels.
fn is_value(alloc: Global, text: &str, most: usize) -> Result<bool, AllocError>
    ensures { IfOk result (λ json. IsTrue json ↔ IsSome (document_within most text.now)) }
{
    let mut scratch = Scratch::new(alloc);
    let mut reader = Reader::new(text, &mut scratch)?;
    Ok(pass_value(alloc, &mut reader, most)? && reader.next().is_none())
}

/// Whether a text is one JSON value. Arrays and objects may be `MAX_DEPTH` deep in one another.
///
/// `AllocError` where memory is refused.
pub fn is_json(alloc: Global, text: &str) -> Result<bool, AllocError>
    ensures { IfOk result (λ json. IsTrue json ↔ IsSome (document text.now)) }
{
    is_value(alloc, text, MAX_DEPTH)
}

/// Whether a text is one JSON value whose arrays and objects are at most so deep in one another.
///
/// `AllocError` where memory is refused.
pub fn is_json_within(alloc: Global, text: &str, most: usize) -> Result<bool, AllocError>
    requires { most ≤ MAX_DEPTH }
    ensures { IfOk result (λ json. IsTrue json ↔ IsJsonWithin most text.now) }
{
    is_value(alloc, text, most)
}
