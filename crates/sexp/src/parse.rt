ghost use Rattle.std.specs.Prelude.{◌≡◌, ◌≤◌, ◌↔◌, IfOk, IfErr, IfSome, IfNone, IsTrue, ℕ, ◌<◌, List, ◌∷◌, length, slice_index, drop};
ghost use Rattle.std.specs.Char.{is_ascii_digit};
ghost use Rattle.sexp.specs.Value.{SexpValue, values_of};
ghost use Rattle.sexp.specs.View.{value_of, values_in};
ghost use Rattle.sexp.specs.Grammar.{ReadsValue};
ghost use Rattle.sexp.specs.Fronts.{EndsNumber, IsEnd, IsNumberFront, HasNoNumberFront, IsFront, HasNoFront, IsListFront};
ghost use Rattle.sexp.specs.Fronts.{HasNoListFront, RefusesInput};

use crate::decimals::number;
use crate::error::RunError;
use crate::expression::SExp;
use std::alloc::Global;

/// The most bytes that an input has.
pub const MOST_BYTES: usize = 1_048_576;

/// The most parentheses that are open at once.
const MOST_OPEN: usize = 200;

/// How many digits the bytes begin with.
fn digits_len(bytes: &[u8]) -> usize
    ensures within { result ≤ length bytes.now }
    ensures digits { (k : ℕ) → k < result → IsTrue (is_ascii_digit (slice_index bytes.now k)) }
    ensures end { EndsNumber (drop result bytes.now) }
{
    bytes
        .iter()
        .position(|byte| !byte.is_ascii_digit())
        .unwrap_or(bytes.len())
}

/// The number that the bytes begin with, and the bytes after its digits.
fn atom(bytes: &[u8]) -> Option<(u32, &[u8])>
    ensures some { IfSome result (λ x. IsNumberFront bytes.now x.0 x.1.now) }
    ensures none { IfNone result (HasNoNumberFront bytes.now) }
{
    let (digits, rest) = bytes.split_at(digits_len(bytes));
    let value = u32::try_from(number(digits)?).ok()?;
    Some((value, rest))
}

/// The bytes after this one, where they begin with it.
fn after(bytes: &[u8], byte: u8) -> Option<&[u8]>
    ensures some { IfSome result (λ rest. bytes.now ≡ byte ∷ rest.now) }
    ensures none { IfNone result ((rest : List ℕ) → bytes.now ≡ byte ∷ rest → ⊥) }
{
    match bytes {
        [first, rest @ ..] if *first == byte => Some(rest),
        _ => None,
    }
}

/// The value that the bytes begin with, and the bytes after it. At most this many parentheses are open at once.
#[cycle(value)]
fn value(alloc: Global, bytes: &[u8], levels: usize) -> Result<(SExp, &[u8]), RunError>
    ensures ok { IfOk result (λ x. IsFront levels bytes.now (value_of x.0) x.1.now) }
    ensures err { IfErr result (λ e. RefusesInput e (HasNoFront levels bytes.now)) }
{
    if let Some(inner) = after(bytes, b'(') {
        if levels == 0 {
            return Err(RunError::NotAnSexp);
        }
        let (items, rest) = list(alloc, inner, levels - 1)?;
        return Ok((SExp::List(items), rest));
    }
    match atom(bytes) {
        Some((number, rest)) => Ok((SExp::Atom(number), rest)),
        None => Err(RunError::NotAnSexp),
    }
}

/// The values of a list after its opening parenthesis, and the bytes after its closing one.
#[cycle(value)]
fn list(alloc: Global, bytes: &[u8], levels: usize) -> Result<(Vec<SExp>, &[u8]), RunError>
    ensures ok { IfOk result (λ x. IsListFront levels bytes.now (values_of (values_in x.0.items)) x.1.now) }
    ensures err { IfErr result (λ e. RefusesInput e (HasNoListFront levels bytes.now)) }
{
    let mut items = Vec::new(alloc);
    if let Some(rest) = after(bytes, b')') {
        return Ok((items, rest));
    }
    let mut rest = bytes;
    loop {
        let (item, next) = value(alloc, rest, levels)?;
        items.push(item)?;
        if let Some(end) = after(next, b')') {
            return Ok((items, end));
        }
        match after(next, b' ') {
            Some(more) => rest = more,
            None => return Err(RunError::NotAnSexp),
        }
    }
}

/// Nothing is left, or one LF.
fn is_end(rest: &[u8]) -> bool
    ensures { IsTrue result ↔ IsEnd rest.now }
{
    matches!(rest, [] | [b'\n'])
}

/// The S-expression that the input is, whole: its text, and at most one LF after it.
///
/// `NotAnSexp` where it is the text of none, and else `Memory` where memory is refused.
pub fn parse(alloc: Global, input: &[u8]) -> Result<SExp, RunError>
    // The input is read as the answer, and as no other.
    ensures ok { IfOk result (λ s. ReadsValue input.now (value_of s)) }
    ensures only { IfOk result (λ s. (v : SexpValue) → ReadsValue input.now v → v ≡ value_of s) }
    // It is refused only where it is read as nothing.
    ensures err { IfErr result (λ e. RefusesInput e ((v : SexpValue) → ReadsValue input.now v → ⊥)) }
{
    if input.len() > MOST_BYTES {
        return Err(RunError::NotAnSexp);
    }
    let (read, rest) = value(alloc, input, MOST_OPEN)?;
    if is_end(rest) {
        Ok(read)
    } else {
        Err(RunError::NotAnSexp)
    }
}
