//! Where a text stops being TOML, and what it was to have there.
ghost use Rattle.std.specs.Prelude.{◌≡◌, ◌≤◌, true, false, length, IfOk, IfSome, MatchOption};
ghost use Rattle.toml_grammar.specs.Faults.{IsFault};
ghost use Rattle.toml_grammar.specs.Grammar.{is_toml};

use crate::expected::Expected;
use crate::reading::{start, step};
use std::alloc::{AllocError, Global};
use toml_lexemes::{Lexeme, SpacedLexer};

/// Why a text is not TOML.
#[derive(Clone, Copy, Debug, PartialEq, Eq)]
pub struct Fault<'t> {
    /// The place from which on it is none: so many bytes are before it.
    pub offset: usize,
    /// What was expected there.
    pub expected: Expected,
    /// The lexeme that stands there. `None` at the end.
    pub found: Option<Lexeme<'t>>,
}

/// The first fault of a text: the first lexeme that may not stand where it does, or the end where it may not come yet. `None`
/// where the text is TOML.
///
/// `AllocError` where memory is refused.
pub fn fault_of<'t>(alloc: Global, text: &'t str) -> Result<Option<Fault<'t>>, AllocError>
    ensures toml { IfOk result (λ found. MatchOption found (is_toml text.now ≡ true) (λ fault. is_toml text.now ≡ false)) }
    ensures fault { IfOk result (λ found. IfSome found (λ fault. IsFault text.now fault)) }
    ensures place { IfOk result (λ found. IfSome found (λ fault. fault.offset ≤ length text.now)) }
{
    let mut reading = start(alloc);
    let length = text.len();
    let mut left = length;
    for found in SpacedLexer::new(text) {
        left -= found.gap.len();
        if let Some(expected) = step(&mut reading, found)? {
            return Ok(Some(Fault {
                offset: length - left,
                expected,
                found: found.lexeme,
            }));
        }
        left -= found.text().len();
    }
    Ok(None)
}
