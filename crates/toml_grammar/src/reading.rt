//! What of a text has been read.
ghost use Rattle.std.specs.Prelude.{◌≡◌, Ok, Err, IfOk, MatchOption};
ghost use Rattle.toml_grammar.specs.Grammar as spec;
ghost use Rattle.toml_grammar.specs.Readings.{reading_of};
ghost use Rattle.toml_lexemes.specs.SpacedLexer.{spaced_of, IsNamedIf};

use crate::expected::Expected;
use crate::next::{Bracket, Next};
use crate::turn::{LexemeTurn, turn_at};
use std::alloc::{AllocError, Global};
use toml_lexemes::Spaced;

/// The brackets that are open, the outermost first, and what may come next.
#[derive(Drop)]
pub(crate) struct Reading {
    pub open: Vec<Bracket>,
    pub next: Next,
}

/// Before the first lexeme.
pub(crate) fn start(alloc: Global) -> Reading
    ensures { reading_of result ≡ spec.first_reading }
{
    Reading {
        open: Vec::new(alloc),
        next: Next::Line,
    }
}

/// Takes one lexeme more. Where it may not stand there, what was expected is given.
///
/// `AllocError` where memory is refused.
pub(crate) fn step(reading: &mut Reading, found: Spaced<'_>) -> Result<Option<Expected>, AllocError>
    requires { IsNamedIf found.lexeme }
    ensures { IfOk result (λ stopped. MatchOption stopped
        (spec.lexeme_step (reading_of reading.old) (spaced_of found.entry) ≡ Ok (reading_of reading.new))
        (λ expected. spec.lexeme_step (reading_of reading.old) (spaced_of found.entry) ≡ Err expected)) }
{
    let innermost = reading.open.last().copied();
    match turn_at(reading.next, innermost, found) {
        LexemeTurn::GoesOn(next) => reading.next = next,
        LexemeTurn::Opens(bracket, next) => {
            reading.open.push(bracket)?;
            reading.next = next;
        }
        LexemeTurn::Closes => {
            let _ = reading.open.pop();
            reading.next = Next::After;
        }
        LexemeTurn::Stops(expected) => return Ok(Some(expected)),
    }
    Ok(None)
}
