//! Patterns, and which paths they fit.
ghost use Rattle.std.specs.Prelude.{◌≡◌, ◌+◌, IfOk, length};
ghost use Rattle.editor_config.specs.Patterns.{IsAtEach, IsUnion, Test, choice_then, fits_pieces, parts_then};

use crate::part::PatternPart;
use std::alloc::{AllocError, Global};

/// A part, or one of several texts that are parts, one after the other.
#[derive(Debug, Drop)]
pub enum PatternPiece {
    Part(PatternPart),
    Choice(Vec<Vec<PatternPart>>),
}

/// Pieces, one after the other.
#[derive(Debug, Drop)]
pub struct Pattern {
    pub pieces: Vec<PatternPiece>,
}

/// From what fits from each place on, to what does after parts, one after the other.
fn put_parts_before(parts: &[PatternPart], path: &[char], fits: &mut [bool])
    requires { length fits.old ≡ length path.now + 1 }
    ensures { (rest : Test) → IsAtEach rest path.now fits.old → IsAtEach (parts_then parts.now rest) path.now fits.new }
{
    for place in (0..parts.len()).rev() {
        parts[place].put_before(path, fits);
    }
}

/// Lets a place pass where it does in one of two lists.
fn join(passes: &mut [bool], others: &[bool])
    requires { length passes.old ≡ length others.now }
    ensures { IsUnion passes.old others.now passes.new }
{
    for place in 0..passes.len() {
        passes[place] = passes[place] || others[place];
    }
}

/// What fits from each place on after one of the alternatives.
///
/// `AllocError` where memory is refused.
fn before_choice(
    alloc: Global,
    alternatives: &[Vec<PatternPart>],
    path: &[char],
    fits: &[bool],
) -> Result<Vec<bool>, AllocError>
    requires { length fits.now ≡ length path.now + 1 }
    ensures { IfOk result (λ before. (rest : Test) → IsAtEach rest path.now fits.now
        → IsAtEach (choice_then alternatives.now rest) path.now before.items) }
{
    let mut before = vec![in alloc; false; fits.len()]?;
    for parts in alternatives {
        let mut after_parts = Vec::from_slice(alloc, fits)?;
        put_parts_before(parts, path, &mut after_parts);
        join(&mut before, &after_parts);
    }
    Ok(before)
}

impl Pattern {
    /// Whether the whole path fits. The pattern is matched from its end, so no pattern takes longer than its parts times the path.
    ///
    /// `AllocError` where memory is refused.
    pub fn fits(&self, alloc: Global, path: &[char]) -> Result<bool, AllocError>
        ensures { IfOk result (λ fits. fits ≡ fits_pieces self.now.pieces.items path.now) }
    {
        let mut fits = vec![in alloc; false; path.len()]?;
        fits.push(true)?;
        for place in (0..self.pieces.len()).rev() {
            match &self.pieces[place] {
                PatternPiece::Part(part) => part.put_before(path, &mut fits),
                PatternPiece::Choice(alternatives) => fits = before_choice(
                    alloc,
                    alternatives,
                    path,
                    &fits,
                )?,
            }
        }
        Ok(fits[0])
    }
}
