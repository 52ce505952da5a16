//! What is said of a line.
use crate::compared::compared;
use crate::refusal::LineRefusal;
use crate::words::{before_arrow, words};
use std::alloc::{AllocError, Global};

/// What is said of a line.
#[derive(Drop)]
pub enum LineAnswer {
    /// It is empty, or a comment.
    Nothing,
    /// What comes of its case, or why it is none.
    Outcome(String),
    /// Its case is as it states.
    AsStated,
    /// Its case is otherwise than it states, or than it has to be: how it is.
    Differs(String),
}

// What is said of a line of this number whose case was refused.
fn refused(
    alloc: Global,
    number: u64,
    states: bool,
    refusal: LineRefusal,
) -> Result<LineAnswer, AllocError> {
    match refusal {
        LineRefusal::OutOfMemory => Err(AllocError),
        LineRefusal::Differs(what) => Ok(LineAnswer::Differs(format!(in alloc;
            "line {number}: {what}"
        )?)),
        LineRefusal::NotACase(expected) => {
            let expected = expected.description();
            let text = format!(in alloc; "error line {number}: expected {expected}")?;
            Ok(if states {
                LineAnswer::Differs(text)
            } else {
                LineAnswer::Outcome(text)
            })
        }
    }
}

/// What is said of the line of this number.
pub fn answered(
    alloc: Global,
    hostile: bool,
    number: u64,
    line: &[u8],
) -> Result<LineAnswer, AllocError> {
    if matches!(line, [] | [b'#', ..]) {
        return Ok(LineAnswer::Nothing);
    }
    let words = match words(alloc, line) {
        Ok(words) => words,
        Err(refusal) => return refused(alloc, number, false, refusal),
    };
    let stated = words.get(before_arrow(&words).len().saturating_add(1)..);
    match compared(alloc, line, stated.unwrap_or_default(), hostile) {
        Ok(Some(layout)) if stated.is_none() => Ok(LineAnswer::Outcome(layout.words()?)),
        Ok(_) => Ok(LineAnswer::AsStated),
        Err(refusal) => refused(alloc, number, stated.is_some(), refusal),
    }
}
