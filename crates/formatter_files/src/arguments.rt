//! The words that a program is called with, as texts.
ghost use Rattle.std.specs.Prelude.{IfOk, string_bytes};
ghost use Rattle.formatter_files.specs.Arguments.{IsTextOf};

use std::alloc::{AllocError, Global};
use std::env::FillError;
use std::rt::Env;

// How many bytes a word is given room for at first.
const ROOM: usize = 256;

/// The text of a word. Where its bytes are not UTF-8 it shows them, and has a NUL at its end: no word and no name of a file has one.
///
/// `AllocError` where memory is refused.
pub fn text_of(alloc: Global, bytes: Vec<u8>) -> Result<String, AllocError>
    ensures { IfOk result (λ text. IsTextOf bytes.items (string_bytes text)) }
{
    match String::from_utf8(bytes) {
        Ok(text) => Ok(text),
        Err(error) => {
            let mut text = format!(in alloc; "{}", error.as_bytes().escape_ascii())?;
            text.push('\0')?;
            Ok(text)
        }
    }
}

/// What messages show of a text that has the place of a word that is not UTF-8. `None` of any other.
pub fn shown_of(text: &str) -> Option<&str> {
    text.strip_suffix('\0')
}

// The word at this place, if there is one.
fn word_at<R: AllocGlobal + Env>(rt: &R, index: usize) -> Result<Option<Vec<u8>>, AllocError> {
    let mut room = ROOM;
    for _ in 0..usize::BITS {
        let mut bytes = Vec::new(rt.alloc());
        bytes.resize(room, 0u8)?;
        match rt.arg(index, &mut bytes) {
            Ok(len) => {
                bytes.truncate(len);
                return Ok(Some(bytes));
            }
            Err(FillError::NotPresent) => return Ok(None),
            Err(FillError::TooLong) => room = room.saturating_add(room),
        }
    }
    Err(AllocError)
}

/// The words that the program was called with, of which the first names it. One that is not UTF-8 is a text that is no name of a file.
///
/// `AllocError` where memory is refused.
pub fn words<R: AllocGlobal + Env>(rt: &R) -> Result<Vec<String>, AllocError> {
    let mut words = Vec::new(rt.alloc());
    for index in 0..usize::MAX {
        match word_at(rt, index)? {
            Some(bytes) => words.push(text_of(rt.alloc(), bytes)?)?,
            None => break,
        }
    }
    Ok(words)
}
