//! Texts as words: in hexadecimal with two digits for each byte, and `-` for no byte, or in quotes.
use crate::case_part::CasePart;
use crate::refusal::LineRefusal;
use prettyless_doc::text::CowStr;
use std::alloc::{AllocError, Global};

/// The word that writes these bytes in hexadecimal.
pub fn word_of(alloc: Global, bytes: &[u8]) -> Result<String, AllocError> {
    if bytes.is_empty() {
        String::from_str(alloc, "-")
    } else {
        hex::encode(alloc, bytes)
    }
}

/// Adds a text to words in hexadecimal.
pub fn push_word(alloc: Global, words: &mut String, text: &str) -> Result<(), AllocError> {
    if !words.is_empty() {
        words.push(' ')?;
    }
    words.push_str(word_of(alloc, text.as_bytes())?.as_str())
}

/// Words that begin with this one.
pub fn labelled(alloc: Global, label: &str, words: &str) -> Result<String, AllocError> {
    format!(in alloc; "{label} {words}")
}

// The text of a word in hexadecimal.
fn hexadecimal(alloc: Global, word: &str) -> Result<String, LineRefusal> {
    let bytes = hex::decode(alloc, if word == "-" { "" } else { word })?;
    // Upper case letters, or no digit at all, write no text.
    if word_of(alloc, &bytes)?.as_str() != word {
        return Err(LineRefusal::NotACase(CasePart::Text));
    }
    String::from_utf8(bytes).map_err(|_| LineRefusal::NotACase(CasePart::Text))
}

// The text between quotes, with what its backslashes stand for.
fn unescaped(alloc: Global, quoted: &str) -> Result<String, LineRefusal> {
    let mut text = String::new(alloc);
    let mut is_escaped = false;
    for letter in quoted.chars() {
        match (is_escaped, letter) {
            (false, '\\') => {}
            (true, 'n') => text.push('\n')?,
            (true, 'r') => text.push('\r')?,
            (true, '"' | '\\') => text.push(letter)?,
            (true, _) | (false, '"') => return Err(LineRefusal::NotACase(CasePart::Text)),
            (false, _) => text.push(letter)?,
        }
        is_escaped = !is_escaped && letter == '\\';
    }
    if is_escaped {
        return Err(LineRefusal::NotACase(CasePart::Text));
    }
    Ok(text)
}

// What stands between quotes.
fn quoted(word: &str) -> Option<&str> {
    word.strip_prefix('"')?.strip_suffix('"')
}

/// The text that a word writes. One in quotes with no backslash is that part of the line.
pub fn text<'a>(alloc: Global, word: &'a str) -> Result<CowStr<'a>, LineRefusal> {
    match quoted(word) {
        None => Ok(CowStr::Owned(hexadecimal(alloc, word)?)),
        Some(text) if text.contains(['"', '\\']) => Ok(CowStr::Owned(unescaped(alloc, text)?)),
        Some(text) => Ok(CowStr::Borrowed(text)),
    }
}
