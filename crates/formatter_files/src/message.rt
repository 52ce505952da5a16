//! Messages about texts that are refused.
use std::io;
use text_lexemes::Place;

// The longest word that a message shows, in bytes.
const SHOWN: usize = 32;

// Whether a terminal shows the word as it is spelled.
fn is_plain(word: &str) -> bool {
    word.bytes().all(|byte| byte.is_ascii_graphic())
}

/// Says where a text is refused, and what was expected there. It leaves the line open. It fails where standard error does.
pub fn say_expected<R: Eprint>(rt: &R, name: &str, place: Place, expected: &str) -> io::Result<()> {
    let (line, column) = (place.line, place.column);
    eprint!(rt; "{name}:{line}:{column}: expected {expected}")
}

// What a word is called that is not shown.
fn hidden_name(word: &str) -> Option<&'static str> {
    if word == "\n" || word == "\r" {
        Some("the end of the line")
    } else if word.starts_with('\u{FEFF}') {
        Some("a byte order mark")
    } else if word.len() > SHOWN {
        Some("a long word")
    } else {
        None
    }
}

/// Says which word stands there. It leaves the line open. It fails where standard error does.
pub fn say_word<R: Eprint>(rt: &R, word: &str) -> io::Result<()> {
    match hidden_name(word) {
        Some(name) => eprint!(rt; ", found {name}"),
        None if is_plain(word) => eprint!(rt; ", found `{word}`"),
        None => eprint!(rt; ", found {word:?}"),
    }
}

/// Says where the string or the bracket begins that is open there. It leaves the line open. It fails where standard error does.
pub fn say_opened<R: Eprint>(rt: &R, place: Place) -> io::Result<()> {
    let (line, column) = (place.line, place.column);
    eprint!(rt; ", opened at {line}:{column}")
}
