//! The words of a line, and those that `repeat` stands before.
use crate::case_part::CasePart;
use crate::refusal::LineRefusal;
use std::alloc::Global;
use std::slice::Iter;
use std::str::{FromStr, from_utf8};

// Where a byte of a line is: outside of quotes, in quotes, or after a backslash in quotes.
#[derive(Clone, Copy, PartialEq, Eq)]
enum Stand {
    Outside,
    Quoted,
    Escaped,
}

impl Stand {
    // Where the byte after this one is.
    fn after(self, byte: u8) -> Stand {
        match (self, byte) {
            (Stand::Outside, b'"') | (Stand::Escaped, _) => Stand::Quoted,
            (Stand::Quoted, b'"') => Stand::Outside,
            (Stand::Quoted, b'\\') => Stand::Escaped,
            (stand, _) => stand,
        }
    }
}

/// The words of a line, with a space between each two. A space in quotes is part of its word.
pub fn words(alloc: Global, line: &[u8]) -> Result<Vec<&str>, LineRefusal> {
    let mut stand = Stand::Outside;
    let parts = line.split(|byte| {
        let ends = *byte == b' ' && stand == Stand::Outside;
        stand = stand.after(*byte);
        ends
    });
    let mut words = Vec::new(alloc);
    for part in parts {
        match from_utf8(part) {
            Ok(word) => words.push(word)?,
            Err(_) => return Err(LineRefusal::NotACase(CasePart::Utf8)),
        }
    }
    Ok(words)
}

/// The words of the case among those of a line. After them comes an arrow, if there are more.
pub fn before_arrow<'w, 'a>(words: &'w [&'a str]) -> &'w [&'a str] {
    let end = words.iter().position(|word| *word == "=>");
    &words[..end.unwrap_or(words.len())]
}

/// Takes the next word, which is expected to be this.
pub fn next_word<'a>(
    words: &mut Iter<'_, &'a str>,
    expected: CasePart,
) -> Result<&'a str, LineRefusal> {
    match words.next() {
        Some(word) => Ok(*word),
        None => Err(LineRefusal::NotACase(expected)),
    }
}

/// The number that decimal digits write, after a minus where it may be negative, if it has room. A plus is no digit, and neither is a
/// space.
pub fn number<T: FromStr + Drop>(word: &str, expected: CasePart) -> Result<T, LineRefusal>
where
    T::Err: Drop,
{
    match word.parse() {
        Ok(number) if !word.starts_with('+') => Ok(number),
        _ => Err(LineRefusal::NotACase(expected)),
    }
}

/// Takes the next word, which is expected to be this number.
pub fn take_number<T: FromStr + Drop>(
    words: &mut Iter<'_, &str>,
    expected: CasePart,
) -> Result<T, LineRefusal>
where
    T::Err: Drop,
{
    number(next_word(words, expected)?, expected)
}

// The most times that words are repeated.
const MOST_TIMES: usize = 1_000_000;

fn times(word: &str) -> Result<usize, LineRefusal> {
    let times = number(word, CasePart::Times)?;
    if times <= MOST_TIMES {
        Ok(times)
    } else {
        Err(LineRefusal::NotACase(CasePart::Times))
    }
}

// The words up to `]`.
fn enclosed<'w, 'a>(words: &'w [&'a str]) -> Result<&'w [&'a str], LineRefusal> {
    match words.iter().position(|word| *word == "]") {
        Some(end) => Ok(&words[..end]),
        None => Err(LineRefusal::NotACase(CasePart::RepeatEnd)),
    }
}

// Adds the words up to `]` so many times: how many they are.
fn push_times<'a>(
    all: &mut Vec<&'a str>,
    count: &str,
    words: &[&'a str],
) -> Result<usize, LineRefusal> {
    let words = enclosed(words)?;
    for _ in 0..times(count)? {
        all.extend_from_slice(words)?;
    }
    Ok(words.len())
}

/// The words, with those between `repeat N [` and `]` as often as it says.
pub fn repeated<'a>(alloc: Global, words: &[&'a str]) -> Result<Vec<&'a str>, LineRefusal> {
    let mut all = Vec::new(alloc);
    // How many words are done besides those before.
    let mut done: usize = 0;
    for at in 0..words.len() {
        if done > 0 {
            done -= 1;
            continue;
        }
        match &words[at..] {
            ["repeat", count, "[", after @ ..] => {
                done = push_times(&mut all, count, after)?.saturating_add(3);
            }
            _ => all.push(words[at])?,
        }
    }
    Ok(all)
}
