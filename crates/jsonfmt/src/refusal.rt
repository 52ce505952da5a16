//! What is said of texts that are refused.
use formatter_files::message::{say_expected, say_opened, say_word};
use json_grammar::{Expected, depth_fault, fault_of};
use json_lexemes::Lexeme;
use std::io;
use text_lexemes::Place;

/// Where a text is from, as messages name it and its places.
#[derive(Clone, Copy, Drop)]
pub struct Origin<'n> {
    name: &'n str,
    /// How many lines of the file are before it.
    lines_before: usize,
    /// What ends where it ends.
    whole: &'static str,
}

impl<'n> Origin<'n> {
    /// All of a file.
    pub fn of_file(name: &'n str) -> Origin<'n> {
        Origin {
            name,
            lines_before: 0,
            whole: "text",
        }
    }

    /// A line of a file, after so many.
    pub fn of_line(name: &'n str, lines_before: usize) -> Origin<'n> {
        Origin {
            name,
            lines_before,
            whole: "line",
        }
    }

    // Where this place of the text is in its file.
    fn place(self, place: Place) -> Place {
        Place {
            line: place.line.saturating_add(self.lines_before),
            column: place.column,
        }
    }
}

// Says what stands there. It leaves the line open.
fn say_found<R: Eprint>(
    rt: &R,
    origin: Origin<'_>,
    found: Option<Lexeme<'_>>,
    expected: Expected,
) -> io::Result<()> {
    let whole = origin.whole;
    match found {
        Some(Lexeme::String(_)) => eprint!(rt; ", found a string"),
        Some(lexeme) => say_word(rt, lexeme.text()),
        None if expected == Expected::Utf8 => Ok(()),
        None => eprint!(rt; ", found the end of the {whole}"),
    }
}

/// Says where the bytes stop being JSON, what was expected there, and what stands there.
pub fn refuse<R: AllocGlobal + Eprint>(rt: &R, origin: Origin<'_>, bytes: &[u8]) -> io::Result<()> {
    let fault = fault_of(rt.alloc(), bytes)?;
    let expected = fault.expected.name();
    say_expected(rt, origin.name, origin.place(fault.place), expected)?;
    say_found(rt, origin, fault.found, fault.expected)?;
    if let Some(place) = fault.opened {
        say_opened(rt, origin.place(place))?;
    }
    eprintln!(rt)
}

/// Says which bracket of a JSON text is deeper in others than it may be.
pub fn refuse_depth<R: AllocGlobal + Eprint>(
    rt: &R,
    origin: Origin<'_>,
    text: &str,
    depth: usize,
) -> io::Result<()> {
    let fault = depth_fault(rt.alloc(), text, depth)?;
    let expected = format!(in rt.alloc(); "at most {depth} levels of nesting")?;
    let place = origin.place(fault.place);
    say_expected(rt, origin.name, place, expected.as_str())?;
    say_found(rt, origin, fault.found, fault.expected)?;
    eprintln!(rt)
}
