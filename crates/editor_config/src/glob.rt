//! Reading the pattern of a section.
use crate::part::{PatternPart, Range};
use crate::pattern::{Pattern, PatternPiece};
use std::alloc::{AllocError, Global};

/// A character of a pattern, which may be a sign, or stands for itself since a backslash is before it.
#[derive(Clone, Copy, Debug, Drop, PartialEq, Eq)]
enum GlobMark {
    Sign(char),
    Plain(char),
}

impl GlobMark {
    fn char(self) -> char {
        match self {
            GlobMark::Sign(c) | GlobMark::Plain(c) => c,
        }
    }
}

fn marks(alloc: Global, text: &str) -> Result<Vec<GlobMark>, AllocError> {
    let mut marks = Vec::new(alloc);
    let mut is_escaped = false;
    for c in text.chars() {
        if is_escaped {
            marks.push(GlobMark::Plain(c))?;
        } else if c != '\\' {
            marks.push(GlobMark::Sign(c))?;
        }
        is_escaped = !is_escaped && c == '\\';
    }
    Ok(marks)
}

// The one character.
fn only(c: char) -> Range {
    Range { first: c, last: c }
}

// This character.
fn character(alloc: Global, c: char) -> Result<PatternPart, AllocError> {
    Ok(PatternPart {
        repeats: false,
        others: false,
        ranges: vec![in alloc; only(c)]?,
    })
}

// A character of a name, or any number of them.
fn in_name(alloc: Global, repeats: bool) -> Result<PatternPart, AllocError> {
    Ok(PatternPart {
        repeats,
        others: true,
        ranges: vec![in alloc; only('/')]?,
    })
}

// Any number of characters.
fn anything(alloc: Global) -> PatternPart {
    PatternPart {
        repeats: true,
        others: true,
        ranges: Vec::new(alloc),
    }
}

/// A part at the beginning of marks, and how many of them spell it.
#[derive(Drop)]
struct PartAt {
    part: PatternPart,
    len: usize,
}

// The ranges of a class: `-` between two members stands for those between them.
fn ranges(alloc: Global, members: &[GlobMark]) -> Result<Vec<Range>, AllocError> {
    let mut ranges = Vec::new(alloc);
    let mut rest = members;
    for _ in 0..members.len() {
        let (range, left) = match rest {
            [first, GlobMark::Sign('-'), last, left @ ..] => (
                Range {
                    first: first.char(),
                    last: last.char(),
                },
                left,
            ),
            [member, left @ ..] => (only(member.char()), left),
            [] => break,
        };
        ranges.push(range)?;
        rest = left;
    }
    Ok(ranges)
}

// The class that marks after a bracket are, if a bracket ends it and it has no slash.
fn class_at(alloc: Global, marks: &[GlobMark]) -> Result<Option<PartAt>, AllocError> {
    let end = marks.iter().position(|mark| *mark == GlobMark::Sign(']'));
    let Some(inside) = marks.get(..end.unwrap_or(0)) else {
        return Ok(None);
    };
    if inside.is_empty() || inside.iter().any(|mark| mark.char() == '/') {
        return Ok(None);
    }
    let (others, members) = match inside {
        [GlobMark::Sign('!'), members @ ..] => (true, members),
        members => (false, members),
    };
    let mut ranges = ranges(alloc, members)?;
    if others {
        ranges.push(only('/'))?;
    }
    let part = PatternPart {
        repeats: false,
        others,
        ranges,
    };
    Ok(Some(PartAt {
        part,
        len: inside.len().saturating_add(2),
    }))
}

// The first part of marks. A bracket that opens no class is itself.
fn part_at(alloc: Global, marks: &[GlobMark]) -> Result<Option<PartAt>, AllocError> {
    let (part, len) = match marks {
        [GlobMark::Sign('*'), GlobMark::Sign('*'), ..] => (anything(alloc), 2),
        [GlobMark::Sign('*'), ..] => (in_name(alloc, true)?, 1),
        [GlobMark::Sign('?'), ..] => (in_name(alloc, false)?, 1),
        [GlobMark::Sign('['), rest @ ..] => match class_at(alloc, rest)? {
            Some(class) => return Ok(Some(class)),
            None => (character(alloc, '[')?, 1),
        },
        [mark, ..] => (character(alloc, mark.char())?, 1),
        [] => return Ok(None),
    };
    Ok(Some(PartAt { part, len }))
}

// The parts of marks, one after the other.
fn parts(alloc: Global, marks: &[GlobMark]) -> Result<Vec<PatternPart>, AllocError> {
    let mut parts = Vec::new(alloc);
    let mut rest = marks;
    for _ in 0..marks.len() {
        let Some(at) = part_at(alloc, rest)? else {
            break;
        };
        parts.push(at.part)?;
        rest = rest.get(at.len..).unwrap_or(&[]);
    }
    Ok(parts)
}

// How many numbers a range has at most.
const MOST_NUMBERS: i32 = 1000;

// The numbers that two numbers with two dots between them stand for. Past a thousand they are left out.
fn numbers(
    alloc: Global,
    inside: &[GlobMark],
) -> Result<Option<Vec<Vec<PatternPart>>>, AllocError> {
    let text: String = inside.iter().map(|mark| mark.char()).collect(alloc)?;
    let Some((first, last)) = text.as_str().split_once("..") else {
        return Ok(None);
    };
    let (Ok(first), Ok(last)) = (first.parse::<i32>(), last.parse::<i32>()) else {
        return Ok(None);
    };
    let mut numbers = Vec::new(alloc);
    for offset in 0..MOST_NUMBERS {
        let Some(number) = first.checked_add(offset) else {
            break;
        };
        if number > last {
            break;
        }
        let spelled = format!(in alloc; "{number}")?;
        numbers.push(parts(alloc, &marks(alloc, spelled.as_str())?)?)?;
    }
    Ok(Some(numbers))
}

// What commas stand between, if there is one.
fn listed(alloc: Global, marks: &[GlobMark]) -> Result<Option<Vec<Vec<PatternPart>>>, AllocError> {
    if !marks.contains(&GlobMark::Sign(',')) {
        return Ok(None);
    }
    let mut listed = Vec::new(alloc);
    for alternative in marks.split(|mark| *mark == GlobMark::Sign(',')) {
        listed.push(parts(alloc, alternative)?)?;
    }
    Ok(Some(listed))
}

/// Alternatives at the beginning of marks, and how many of them spell these.
#[derive(Drop)]
struct ChoiceAt {
    alternatives: Vec<Vec<PatternPart>>,
    len: usize,
}

// The choice that marks after a brace are, if a brace ends it: two numbers, or texts with commas between them, and no other brace.
fn braces_at(alloc: Global, marks: &[GlobMark]) -> Result<Option<ChoiceAt>, AllocError> {
    let brace = |mark: &GlobMark| *mark == GlobMark::Sign('{') || *mark == GlobMark::Sign('}');
    let Some(end) = marks.iter().position(brace) else {
        return Ok(None);
    };
    let Some(inside) = marks.get(..end) else {
        return Ok(None);
    };
    if marks.get(end) != Some(&GlobMark::Sign('}')) {
        return Ok(None);
    }
    let alternatives = match numbers(alloc, inside)? {
        Some(numbers) => Some(numbers),
        None => listed(alloc, inside)?,
    };
    Ok(alternatives.map(|alternatives| ChoiceAt {
        alternatives,
        len: end.saturating_add(2),
    }))
}

// The choice at the beginning of marks, if there is one: braces, or folders in any number between two slashes.
fn choice_at(alloc: Global, marks: &[GlobMark]) -> Result<Option<ChoiceAt>, AllocError> {
    match marks {
        [GlobMark::Sign('{'), rest @ ..] => braces_at(alloc, rest),
        [
            GlobMark::Sign('/'),
            GlobMark::Sign('*'),
            GlobMark::Sign('*'),
            GlobMark::Sign('/'),
            ..
        ] => {
            let none = parts(alloc, &[GlobMark::Sign('/')])?;
            let some = parts(alloc, marks.get(..4).unwrap_or(&[]))?;
            let alternatives = vec![in alloc; none, some]?;
            Ok(Some(ChoiceAt {
                alternatives,
                len: 4,
            }))
        }
        _ => Ok(None),
    }
}

fn push_pieces(
    alloc: Global,
    pieces: &mut Vec<PatternPiece>,
    marks: &[GlobMark],
) -> Result<(), AllocError> {
    let mut rest = marks;
    for _ in 0..marks.len() {
        let len = if let Some(choice) = choice_at(alloc, rest)? {
            pieces.push(PatternPiece::Choice(choice.alternatives))?;
            choice.len
        } else {
            let Some(at) = part_at(alloc, rest)? else {
                break;
            };
            pieces.push(PatternPiece::Part(at.part))?;
            at.len
        };
        rest = rest.get(len..).unwrap_or(&[]);
    }
    Ok(())
}

// How many bytes the text of a pattern has at most.
const LONGEST: usize = 4096;

/// The pattern of a section in a folder, whose path has no slash at its end. A pattern with no slash is one of names, in that folder
/// and those below. One that is longer than is allowed fits nothing.
///
/// `AllocError` where memory is refused.
pub(crate) fn read_pattern(alloc: Global, folder: &str, name: &str) -> Result<Pattern, AllocError> {
    let mut pieces = Vec::new(alloc);
    if name.len() > LONGEST {
        pieces.push(PatternPiece::Choice(Vec::new(alloc)))?;
        return Ok(Pattern { pieces });
    }
    let below = if name.starts_with('/') {
        ""
    } else if name.contains('/') {
        "/"
    } else {
        "/**/"
    };
    for c in folder.chars() {
        pieces.push(PatternPiece::Part(character(alloc, c)?))?;
    }
    let text = format!(in alloc; "{below}{name}")?;
    push_pieces(alloc, &mut pieces, &marks(alloc, text.as_str())?)?;
    Ok(Pattern { pieces })
}
