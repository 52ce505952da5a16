//! Texts that have a JSON text on each line.
ghost use Rattle.std.specs.Prelude.{◌≡◌, IfOk, map};
ghost use Rattle.jsonfmt.specs.Lines.{AppendsLine, LaysEachLine, lines_of};

use crate::refusal::{Origin, refuse, refuse_depth};
use json_formatter::{FormatError, Style, format};
use json_lexemes::Lexer;
use std::alloc::{AllocError, Global};
use std::io;
use std::str::from_utf8;

/// What lines are laid out as, and whether one of them is refused and gave nothing.
#[derive(Drop)]
pub struct LaidLines {
    pub layout: Vec<u8>,
    pub refused: bool,
}

// The lines of a text, without the line feeds between them.
fn lines_of(alloc: Global, text: &[u8]) -> Result<Vec<&[u8]>, AllocError>
    ensures { IfOk result (λ lines. map (λ line. line.now) lines.items ≡ lines_of text.now) }
{
    text.split(|byte| *byte == b'\n').collect(alloc)
}

// A line without the CR at its end, so that a message has its end there.
fn without_return(line: &[u8]) -> &[u8] {
    line.strip_suffix(b"\r".as_slice()).unwrap_or(line)
}

// Appends the layout of a line, or says why the line is refused. Whether it is refused.
fn push_line<R: AllocGlobal + Eprint>(
    rt: &R,
    origin: Origin<'_>,
    line: &[u8],
    style: Style,
    layout: &mut Vec<u8>,
) -> io::Result<bool>
    ensures { IfOk result (AppendsLine style line.now layout.old.items layout.new.items) }
{
    let Ok(text) = from_utf8(line) else {
        refuse(rt, origin, without_return(line))?;
        return Ok(true);
    };
    if Lexer::new(text).next().is_none() {
        return Ok(false);
    }
    match format(rt.alloc(), text, style, layout) {
        Ok(()) => Ok(false),
        Err(FormatError::NotJson) => {
            refuse(rt, origin, without_return(line))?;
            Ok(true)
        }
        Err(FormatError::TooDeep) => {
            refuse_depth(rt, origin, text, style.depth)?;
            Ok(true)
        }
        Err(FormatError::Memory(error)) => Err(io::Error::from(error)),
        Err(FormatError::Write(error)) => Err(error),
    }
}

/// Lays out the lines of a text, one after the other. A line without a text gives nothing. One that is refused gives nothing either,
/// and is said by its place in the file of this name.
pub fn lay_lines<R: AllocGlobal + Eprint>(
    rt: &R,
    name: &str,
    text: &[u8],
    style: Style,
) -> io::Result<LaidLines>
    ensures { IfOk result (λ laid. LaysEachLine style (lines_of text.now) laid.refused laid.layout.items) }
{
    let lines = lines_of(rt.alloc(), text)?;
    let mut layout = Vec::new(rt.alloc());
    let mut refused = false;
    for (lines_before, line) in lines.iter().enumerate() {
        let origin = Origin::of_line(name, lines_before);
        let is_refused = push_line(rt, origin, *line, style, &mut layout)?;
        refused = refused || is_refused;
    }
    Ok(LaidLines { layout, refused })
}
