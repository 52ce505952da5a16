ghost use Rattle.sexp.specs.View.{value_of};
ghost use Rattle.sexp.specs.Runs.{RunsFormatter, WritesValue};

use crate::document::document;
use crate::error::RunError;
use crate::expression::SExp;
use crate::input::read_input;
use crate::output::write_text;
use crate::parse::parse;
use bumpalo::Bump;
use prettyless::{Arena, DocPtr, RenderError, RenderOptions};
use std::alloc::Global;
use std::io::{Read, Write};

/// Writes the layout of an S-expression and one LF.
fn write_layout<W: Write>(
    alloc: Global,
    options: RenderOptions,
    expression: &SExp,
    writer: &mut W,
) -> Result<(), RunError>
    ensures { WritesValue options (value_of expression.now) (W.contents writer.old) (W.contents writer.new) result }
{
    let bump = Bump::new(alloc);
    let arena = Arena::new(alloc, &bump);
    let document = document(&arena, expression)?;
    match document.doc().render_with(alloc, options, writer) {
        Ok(()) => write_text(writer, b"\n"),
        Err(RenderError::Memory(error)) => Err(RunError::Memory(error)),
        Err(RenderError::Sink(error)) => Err(RunError::Write(error)),
        // No line of such a document is broken in a flat part.
        Err(RenderError::Document(error)) => Err(RunError::Write(error)),
    }
}

/// Reads an S-expression to the end of the input, and writes its layout by these options, and one LF.
///
/// Where it answers `NotAnSexp` or `Read` nothing was written. Where it answers `Memory` nothing was, or a beginning of
/// the layout and its LF, and where it answers `Write` a beginning.
pub fn run<R: Read, W: Write>(
    alloc: Global,
    options: RenderOptions,
    reader: &mut R,
    writer: &mut W,
) -> Result<(), RunError>
    ensures { RunsFormatter options (R.remaining reader.old) (W.contents writer.old) (W.contents writer.new) result }
{
    let input = read_input(alloc, reader)?;
    let expression = parse(alloc, &input)?;
    write_layout(alloc, options, &expression, writer)
}
