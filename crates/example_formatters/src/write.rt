//! The layout of a term, which reads back as the term.
ghost use Rattle.std.specs.String.{string_bytes};
ghost use Rattle.example_formatters.specs.View.{expression_of};
ghost use Rattle.example_formatters.specs.Written.{WritesExpression};

use crate::document::document;
use crate::term::Term;
use prettyless::{BoxAllocator, DocPlace, DocPtr, PrettyError};
use std::alloc::Global;
use std::fmt;

/// Appends the layout of a term at this width, with the nodes of its document in boxes.
fn write_in<'a>(
    boxes: &'a BoxAllocator,
    width: usize,
    term: &Term,
    out: &mut String,
) -> Result<(), PrettyError<fmt::Error>>
    ensures { WritesExpression width (expression_of term.now) (string_bytes out.old) (string_bytes out.new) result }
{
    let document = document(boxes, term)?;
    document.doc().render_fmt(boxes.memory(), width, out)?;
    Ok(())
}

/// Appends the layout of a term at this width, in columns. It reads back as the term.
///
/// Where the document was not built, nothing was appended. Where its render stopped, a beginning of the layout was.
pub fn write_term(
    alloc: Global,
    width: usize,
    term: &Term,
    out: &mut String,
) -> Result<(), PrettyError<fmt::Error>>
    ensures { WritesExpression width (expression_of term.now) (string_bytes out.old) (string_bytes out.new) result }
{
    let boxes = BoxAllocator::new(alloc);
    write_in(&boxes, width, term, out)
}
