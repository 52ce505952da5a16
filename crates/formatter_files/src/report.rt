//! Saying which texts are not laid out, and how they differ from their layouts.
ghost use Rattle.std.specs.Prelude.{◌≡◌};

use crate::action::Report;
use crate::comparison::{Comparison, compare};
use crate::difference::difference;
use crate::ending::Ending;
use crate::formatter::{Formatter, LayoutError};
use crate::hunks::hunks;
use crate::outcome::FileError;
use crate::source::SourceText;
use std::io;

/// The layout of a text, in memory.
fn layout_of<R: AllocGlobal + Eprint, F: Formatter>(
    rt: &R,
    formatter: &F,
    source: SourceText<'_>,
) -> io::Result<Vec<u8>> {
    let mut layout = Vec::new(rt.alloc());
    match formatter.write_layout(rt, source.name, source.bytes, &mut layout) {
        Ok(_) => Ok(layout),
        Err(LayoutError::Text(error) | LayoutError::Writer(error)) => Err(error),
    }
}

/// Prints how a text differs from its layout.
fn show<R: AllocGlobal + Eprint + Print, F: Formatter>(
    rt: &R,
    formatter: &F,
    source: SourceText<'_>,
) -> Result<(), FileError> {
    // This lays the text out once more: the first layout was compared while it was made, and not kept.
    let layout = layout_of(rt, formatter, source)?;
    let lines = difference(rt.alloc(), source.bytes, &layout)?;
    let text = hunks(rt.alloc(), source.name, &lines)?;
    match Print::write_all(rt, &text) {
        Ok(()) => Ok(()),
        Err(error) => Err(FileError::Output(error)),
    }
}

/// Compares a text with its layout, and reports where they differ.
pub(crate) fn check<R: AllocGlobal + Eprint + Print, F: Formatter>(
    rt: &R,
    formatter: &F,
    report: Report,
    source: SourceText<'_>,
) -> Result<Ending, FileError>
    ensures { result ≡ Ok Ending.Good → F.IsLayout formatter.now source.entry.bytes.now source.entry.bytes.now }
{
    match compare(rt, formatter, source)? {
        Comparison::Same => return Ok(Ending::Good),
        Comparison::Refused => return Ok(Ending::Refused),
        Comparison::Different => {}
    }
    let name = source.name;
    if report.has_name() {
        eprintln!(rt; "{name}: not laid out")?;
    }
    if report.has_difference() {
        show(rt, formatter, source)?;
    }
    Ok(Ending::Refused)
}
