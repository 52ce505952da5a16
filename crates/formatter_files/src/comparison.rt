//! Comparing texts with their layouts.
ghost use Rattle.std.specs.Prelude.{◌≡◌};

use crate::comparing::Comparing;
use crate::formatter::{Formatter, LayoutError, Verdict};
use crate::source::SourceText;
use std::io;

/// How a text compares with its layout.
#[derive(Clone, Copy, Drop)]
pub(crate) enum Comparison {
    Same,
    Different,
    /// It has none.
    Refused,
}

/// Compares a text with its layout while that is made. They are the same only where the text is a layout of itself.
pub(crate) fn compare<R: AllocGlobal + Eprint, F: Formatter>(
    rt: &R,
    formatter: &F,
    source: SourceText<'_>,
) -> io::Result<Comparison>
    ensures { result ≡ Ok Comparison.Same → F.IsLayout formatter.now source.entry.bytes.now source.entry.bytes.now }
{
    let mut layout = Comparing::new(source.bytes);
    match formatter.write_layout(rt, source.name, source.bytes, &mut layout) {
        Ok(Verdict::LaidOut) if layout.is_whole() => Ok(Comparison::Same),
        Ok(Verdict::LaidOut) | Err(LayoutError::Writer(_)) => Ok(Comparison::Different),
        Ok(Verdict::Refused) => Ok(Comparison::Refused),
        Err(LayoutError::Text(error)) => Err(error),
    }
}
