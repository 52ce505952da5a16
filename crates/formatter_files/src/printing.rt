//! Writing layouts to standard output.
use crate::ending::Ending;
use crate::formatter::{Formatter, LayoutError, Verdict};
use crate::outcome::FileError;
use crate::source::SourceText;
use std::io;
use std::io::Write;

/// Standard output, which takes all that is written at once or fails.
#[derive(Drop)]
struct Output<'r, R>(&'r R);

impl<R: Print> Write for Output<'_, R> {
    fn write(&mut self, buf: &[u8]) -> io::Result<usize> {
        Print::write_all(self.0, buf)?;
        Ok(buf.len())
    }

    fn flush(&mut self) -> io::Result<()> {
        Ok(())
    }
}

/// Writes the layout of a text to standard output while it is made.
pub(crate) fn print<R: AllocGlobal + Eprint + Print, F: Formatter>(
    rt: &R,
    formatter: &F,
    source: SourceText<'_>,
) -> Result<Ending, FileError> {
    match formatter.write_parts(rt, source.name, source.bytes, &mut Output(rt)) {
        Ok(Verdict::LaidOut) => Ok(Ending::Good),
        Ok(Verdict::Refused) => Ok(Ending::Refused),
        Err(LayoutError::Text(error)) => Err(FileError::File(error)),
        Err(LayoutError::Writer(error)) => Err(FileError::Output(error)),
    }
}
