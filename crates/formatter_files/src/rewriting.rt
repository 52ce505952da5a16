//! Replacing a file by its layout where they differ, while the layout is made.
use crate::comparing::Comparing;
use crate::ending::Ending;
use crate::formatter::{Formatter, LayoutError, Verdict};
use crate::replace::{NewFile, begin, discard, finish};
use crate::source::SourceText;
use crate::stamp::Stamp;
use std::fs::Files;
use std::io;
use std::io::Write;

/// A writer that compares what is written with the text of a file. From the first difference on it goes to a new file, which
/// begins with what was the same.
#[derive(Drop)]
struct Rewriting<'r, R: Files> {
    rt: &'r R,
    name: &'r str,
    /// What the file showed when it was read.
    read: Option<Stamp>,
    same: Comparing<'r>,
    new: Option<NewFile<R::File>>,
}

impl<'r, R: Files + AllocGlobal> Rewriting<'r, R> {
    /// Nothing is written yet of what may replace the file with this name and this text.
    fn new(rt: &'r R, name: &'r str, read: Option<Stamp>, text: &'r [u8]) -> Rewriting<'r, R> {
        Rewriting {
            rt,
            name,
            read,
            same: Comparing::new(text),
            new: None,
        }
    }

    // Begins the new file with what was the same, and these bytes.
    fn differ(&mut self, bytes: &[u8]) -> io::Result<()> {
        let new = self.new.insert(begin(self.rt, self.name, self.read)?);
        new.write_all(self.same.written())?;
        new.write_all(bytes)
    }

    /// Has what was written replace the file, unless it is the file's text.
    ///
    /// An error where any step fails, and where the file changed since it was read: then it stays, and no file is left beside it.
    fn finish(mut self) -> io::Result<()> {
        if self.new.is_none() && !self.same.is_whole() {
            if let Err(error) = self.differ(&[]) {
                self.discard();
                return Err(error);
            }
        }
        let Rewriting { rt, new, .. } = self;
        match new {
            Some(new) => finish(rt, new),
            None => Ok(()),
        }
    }

    /// Leaves the file as it was, and no file beside it.
    fn discard(self) {
        let Rewriting { rt, new, .. } = self;
        if let Some(new) = new {
            discard(rt, new);
        }
    }
}

impl<R: Files + AllocGlobal> Write for Rewriting<'_, R> {
    fn write(&mut self, buf: &[u8]) -> io::Result<usize> {
        match &mut self.new {
            Some(new) => new.write_all(buf)?,
            None => {
                if self.same.write(buf).is_err() {
                    self.differ(buf)?;
                }
            }
        }
        Ok(buf.len())
    }

    fn flush(&mut self) -> io::Result<()> {
        Ok(())
    }
}

/// Replaces a file by its layout, where they differ.
pub(crate) fn rewrite<R: AllocGlobal + Files + Eprint, F: Formatter>(
    rt: &R,
    formatter: &F,
    source: SourceText<'_>,
) -> io::Result<Ending> {
    let mut layout = Rewriting::new(rt, source.name, source.read, source.bytes);
    match formatter.write_layout(rt, source.name, source.bytes, &mut layout) {
        Ok(Verdict::LaidOut) => {
            layout.finish()?;
            Ok(Ending::Good)
        }
        Ok(Verdict::Refused) => {
            layout.discard();
            Ok(Ending::Refused)
        }
        Err(LayoutError::Text(error) | LayoutError::Writer(error)) => {
            layout.discard();
            Err(error)
        }
    }
}
