//! A sink over a text writer. It knows text writers by `TextWriter`, and no documents.
ghost use Rattle.std.specs.Prelude.{◌≡◌, ⊤, Some};

use crate::render::Render;
use crate::text_writer::TextWriter;
use std::fmt;

/// A sink that writes to a borrowed text writer, as `FmtWrite::new(&mut writer)`, and counts its failures.
#[derive(Drop)]
pub struct FmtWrite<W> {
    upstream: W,
    failures: u64,
}

impl<W> FmtWrite<W> {
    /// A sink that appends to `upstream`, with no failures yet.
    ///
    /// ```
    /// doc.render_raw(alloc, 80, &mut FmtWrite::new(&mut text))?; // `text`, a `String`, grew by the layout
    /// ```
    pub fn new(upstream: W) -> Self
        ensures { result ≡ record { upstream = upstream; failures = 0 } }
    {
        FmtWrite {
            upstream,
            failures: 0,
        }
    }
}

impl<'w, W: TextWriter> Render for FmtWrite<&'w mut W> {
    type Error = fmt::Error;

    ghost bytes = { λ sink. W.text sink.upstream.now };

    ghost failures = { λ sink. sink.failures };

    ghost lender = { λ sink. Some sink.upstream.ghost_name };

    ghost document_errors = { λ _ _. ⊤ };

    /// Passes the whole text on, and answers its length.
    #[inline]
    fn write_str(&mut self, s: &str) -> Result<usize, fmt::Error> {
        self.write_str_all(s)?;
        Ok(s.len())
    }

    /// Passes the whole text on in one piece. Where the writer fails, the failures rise by one.
    #[inline]
    fn write_str_all(&mut self, s: &str) -> Result<(), fmt::Error> {
        match self.upstream.write_text(s) {
            Ok(()) => Ok(()),
            Err(e) => {
                self.failures = self.failures.saturating_add(1);
                Err(e)
            }
        }
    }

    fn fail_doc(&self) -> fmt::Error {
        fmt::Error
    }
}
