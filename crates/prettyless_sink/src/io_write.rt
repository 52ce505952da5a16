//! A sink over a byte writer, and the writing of bytes in whole. It knows no documents.
ghost use Rattle.std.specs.Prelude.{◌≡◌, Some, OnOk, OnErr};
ghost use Rattle.std.specs.IoError.{error_kind};
ghost use Rattle.std.specs.declared.io.ErrorKind.TheVariants.{Other};
ghost use Rattle.std.specs.Io.KnownBytes.{Appends};
ghost use Rattle.prettyless_sink.specs.Sink.{AppendsProperBeginning};

use crate::render::{Render, is_fair_count};
use std::io;

/// A sink that writes to a borrowed byte writer, as `IoWrite::new(&mut writer)`, and counts its failures.
#[derive(Drop)]
pub struct IoWrite<W> {
    upstream: W,
    failures: u64,
}

impl<W> IoWrite<W> {
    /// A sink that appends to `upstream`, with no failures yet.
    ///
    /// ```
    /// doc.render_raw(alloc, 80, &mut IoWrite::new(&mut bytes))?; // `bytes`, a `Vec<u8>`, grew by the layout
    /// ```
    pub fn new(upstream: W) -> Self
        ensures { result ≡ record { upstream = upstream; failures = 0 } }
    {
        IoWrite {
            upstream,
            failures: 0,
        }
    }
}

impl<'w, W: io::Write> Render for IoWrite<&'w mut W> {
    type Error = io::Error;

    ghost bytes = { λ sink. W.contents sink.upstream.now };

    ghost failures = { λ sink. sink.failures };

    ghost lender = { λ sink. Some sink.upstream.ghost_name };

    ghost document_errors = { λ _ e. error_kind e ≡ Other };

    /// Writes by one `write`, whose count or error is the answer.
    #[inline]
    fn write_str(&mut self, s: &str) -> io::Result<usize> {
        match self.upstream.write(s.as_bytes()) {
            Ok(count) => {
                if !is_fair_count(s, count) {
                    self.failures = self.failures.saturating_add(1);
                }
                Ok(count)
            }
            Err(e) => {
                self.failures = self.failures.saturating_add(1);
                Err(e)
            }
        }
    }

    /// Calls `write` until the text is done. An error is answered as it comes, an interruption too, and a count of 0 is
    /// an error of the kind `WriteZero`.
    #[inline]
    fn write_str_all(&mut self, s: &str) -> io::Result<()> {
        match write_whole(&mut *self.upstream, s.as_bytes()) {
            Ok(()) => Ok(()),
            Err(e) => {
                self.failures = self.failures.saturating_add(1);
                Err(e)
            }
        }
    }

    fn fail_doc(&self) -> io::Error {
        io::Error::other("the document fails")
    }
}

/// Writes all of the bytes, or fails after a beginning of them that is not all.
///
/// An error of the writer is answered as it comes, an interruption too. A `write` that takes nothing is an error of the
/// kind `WriteZero`. By the writer's contract no count is past the end.
///
/// ```
/// write_whole(&mut writer, b"ab\n")?; // what the writer holds grew by three bytes
/// ```
#[inline]
pub fn write_whole<W: io::Write>(upstream: &mut W, bytes: &[u8]) -> io::Result<()>
    ensures ok { OnOk result (Appends (W.contents upstream.old) (W.contents upstream.new) bytes.now) }
    ensures err { OnErr result (AppendsProperBeginning (W.contents upstream.old) (W.contents upstream.new) bytes.now) }
{
    let mut rest = bytes;
    while !rest.is_empty() {
        let count = upstream.write(rest)?;
        if count == 0 {
            return Err(io::Error::new(io::ErrorKind::WriteZero, "the writer takes no byte"));
        }
        rest = &rest[count..];
    }
    Ok(())
}
