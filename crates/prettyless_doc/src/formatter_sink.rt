//! A sink over a formatter.
ghost use Rattle.std.specs.Prelude.{◌≡◌, [], ⊤, Some};
ghost use Rattle.prettyless_doc.specs.Streams.{Streams};

use crate::fact::{Fact, holds};
use prettyless_sink::ghost_bytes::GhostBytes;
use prettyless_sink::render::Render;
use std::fmt;
use std::snapshot::Snapshot;

/// A sink that passes each piece on to a borrowed formatter, whatever the formatter's options.
#[derive(Drop)]
pub struct FormatterSink<'f, W: fmt::Write> {
    formatter: &'f mut fmt::Formatter<W>,
    failures: u64,
    start: &'f Snapshot<fmt::Formatter<W>>,
    given: GhostBytes,
    // As long as no write failed, the formatter took what the sink was given since the start. There merely is a proof of that,
    // since a ghost field is a fact with at most one proof, and a writer's own relation need be none.
    ghost streams: { ∥ (failures ≡ 0 → Streams W.Write.write_str_gives start.now.value given.bytes formatter.now) ∥₁ },
}

/// The fact that a sink's ghost field knows.
struct Streamed;

impl<'f, W: fmt::Write> Fact<FormatterSink<'f, W>> for Streamed {
    ghost holds = { λ s. s.failures ≡ 0 → Streams W.Write.write_str_gives s.start.now.value s.given.bytes s.formatter.now };
}

impl<'f, W: fmt::Write> FormatterSink<'f, W> {
    /// A sink that was given nothing. It has not failed. The snapshot is of this formatter.
    ///
    /// ```
    /// let start = Snapshot::of(&*f);
    /// doc.render_raw_with(alloc, options, &mut FormatterSink::new(f, &start)) // `f` took the layout, piece by piece
    /// ```
    pub fn new(formatter: &'f mut fmt::Formatter<W>, start: &'f Snapshot<fmt::Formatter<W>>) -> Self
        requires { start.now.value ≡ formatter.old }
        ensures same_reference { result.formatter.ghost_name ≡ formatter.entry.ghost_name }
        ensures start { result.start.now.value ≡ formatter.old }
        ensures given { result.given.bytes ≡ [] }
        ensures failures { result.failures ≡ 0 }
    {
        FormatterSink {
            formatter,
            failures: 0,
            start,
            given: GhostBytes::of(b""),
        }
    }

    /// As long as no write failed, the formatter took what the sink was given. Only proofs gain by it.
    ///
    /// ```
    /// sink.streams(); // the formatter took the layout
    /// ```
    #[inline(always)]
    pub fn streams(&self)
        ensures { self.now.failures ≡ 0
            → Streams W.Write.write_str_gives self.now.start.now.value self.now.given.bytes self.now.formatter.now }
    {
        holds::<Self, Streamed>(self)
    }
}

impl<'f, W: fmt::Write> Render for FormatterSink<'f, W> {
    type Error = fmt::Error;

    ghost use Rattle.std.specs.contracts.fmt.Formatter as formatter;
    ghost use Rattle.prettyless_doc.specs.Ledger.{ledger};

    // The ledger, and not only the bytes that it was given: what a sink has stays the beginning of what it has later. So
    // after a render the owner knows that the start is the same.
    ghost bytes = { λ sink. Some (ledger (formatter.the_row W.row).coded sink.start.now.value sink.given.bytes) };

    ghost failures = { λ sink. sink.failures };

    ghost lender = { λ sink. Some sink.formatter.ghost_name };

    ghost document_errors = { λ _ _. ⊤ };

    /// Passes the whole text on, and answers its length.
    #[inline]
    fn write_str(&mut self, s: &str) -> Result<usize, fmt::Error> {
        self.write_str_all(s)?;
        Ok(s.len())
    }

    /// Passes the whole text on in one piece. Where the formatter fails, the failures rise by one.
    #[inline]
    fn write_str_all(&mut self, s: &str) -> fmt::Result {
        self.given = self.given.and(s.as_bytes());
        match self.formatter.write_str(s) {
            Ok(()) => Ok(()),
            Err(e) => {
                self.failures = self.failures.saturating_add(1);
                Err(e)
            }
        }
    }

    fn fail_doc(&self) -> fmt::Error {
        fmt::Error
    }
}
