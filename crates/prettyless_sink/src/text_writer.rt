//! Text writers, and what is known of their text. This file knows no sinks.
ghost use Rattle.std.specs.Prelude.{◌≡◌, ◌+◌, ◌<◌, List, ℕ, Option, None, Some, OnOk, OnErr, length};
ghost use Rattle.std.specs.String.{string_bytes, string_len, string_capacity};
ghost use Rattle.std.specs.Io.KnownBytes.{Appends};
ghost use Rattle.prettyless_sink.specs.Sink.{AppendsKnownBeginning};

use std::alloc::Allocator;
use std::fmt;

/// A text writer whose contract says what a write appends: its piece, or a beginning of the piece where the write
/// fails.
///
/// `fmt::Write` says nothing of a write that fails, so a writer says it here, by an `impl` whose `write_text` is mostly
/// its `write_str`. A `fmt::Write` without one is written to through `OpaqueWriter`.
pub trait TextWriter {
    // the text written so far, where it is known
    ghost text: { Self → Option (List ℕ) } = { λ _. None };

    /// Appends a piece, or fails after a beginning of it.
    fn write_text(&mut self, piece: &str) -> fmt::Result
        ensures ok { OnOk result (Appends (text self.old) (text self.new) piece.now) }
        ensures err { OnErr result (AppendsKnownBeginning (text self.old) (text self.new) piece.now) };
}

impl<A: Allocator> TextWriter for String<A> {
    ghost text = { λ s. Some (string_bytes s) };

    /// Appends a piece. Where memory runs out the text stays as it was.
    #[inline]
    fn write_text(&mut self, piece: &str) -> fmt::Result
        ensures ok { OnOk result (Appends (Some (string_bytes self.old)) (Some (string_bytes self.new)) piece.now) }
        ensures err { OnErr result (AppendsKnownBeginning (Some (string_bytes self.old)) (Some (string_bytes self.new)) piece.now) }
        ensures unchanged { OnErr result (string_bytes self.new ≡ string_bytes self.old) }
        ensures full { OnErr result (string_capacity self.old < string_len self.old + length piece.now) }
    {
        // Most texts of one byte are punctuation: a byte is stored, where another text is moved by a call.
        match *piece.as_bytes() {
            [byte] if byte < 128 => match self.push(byte as char) {
                Ok(()) => Ok(()),
                Err(_) => Err(fmt::Error),
            },
            _ => match self.push_str(piece) {
                Ok(()) => Ok(()),
                Err(_) => Err(fmt::Error),
            },
        }
    }
}

impl<W: TextWriter> TextWriter for &mut W {
    ghost text = { λ w. W.text w.now };

    #[inline]
    fn write_text(&mut self, piece: &str) -> fmt::Result {
        TextWriter::write_text(&mut **self, piece)
    }
}

/// A text writer over any `fmt::Write`, of whose text nothing is known.
#[derive(Drop)]
pub struct OpaqueWriter<W>(pub W);

impl<W: fmt::Write> TextWriter for OpaqueWriter<W> {
    /// Passes the piece on. On success it did what the writer says of a write.
    #[inline]
    fn write_text(&mut self, piece: &str) -> fmt::Result
        ensures ok { OnOk result (Appends None None piece.now) }
        ensures err { OnErr result (AppendsKnownBeginning None None piece.now) }
        ensures given { OnOk result (W.write_str_gives self.old.0 piece.now self.new.0) }
    {
        self.0.write_str(piece)
    }
}
