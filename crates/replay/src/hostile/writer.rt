//! A writer of which one call goes wrong: a sink, a byte writer and a text writer.
ghost use Rattle.std.specs.Prelude.{⊤, None};

use prettyless_sink::render::Render;
use std::io::ErrorKind;
use std::{fmt, io};

/// What the call does that goes wrong.
#[derive(Clone, Copy, Debug)]
pub enum Wrong {
    Refuses,
    IsInterrupted,
    TakesByteAndRefuses,
    TakesNothing,
    CountsOneMore,
    CountsAll,
}

impl Wrong {
    // The bytes that it counts of so many, or the error that it answers.
    fn answer(self, length: usize) -> (usize, Option<io::Error>) {
        match self {
            Wrong::Refuses => (0, Some(io::Error::from(ErrorKind::StorageFull))),
            Wrong::IsInterrupted => (0, Some(io::Error::from(ErrorKind::Interrupted))),
            Wrong::TakesByteAndRefuses => (1, Some(io::Error::from(fmt::Error))),
            Wrong::TakesNothing => (0, None),
            Wrong::CountsOneMore => (length.saturating_add(1), None),
            Wrong::CountsAll => (usize::MAX, None),
        }
    }
}

/// A writer that is to be given a text, and of which one call goes wrong.
#[derive(Drop)]
pub struct Writer<'t> {
    // The most bytes that it takes at a time. Inside a character that is a wrong count of a sink.
    most: usize,
    wrong: Wrong,
    // The call that is to go wrong.
    number: usize,
    pub calls: usize,
    /// What it was not given yet.
    pub rest: &'t [u8],
    /// The error of the call that failed.
    pub error: Option<io::Error>,
    /// Whether it was given something else than the text, or called after a call that failed.
    pub is_astray: bool,
}

impl<'t> Writer<'t> {
    /// A writer that was given nothing of the text, and of which the call of this number is to go wrong.
    pub fn new(text: &'t [u8], most: usize, wrong: Wrong, number: usize) -> Self {
        Writer {
            most,
            wrong,
            number,
            calls: 0,
            rest: text,
            error: None,
            is_astray: false,
        }
    }

    /// Whether it took all of the text, and no call failed.
    pub fn is_done(&self) -> bool {
        self.rest.is_empty() && self.error.is_none() && !self.is_astray
    }

    /// Whether it took a beginning of the text, and its last call failed by an error of this kind.
    pub fn has_failed(&self, kind: ErrorKind) -> bool {
        self.error.is_some_and(|error| error.kind() == kind) && !self.is_astray
    }

    // Takes a part of a piece: how many bytes it counts. A count that is not fair fails.
    fn take(&mut self, piece: &[u8]) -> io::Result<usize> {
        self.calls = self.calls.saturating_add(1);
        let (count, error) = if self.calls == self.number {
            self.wrong.answer(piece.len())
        } else {
            (piece.len().min(self.most), None)
        };
        match self.rest.strip_prefix(&piece[..count.min(piece.len())]) {
            Some(rest) if self.error.is_none() => self.rest = rest,
            _ => self.is_astray = true,
        }
        self.error = error;
        match error {
            Some(error) => Err(error),
            None => Ok(count),
        }
    }

    // Notes that a count fails.
    fn check(&mut self, is_fair: bool) {
        if !is_fair {
            self.error = Some(io::Error::from(ErrorKind::WriteZero));
        }
    }
}

impl Render for Writer<'_> {
    type Error = io::Error;

    ghost bytes = { λ _. None };

    ghost failures = { λ _. 0 };

    ghost document_errors = { λ _ _. ⊤ };

    fn write_str(&mut self, s: &str) -> io::Result<usize> {
        let count = self.take(s.as_bytes())?;
        self.check(count > 0 && s.is_char_boundary(count));
        Ok(count)
    }

    fn fail_doc(&self) -> io::Error {
        io::Error::from(ErrorKind::Other)
    }

    fn write_fault(&self) -> io::Error {
        io::Error::from(ErrorKind::WriteZero)
    }
}

impl io::Write for Writer<'_> {
    fn write(&mut self, buf: &[u8]) -> io::Result<usize> {
        let count = self.take(buf)?.min(buf.len());
        self.check(count > 0);
        Ok(count)
    }

    fn flush(&mut self) -> io::Result<()> {
        Ok(())
    }
}

impl fmt::Write for Writer<'_> {
    fn write_str(&mut self, s: &str) -> fmt::Result {
        match self.take(s.as_bytes()) {
            Ok(_) => Ok(()),
            Err(_) => Err(fmt::Error),
        }
    }
}
