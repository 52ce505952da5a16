//! Whether what is written is one text.
ghost use Rattle.std.specs.Prelude.{◌≡◌, ◌≤◌, ◌++◌, ◌↔◌, Some, OnOk, OnErr, IsTrue, drop, length, take};
ghost use Rattle.std.specs.Io.{WritesAtMost};
ghost use Rattle.std.specs.Io.KnownBytes.{Keeps, WriteAppends};
ghost use Rattle.formatter_files.specs.Comparing.{compared_account};

use std::io;
use std::io::{ErrorKind, Write};

/// A writer that compares what is written with a text, and keeps nothing of it. A write fails where its bytes are not those that
/// come next in the text.
#[derive(Drop)]
pub struct Comparing<'t> {
    text: &'t [u8],
    /// How many bytes of the text were written.
    count: usize,
    pub ghost within: { count ≤ length text.now },
}

impl<'t> Comparing<'t> {
    /// A writer that compares with this text, and to which nothing is written yet.
    pub fn new(text: &'t [u8]) -> Comparing<'t>
        ensures text { result.text.now ≡ text.entry.now }
        ensures count { result.count ≡ 0 }
    {
        Comparing { text, count: 0 }
    }

    /// What was written: a beginning of the text.
    pub fn written(&self) -> &'t [u8]
        ensures { result.now ≡ take self.now.count self.now.text.now }
    {
        &self.text[..self.count]
    }

    /// Whether the whole text was written.
    pub fn is_whole(&self) -> bool
        ensures { IsTrue result ↔ (self.now.count ≡ length self.now.text.now) }
    {
        self.count == self.text.len()
    }
}

impl Write for Comparing<'_> {
    ghost contents = { λ c. Some (compared_account c.text.now c.count) };

    /// Takes the bytes if they come next in the text, or fails.
    fn write(&mut self, buf: &[u8]) -> io::Result<usize>
        ensures bound { WritesAtMost result buf.now }
        ensures bytes { WriteAppends (Some (compared_account self.old.text.now self.old.count))
            (Some (compared_account self.new.text.now self.new.count)) result buf.now }
        ensures text { self.new.text.now ≡ self.old.text.now }
        ensures next { OnOk result (take self.new.count self.new.text.now ≡ take self.old.count self.old.text.now ++ buf.now) }
        ensures other { OnErr result ((rest : _) → drop self.old.count self.old.text.now ≡ buf.now ++ rest → ⊥) }
    {
        if !self.text[self.count..].starts_with(buf) {
            return Err(io::Error::from(ErrorKind::InvalidData));
        }
        self.count += buf.len();
        Ok(buf.len())
    }

    fn flush(&mut self) -> io::Result<()>
        ensures bytes { Keeps (Some (compared_account self.old.text.now self.old.count))
            (Some (compared_account self.new.text.now self.new.count)) }
        ensures ok { self.new.text.now ≡ self.old.text.now }
    {
        Ok(())
    }
}
