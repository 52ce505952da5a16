//! The trait of sinks: what a write appends, and how failures are counted. It knows no documents.
ghost use Rattle.std.specs.Prelude.{◌≡◌, ◌⊎◌, ◌↔◌, IsTrue, ℕ, List, Option, None, IfOk, OnOk, OnErr};
ghost use Rattle.std.specs.Borrow.{GName};
ghost use Rattle.prettyless_sink.specs.Sink.{Accepts, IsFairCount, Refuses, AcceptsCount};

/// A sink, to which a layout is written in pieces.
///
/// A write appends what it answers and leaves the failures, or it appends a beginning of its text and the failures rise
/// by one (at their greatest value they stay). That is promised where the sink's bytes are known.
pub trait Render {
    /// The error of the sink, or of the document.
    type Error;

    // the bytes written so far, where they are known
    ghost bytes: { Self → Option (List ℕ) };

    // how often it failed, at most the greatest `u64`
    ghost failures: { Self → ℕ };

    // the reference that the sink writes through, if it has one: that stays, so its owner knows what was written
    ghost lender: { Self → Option GName } = { λ _. None };

    // the errors that `fail_doc` may answer
    ghost document_errors: { Self → Self.Error → Type 0 };

    // the errors that `write_fault` may answer besides
    ghost fault_errors: { Self → Self.Error → Type 0 } = { λ _ _. ⊥ };

    /// Writes a beginning of the text, and answers its length in bytes.
    ///
    /// It fails by an error, and by a count that is 0 for a text that is not empty, past the text's end or inside a
    /// character. A beginning of the text is written then too.
    fn write_str(&mut self, s: &str) -> Result<usize, Self::Error>
        ensures same_lender { lender self.new ≡ lender self.old }
        ensures ok { IfOk result (λ count.
            AcceptsCount (bytes self.old) (bytes self.new) s.now count (failures self.old) (failures self.new)) }
        ensures err { OnErr result (Refuses (bytes self.old) (bytes self.new) s.now (failures self.old) (failures self.new)) };

    /// Writes the whole text, or fails after a beginning of it.
    ///
    /// Where a sink has none of its own, it calls `write_str` until the text is done, and for an empty text not at all.
    /// An error is answered as it comes, and a count that fails is `write_fault`.
    fn write_str_all(&mut self, s: &str) -> Result<(), Self::Error>
        ensures same_lender { lender self.new ≡ lender self.old }
        ensures ok { OnOk result (Accepts (bytes self.old) (bytes self.new) s.now (failures self.old) (failures self.new)) }
        ensures err { OnErr result (Refuses (bytes self.old) (bytes self.new) s.now (failures self.old) (failures self.new)) }
    {
        let mut rest = s;
        while !rest.is_empty() {
            let count = self.write_str(rest)?;
            if !is_fair_count(rest, count) {
                return Err(self.write_fault());
            }
            rest = &rest[count..];
        }
        Ok(())
    }

    /// The error that says that the document fails. It changes nothing.
    fn fail_doc(&self) -> Self::Error
        ensures { document_errors self.now result };

    /// The error that says that `write_str` answered a count that fails. It changes nothing.
    fn write_fault(&self) -> Self::Error
        ensures { document_errors self.now result ⊎ fault_errors self.now result }
    {
        self.fail_doc()
    }
}

/// Whether `count` bytes of the text end between two characters, and are more than 0 unless the text is empty.
#[inline]
pub fn is_fair_count(text: &str, count: usize) -> bool
    ensures { IsTrue result ↔ IsFairCount text.now count }
{
    (count > 0 || text.is_empty()) && text.is_char_boundary(count)
}
