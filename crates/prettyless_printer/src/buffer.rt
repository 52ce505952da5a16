//! The text that open trials write to. It is a sink, and knows no nodes.
ghost use Rattle.std.specs.Prelude.{⊤, ◌≡◌, [], take, Some};
ghost use Rattle.std.specs.String.{string_bytes};
ghost use Rattle.std.specs.String.Boundary.{IsSplitPoint};

use prettyless_sink::render::Render;
use std::alloc::{AllocError, Global};

/// What open trials write to: one text for all of them, which is cut back to where a trial began if it is rejected.
#[derive(Drop)]
pub struct Buffer {
    /// What open trials wrote, from where the outermost one began.
    pub text: String,
    /// How often memory for a write was refused. It stops at the greatest `u64`.
    pub failures: u64,
}

impl Buffer {
    /// An empty one, which never failed. It takes no memory.
    pub fn new(alloc: Global) -> Self
        ensures empty { string_bytes result.text ≡ [] }
        ensures failures { result.failures ≡ 0 }
    {
        Buffer {
            text: String::new(alloc),
            failures: 0,
        }
    }

    /// Cuts its text back to so many bytes.
    pub(crate) fn cut_to(&mut self, written: usize)
        requires { IsSplitPoint (string_bytes self.old.text) written }
        ensures text { string_bytes self.new.text ≡ take written (string_bytes self.old.text) }
        ensures failures { self.new.failures ≡ self.old.failures }
    {
        self.text.truncate(written);
    }
}

impl Render for Buffer {
    type Error = AllocError;

    ghost bytes = { λ b. Some (string_bytes b.text) };

    ghost failures = { λ b. b.failures };

    ghost document_errors = { λ _ _. ⊤ };

    fn write_str(&mut self, s: &str) -> Result<usize, AllocError> {
        self.write_str_all(s)?;
        Ok(s.len())
    }

    fn write_str_all(&mut self, s: &str) -> Result<(), AllocError> {
        match self.text.push_str(s) {
            Ok(()) => Ok(()),
            Err(e) => {
                self.failures = self.failures.saturating_add(1);
                Err(e)
            }
        }
    }

    fn fail_doc(&self) -> AllocError {
        AllocError
    }
}
