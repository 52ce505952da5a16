//! What comes of a case.
ghost use Rattle.std.specs.Prelude.{⊤, None};

use crate::case::Case;
use crate::refusal::LineRefusal;
use crate::text::{labelled, push_word, word_of};
use prettyless_doc::DocPtr;
use prettyless_sink::error::RenderError;
use prettyless_sink::render::Render;
use prettyless_sink::visits::{RenderCost, Visits};
use std::alloc::{AllocError, Global};

/// Which nodes a render begins with.
#[derive(Clone, Copy)]
pub enum Over {
    Document,
    /// A table of all nodes of the document.
    Table,
}

/// What comes of a case: its layout, or what is written before the node that fails. It is the sink that takes that.
#[derive(Drop)]
pub struct WrittenLayout {
    alloc: Global,
    pub fails: bool,
    pub text: String,
    /// The pieces that it was given, as words in hexadecimal.
    pub pieces: String,
    pub visits: Visits,
}

impl WrittenLayout {
    fn take(&mut self, piece: &str) -> Result<(), AllocError> {
        self.text.push_str(piece)?;
        push_word(self.alloc, &mut self.pieces, piece)
    }

    /// The same in words: `ok` or `fail`, and the bytes.
    pub fn words(&self) -> Result<String, AllocError> {
        let label = if self.fails { "fail" } else { "ok" };
        let word = word_of(self.alloc, self.text.as_bytes())?;
        labelled(self.alloc, label, word.as_str())
    }
}

impl Render for WrittenLayout {
    type Error = AllocError;

    ghost bytes = { λ _. None };

    ghost failures = { λ _. 0 };

    ghost document_errors = { λ _ _. ⊤ };

    fn write_str(&mut self, s: &str) -> Result<usize, AllocError> {
        self.take(s)?;
        Ok(s.len())
    }

    fn fail_doc(&self) -> AllocError {
        AllocError
    }
}

/// What comes of a case over these nodes, and how many of them are visited.
pub fn laid_out<'a, T: DocPtr<'a>>(
    alloc: Global,
    over: Over,
    case: &Case<T>,
) -> Result<WrittenLayout, LineRefusal> {
    let mut layout = WrittenLayout {
        alloc,
        fails: false,
        text: String::new(alloc),
        pieces: String::new(alloc),
        visits: Visits::default(),
    };
    let (document, options, mut cost) = (case.document.doc(), case.options, RenderCost::default());
    let ending = match over {
        Over::Document => {
            document.render_raw_observed_with(alloc, options, &mut layout, &mut cost)
        }
        Over::Table => {
            document.render_raw_counted_with(alloc, options, &mut layout, &mut cost.visits)
        }
    };
    layout.visits = cost.visits;
    match ending {
        // A table was refused memory, which the call over a table does not say.
        _ if cost.refused > 0 => return Err(LineRefusal::OutOfMemory),
        Ok(()) => {}
        Err(RenderError::Document(_)) => layout.fails = true,
        Err(_) => return Err(LineRefusal::OutOfMemory),
    }
    Ok(layout)
}
