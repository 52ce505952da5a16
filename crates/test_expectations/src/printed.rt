//! A value that prints what a test wants.
use std::fmt;

/// Prints pieces, whatever the writes answer, and then fails or ends well.
#[derive(Drop)]
pub struct PrintedPieces {
    /// What is printed, a write for each.
    pub pieces: &'static [&'static str],
    /// Whether the value fails then.
    pub fails: bool,
}

impl fmt::Display for PrintedPieces {
    fn fmt<W: fmt::Write>(&self, f: &mut fmt::Formatter<W>) -> fmt::Result {
        for piece in self.pieces {
            let _ = f.write_str(piece);
        }
        if self.fails { Err(fmt::Error) } else { Ok(()) }
    }
}

/// What cannot be printed.
pub fn failing() -> PrintedPieces {
    PrintedPieces {
        pieces: &[],
        fails: true,
    }
}
