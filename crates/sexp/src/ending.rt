use crate::error::RunError;

/// How the program ends where it doesn't write a whole layout.
#[derive(Clone, Copy, Debug, PartialEq, Eq)]
pub enum SexpEnd {
    /// The words ask for no layout.
    BadWords,
    /// The input is no S-expression.
    NotAnSexp,
    /// Reading, laying out or writing failed, or memory was refused.
    Failed,
}

impl SexpEnd {
    ghost use Rattle.std.specs.Prelude.{◌≡◌};
    ghost use Rattle.sexp.specs.Endings.{program_status, message_of};

    /// The status that the process ends with.
    pub fn status(self) -> u8
        ensures { result ≡ program_status self }
    {
        match self {
            SexpEnd::BadWords => 2,
            SexpEnd::NotAnSexp => 1,
            SexpEnd::Failed => 3,
        }
    }

    /// What standard error gets, without the end of a line.
    pub fn message(self) -> &'static str
        ensures { result.now ≡ message_of self }
    {
        match self {
            SexpEnd::BadWords => "usage: sexp WIDTH [crlf] [deferred]",
            SexpEnd::NotAnSexp => "error: not an S-expression",
            SexpEnd::Failed => "error: render failed",
        }
    }
}

impl From<RunError> for SexpEnd {
    ghost use Rattle.std.specs.Prelude.{◌≡◌};
    ghost use Rattle.sexp.specs.Endings.{ending_of};

    ghost from_gives = { λ error ending. ending ≡ ending_of error };

    fn from(error: RunError) -> SexpEnd {
        match error {
            RunError::NotAnSexp => SexpEnd::NotAnSexp,
            RunError::Memory(_) | RunError::Read(_) | RunError::Write(_) => SexpEnd::Failed,
        }
    }
}
