//! How a program that formats files ends.
ghost use Rattle.std.specs.Prelude.{◌≡◌, max};
ghost use Rattle.formatter_files.specs.Endings.{ending_after, status_of};

use clap::error::ErrorKind;

/// How a file, or all of them, came out.
#[derive(Clone, Copy, Debug, Drop, PartialEq, Eq)]
pub enum Ending {
    /// Each was laid out, or is as it would be.
    Good,
    /// One is not a text that is laid out, or is not as it would be laid out.
    Refused,
    /// The words ask for nothing.
    BadWords,
    /// One was not read, or its layout was not written.
    Failed,
}

impl Ending {
    /// The status that the process ends with.
    pub fn status(self) -> u8
        ensures { result ≡ status_of self }
    {
        match self {
            Ending::Good => 0,
            Ending::Refused => 1,
            Ending::BadWords => 2,
            Ending::Failed => 3,
        }
    }

    /// How the program ends where the words gave an error of this kind.
    pub fn after(kind: ErrorKind) -> Ending
        ensures { result ≡ ending_after kind }
    {
        match kind {
            ErrorKind::DisplayHelp | ErrorKind::DisplayVersion => Ending::Good,
            ErrorKind::OutOfMemory => Ending::Failed,
            _ => Ending::BadWords,
        }
    }

    /// The worse of two endings.
    pub fn and(self, other: Ending) -> Ending
        ensures { status_of result ≡ max (status_of self) (status_of other) }
    {
        if self.status() < other.status() {
            other
        } else {
            self
        }
    }
}
