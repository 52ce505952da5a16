//! Why the words of a program ask for nothing that is done.
use crate::action::WriteConflict;
use std::alloc::AllocError;

/// Why words ask for nothing that is done.
#[derive(Debug, Drop)]
pub enum RequestError {
    /// They are not words of the program, or ask for help or the version, or memory was refused. It has the text for the user.
    Words(clap::Error),
    /// Files are to be replaced, and to be compared alone.
    Conflict(WriteConflict),
}

impl From<clap::Error> for RequestError {
    ghost use Rattle.std.specs.Prelude.{◌≡◌};
    ghost use Rattle.formatter_files.specs.declared.request_error.RequestError.TheVariants.{Words};

    ghost from_gives = { λ error made. made ≡ Words error };

    fn from(error: clap::Error) -> RequestError {
        RequestError::Words(error)
    }
}

impl From<WriteConflict> for RequestError {
    ghost use Rattle.std.specs.Prelude.{◌≡◌};
    ghost use Rattle.formatter_files.specs.declared.request_error.RequestError.TheVariants.{Conflict};

    ghost from_gives = { λ conflict made. made ≡ Conflict conflict };

    fn from(conflict: WriteConflict) -> RequestError {
        RequestError::Conflict(conflict)
    }
}

impl From<AllocError> for RequestError {
    ghost use Rattle.formatter_files.specs.Faults.{IsOfWords, IsOutOfMemory};

    ghost from_gives = { λ _ made. IsOfWords IsOutOfMemory made };

    fn from(error: AllocError) -> RequestError {
        RequestError::Words(clap::Error::from(error))
    }
}
