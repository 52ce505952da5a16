ghost use Rattle.std.specs.Prelude.{◌≡◌, alloc_error};
ghost use Rattle.sexp.specs.declared.error.RunError.TheVariants.{Memory};

use prettyless::text::BuildError;
use std::alloc::{AllocError, AllocFailed};
use std::io;

/// Why a run stopped.
#[derive(Debug, Drop)]
pub enum RunError {
    /// The input is no S-expression.
    NotAnSexp,
    /// Memory was refused.
    Memory(AllocError),
    /// The input could not be read to its end.
    Read(io::Error),
    /// The layout could not be written to its end.
    Write(io::Error),
}

impl From<AllocError> for RunError {
    ghost from_gives = { λ e r. r ≡ Memory e };

    fn from(error: AllocError) -> RunError {
        RunError::Memory(error)
    }
}

impl<T: Drop> From<AllocFailed<T>> for RunError {
    ghost from_gives = { λ _ r. r ≡ Memory alloc_error };

    fn from(error: AllocFailed<T>) -> RunError {
        RunError::Memory(AllocError::from(error))
    }
}

impl From<BuildError> for RunError {
    ghost from_gives = { λ _ r. r ≡ Memory alloc_error };

    // A document of numbers and lists is refused only where memory is refused.
    fn from(error: BuildError) -> RunError {
        match error {
            BuildError::Memory(error) => RunError::Memory(error),
            BuildError::Display => RunError::Memory(AllocError),
        }
    }
}
