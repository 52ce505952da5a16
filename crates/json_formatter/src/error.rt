ghost use Rattle.std.specs.Prelude.{◌≡◌};
ghost use Rattle.json_formatter.specs.declared.error.FormatError.TheVariants.{Memory};

use std::alloc::AllocError;
use std::io;

/// Why a text was not formatted.
#[derive(Debug, Drop)]
pub enum FormatError {
    /// The text is not JSON, or its lists are more than 100,000 deep in one another.
    NotJson,
    /// The text is JSON, and its lists are deeper in one another than the style allows.
    TooDeep,
    /// Memory was refused. Nothing was written.
    Memory(AllocError),
    /// The layout could not be written to its end. A beginning was written.
    Write(io::Error),
}

impl From<AllocError> for FormatError {
    ghost from_gives = { λ e r. r ≡ Memory e };

    fn from(error: AllocError) -> FormatError {
        FormatError::Memory(error)
    }
}
