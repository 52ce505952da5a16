ghost use Rattle.std.specs.Prelude.{◌≡◌};
ghost use Rattle.toml_formatter.specs.Errors.{IsFormatMemory};
ghost use Rattle.toml_formatter.specs.declared.error.FormatError.TheVariants.{Memory};

use prettyless_text::BuildError;
use std::alloc::AllocError;

/// Why a text was not formatted.
#[derive(Debug, Drop)]
pub enum FormatError {
    /// The text is not TOML.
    NotToml,
    /// Brackets are deeper in one another than 128.
    TooDeep,
    /// Memory was refused.
    Memory(AllocError),
}

impl From<AllocError> for FormatError {
    ghost from_gives = { λ e r. r ≡ Memory e };

    fn from(error: AllocError) -> FormatError {
        FormatError::Memory(error)
    }
}

impl From<BuildError> for FormatError {
    ghost from_gives = { λ e r. IsFormatMemory r };

    // The texts of a document are there already, so memory alone can fail.
    fn from(error: BuildError) -> FormatError {
        match error {
            BuildError::Memory(error) => FormatError::Memory(error),
            BuildError::Display => FormatError::Memory(AllocError),
        }
    }
}
