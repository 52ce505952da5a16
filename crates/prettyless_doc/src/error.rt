//! One error for what builds and renders.
ghost use Rattle.std.specs.Prelude.{◌≡◌, alloc_error};
ghost use Rattle.prettyless_doc.specs.declared.error.PrettyError.TheVariants.{Build, Render};
ghost use Rattle.prettyless_text.specs.declared.text.BuildError.TheVariants.{Memory};

use crate::text::BuildError;
use prettyless_sink::error::RenderError;
use std::alloc::{AllocError, AllocFailed};
use std::error::Error;
use std::fmt;

/// The error of a function that builds a document and renders it. `?` makes it of either error, and of `AllocError`.
#[derive(Debug, Drop)]
pub enum PrettyError<E> {
    /// The document was not built.
    Build(BuildError),
    /// The document was built, and its render stopped.
    Render(RenderError<E>),
}

impl<E> From<BuildError> for PrettyError<E> {
    ghost from_gives = { λ error made. made ≡ Build error };

    fn from(error: BuildError) -> PrettyError<E> {
        PrettyError::Build(error)
    }
}

impl<E> From<RenderError<E>> for PrettyError<E> {
    ghost from_gives = { λ error made. made ≡ Render error };

    fn from(error: RenderError<E>) -> PrettyError<E> {
        PrettyError::Render(error)
    }
}

impl<E> From<AllocError> for PrettyError<E> {
    ghost from_gives = { λ error made. made ≡ Build (Memory error) };

    fn from(error: AllocError) -> PrettyError<E> {
        PrettyError::Build(BuildError::Memory(error))
    }
}

impl<E, T: Drop> From<AllocFailed<T>> for PrettyError<E> {
    ghost from_gives = { λ _ made. made ≡ Build (Memory alloc_error) };

    fn from(error: AllocFailed<T>) -> PrettyError<E> {
        PrettyError::Build(BuildError::Memory(AllocError::from(error)))
    }
}

/// Writes the sentence of the error that it holds.
impl<E: fmt::Display> fmt::Display for PrettyError<E> {
    fn fmt<W: fmt::Write>(&self, f: &mut fmt::Formatter<W>) -> fmt::Result {
        match self {
            PrettyError::Build(cause) => write!(f, "{cause}"),
            PrettyError::Render(cause) => write!(f, "{cause}"),
        }
    }
}

impl<E: fmt::Debug + fmt::Display + Drop> Error for PrettyError<E> {}
