//! Why a run stops.

use prettyless::RenderError;
use prettyless::text::BuildError;
use std::alloc::AllocError;
use std::{fmt, io};

/// Why a run stopped.
#[derive(Debug, Drop)]
pub enum Failure {
    /// The words ask for nothing.
    Words,
    /// A document was not built.
    Build(BuildError),
    /// A document was not laid out.
    Render(RenderError<fmt::Error>),
    /// Memory was refused for something else.
    Memory(AllocError),
    /// The words or the clock could not be read, or a line was not written.
    System(io::Error),
}

impl Failure {
    /// What standard error gets.
    pub fn message(&self) -> &'static str {
        match self {
            Failure::Words => "usage: bench [sizes | time [WORKLOAD] | wide WORKLOAD]",
            Failure::Build(_) => "error: a document was not built",
            Failure::Render(_) => "error: a document was not laid out",
            Failure::Memory(_) => "error: out of memory",
            Failure::System(_) => "error: the system refused",
        }
    }

    /// The status that `bench` ends with.
    pub fn status(&self) -> u8 {
        match self {
            Failure::Words => 2,
            _ => 1,
        }
    }
}

impl From<BuildError> for Failure {
    fn from(error: BuildError) -> Failure {
        Failure::Build(error)
    }
}

impl From<RenderError<fmt::Error>> for Failure {
    fn from(error: RenderError<fmt::Error>) -> Failure {
        Failure::Render(error)
    }
}

impl From<AllocError> for Failure {
    fn from(error: AllocError) -> Failure {
        Failure::Memory(error)
    }
}

impl From<io::Error> for Failure {
    fn from(error: io::Error) -> Failure {
        Failure::System(error)
    }
}
