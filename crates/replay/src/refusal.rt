use crate::case_part::CasePart;
use hex::FromHexError;
use prettyless_doc::text::BuildError;
use std::alloc::{AllocError, AllocFailed};

/// Why a line has no outcome.
#[derive(Drop)]
pub enum LineRefusal {
    /// It writes no case: what was expected.
    NotACase(CasePart),
    /// Memory was refused.
    OutOfMemory,
    /// Its case comes out otherwise than it states, or than it has to: how it does.
    Differs(String),
}

impl From<CasePart> for LineRefusal {
    fn from(expected: CasePart) -> LineRefusal {
        LineRefusal::NotACase(expected)
    }
}

impl From<AllocError> for LineRefusal {
    fn from(_error: AllocError) -> LineRefusal {
        LineRefusal::OutOfMemory
    }
}

impl<T: Drop> From<AllocFailed<T>> for LineRefusal {
    fn from(_error: AllocFailed<T>) -> LineRefusal {
        LineRefusal::OutOfMemory
    }
}

impl From<BuildError> for LineRefusal {
    // A node is refused only where memory is refused.
    fn from(_error: BuildError) -> LineRefusal {
        LineRefusal::OutOfMemory
    }
}

impl From<FromHexError> for LineRefusal {
    fn from(error: FromHexError) -> LineRefusal {
        match error {
            FromHexError::OutOfMemory => LineRefusal::OutOfMemory,
            _ => LineRefusal::NotACase(CasePart::Text),
        }
    }
}
