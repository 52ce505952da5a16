ghost use Rattle.std.specs.Prelude.{◌≡◌};
ghost use Rattle.prettyless_program.specs.declared.fault.ProgramFault.TheVariants.{Memory};

use prettyless_doc::BuildError;
use std::alloc::{AllocError, AllocFailed};

/// The error of bytes that were not read as a document.
#[derive(Clone, Copy, Debug, PartialEq, Eq)]
pub enum ProgramFault {
    /// Memory ran out. That says nothing of the bytes.
    Memory,
    /// A byte begins no instruction.
    Instruction,
    /// The bytes end inside an instruction.
    Operand,
    /// A text is not UTF-8.
    Text,
    /// An instruction takes more documents than were made since a sequence was opened last.
    Document,
    /// A sequence is closed that was not opened.
    Unopened,
    /// A sequence is open at the end.
    Unclosed,
}

impl From<AllocError> for ProgramFault {
    ghost from_gives = { λ _ fault. fault ≡ Memory };

    fn from(_error: AllocError) -> ProgramFault {
        ProgramFault::Memory
    }
}

impl<T: Drop> From<AllocFailed<T>> for ProgramFault {
    ghost from_gives = { λ _ fault. fault ≡ Memory };

    fn from(_error: AllocFailed<T>) -> ProgramFault {
        ProgramFault::Memory
    }
}

impl From<BuildError> for ProgramFault {
    ghost from_gives = { λ _ fault. fault ≡ Memory };

    // Nothing here prints a value, so a node is refused only where memory is refused.
    fn from(_error: BuildError) -> ProgramFault {
        ProgramFault::Memory
    }
}
