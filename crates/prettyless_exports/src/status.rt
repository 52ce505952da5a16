//! How a call ended, and its number.
ghost use Rattle.std.specs.Prelude.{◌≡◌};
ghost use Rattle.prettyless_exports.specs.Numbers.{number_of};

use crate::text::Put;
use prettyless_program::ProgramFault;

/// How a call ended.
#[derive(Clone, Copy, Debug, PartialEq, Eq)]
pub enum Status {
    /// The area holds the layout, or a beginning of it.
    LaidOut(Put),
    /// Memory ran out. Of the layout of a program, the area holds a beginning of `written` bytes, and of a text's none.
    Memory,
    /// The layout of a program's document fails. The area holds the bytes before the node that fails, as far as there is room:
    /// `written` of them.
    Fails,
    /// The bytes are not a JSON text.
    NotJson,
    /// The bytes are not a TOML text, or brackets are too deep in one another.
    NotToml,
    /// The bytes were not read as a document. The area is as it was, and `written` is 0.
    Refused(ProgramFault),
}

impl Status {
    /// The number that a caller in another language gets. Numbers are for ever: new ones may come, and none changes.
    pub fn number(self) -> u32
        ensures { result ≡ number_of self }
    {
        match self {
            Status::LaidOut(Put::Whole) => 0,
            Status::LaidOut(Put::Beginning) => 1,
            Status::Memory | Status::Refused(ProgramFault::Memory) => 2,
            Status::Fails => 3,
            Status::LaidOut(Put::PastLimit) => 4,
            Status::NotJson => 5,
            Status::NotToml => 6,
            Status::Refused(ProgramFault::Instruction) => 16,
            Status::Refused(ProgramFault::Operand) => 17,
            Status::Refused(ProgramFault::Text) => 18,
            Status::Refused(ProgramFault::Document) => 19,
            Status::Refused(ProgramFault::Unopened) => 20,
            Status::Refused(ProgramFault::Unclosed) => 21,
        }
    }
}
