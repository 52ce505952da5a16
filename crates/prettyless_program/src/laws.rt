//! Laws of programs, over the definitions alone.
ghost use Rattle.prettyless_program.specs.Laws.{EachHasAProgram, WriteAtMostOne};

/// Bytes write at most one document.
pub fn law_one_document()
    ensures { WriteAtMostOne }
{}

/// A document has a program, which `encode` names, if three things hold. Every number is a value of its type, every
/// payload holds LF or CR, and every text is UTF-8 of fewer than 2^32 bytes.
pub fn law_program()
    ensures { EachHasAProgram }
{}
