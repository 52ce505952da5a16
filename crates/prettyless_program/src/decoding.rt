//! From a program to its document.
ghost use Rattle.std.specs.Prelude.{◌≡◌, [], Some, IfOk, IfErr};
ghost use Rattle.prettyless_program.specs.Faults.{RefusesProgram, Stops};
ghost use Rattle.prettyless_program.specs.Made.{items_of_entries};
ghost use Rattle.prettyless_program.specs.Programs.{whole, WritesDocument};

use crate::fault::ProgramFault;
use crate::making::follow;
use crate::reader::Reader;
use crate::stack::{StackEntry, gather};
use prettyless_doc::DocPlace;

/// The one document that is left at the end.
fn whole<'a, D: DocPlace<'a>>(
    place: &'a D,
    entries: &mut Vec<StackEntry<D::Doc>>,
) -> Result<D::Doc, ProgramFault>
    ensures ok { IfOk result (λ p. whole (items_of_entries D.Doc.tree entries.old.items) ≡ Some (D.Doc.tree p)) }
    ensures err { IfErr result (λ fault. Stops fault [] (items_of_entries D.Doc.tree entries.old.items)) }
{
    let gathered = gather(place, entries)?;
    if gathered.opened {
        return Err(ProgramFault::Unclosed);
    }
    Ok(gathered.document)
}

/// The document that a program writes. Its nodes are allocated by `place`, and its texts are those of the program.
///
/// A fault other than `Memory` comes only where the bytes write no document, and says why.
///
/// ```
/// decode(place, &[3])? // "\n"
/// ```
#[tactic(auto, using(crate::proofs::Reaching::reaching))]
pub fn decode<'a, D: DocPlace<'a>>(place: &'a D, program: &'a [u8]) -> Result<D::Doc, ProgramFault>
    ensures ok { IfOk result (λ p. WritesDocument program.now (D.Doc.tree p)) }
    ensures err { IfErr result (λ fault. RefusesProgram fault program.now) }
{
    let mut reader = Reader { rest: program };
    let mut entries: Vec<StackEntry<D::Doc>> = Vec::new(place.memory());
    while let Some(instruction) = reader.next()? {
        follow(place, instruction, &mut entries)?;
    }
    whole(place, &mut entries)
}
