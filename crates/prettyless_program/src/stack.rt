//! What was made so far.
ghost use Rattle.std.specs.Prelude.{◌≡◌, ◌∷◌, [], ◌<◌, length, IfOk, IfErr, IfSome, IfNone, OnSome};
ghost use Rattle.prettyless_program.specs.Faults.{HasNoDocument};
ghost use Rattle.prettyless_program.specs.Made.{entry_item, items_of_entries};
ghost use Rattle.prettyless_program.specs.Programs as programs;
ghost use Rattle.prettyless_program.specs.Programs.{gathered};
ghost use Rattle.prettyless_program.specs.declared.fault.ProgramFault.TheVariants.{Document as NoDocument, Memory};

use crate::fault::ProgramFault;
use prettyless_doc::{Doc, DocPlace, DocPtr};

/// A document, or where a sequence was opened.
#[derive(Drop)]
pub enum StackEntry<T> {
    /// A document.
    Document(T),
    /// Where a sequence was opened.
    Opened,
}

/// What comes of the last entries: the documents one after the other, and whether a sequence was opened before them.
#[derive(Drop)]
pub struct Gathered<T> {
    /// The documents, one after the other: nothing if there is none.
    pub document: T,
    /// Whether a sequence was opened before them.
    pub opened: bool,
}

/// Takes the last entry.
#[inline(always)]
#[tactic(auto, using(crate::proofs::Items::items_of_push))]
fn take<'a, T: DocPtr<'a>>(entries: &mut Vec<StackEntry<T>>) -> Option<StackEntry<T>>
    ensures some { IfSome result (λ e. items_of_entries T.tree entries.old.items ≡ entry_item T.tree e
        ∷ items_of_entries T.tree entries.new.items) }
    ensures none { IfNone result ((items_of_entries T.tree entries.old.items ≡ []) × (items_of_entries T.tree entries.new.items ≡ [])) }
    ensures fewer { OnSome result (length entries.new.items < length entries.old.items) }
{
    entries.pop()
}

/// Takes the last document of the innermost open sequence.
///
/// `ProgramFault::Document` where it has none. Nothing is promised of the entries then.
#[inline(always)]
pub fn pop<'a, T: DocPtr<'a>>(entries: &mut Vec<StackEntry<T>>) -> Result<T, ProgramFault>
    ensures ok { IfOk result (λ d. items_of_entries T.tree entries.old.items ≡ programs.Document (T.tree d)
        ∷ items_of_entries T.tree entries.new.items) }
    ensures err { IfErr result (λ fault. (fault ≡ NoDocument) × HasNoDocument (items_of_entries T.tree entries.old.items)) }
{
    match take(entries) {
        Some(StackEntry::Document(document)) => Ok(document),
        _ => Err(ProgramFault::Document),
    }
}

/// Takes the documents of the innermost open sequence, one after the other, and what opened it.
///
/// `ProgramFault::Memory` if memory runs out. Nothing is promised of the entries then.
pub fn gather<'a, D: DocPlace<'a>>(
    place: &'a D,
    entries: &mut Vec<StackEntry<D::Doc>>,
) -> Result<Gathered<D::Doc>, ProgramFault>
    ensures ok { IfOk result (λ all. gathered (items_of_entries D.Doc.tree entries.old.items)
        ≡ record { tree = D.Doc.tree all.document; opened = all.opened; rest = items_of_entries D.Doc.tree entries.new.items }) }
    ensures err { IfErr result (λ fault. fault ≡ Memory) }
{
    let mut document = match take(entries) {
        Some(StackEntry::Document(document)) => document,
        Some(StackEntry::Opened) => return Ok(Gathered {
            document: place.alloc(Doc::Nil)?,
            opened: true,
        }),
        None => return Ok(Gathered {
            document: place.alloc(Doc::Nil)?,
            opened: false,
        }),
    };
    loop {
        match take(entries) {
            Some(StackEntry::Document(before)) => document = place.alloc(Doc::Append(
                before, document,
            ))?,
            Some(StackEntry::Opened) => return Ok(Gathered {
                document,
                opened: true,
            }),
            None => return Ok(Gathered {
                document,
                opened: false,
            }),
        }
    }
}
