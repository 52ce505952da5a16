//! The document that an instruction makes.
ghost use Rattle.std.specs.Prelude.{◌≡◌, ◌∷◌, ◌++◌, ℕ, List, Some, OnOk, IfOk, IfErr};
ghost use Rattle.prettyless_program.specs.Faults.{Stops};
ghost use Rattle.prettyless_program.specs.Made.{instruction_of, entry_item, items_of_entries};
ghost use Rattle.prettyless_program.specs.Instructions.{Close};
ghost use Rattle.prettyless_program.specs.Programs.{Document, IsWritable, leaf_document, item_step, text_tree, written};
ghost use Rattle.prettyless_program.specs.declared.fault.ProgramFault.TheVariants.{Memory};

use crate::fault::ProgramFault;
use crate::instruction::{Instruction, Leaf, Words};
use crate::stack::{StackEntry, gather, pop};
use prettyless_alloc::DocAllocator;
use prettyless_doc::text::{CowStr, Text};
use prettyless_doc::{Doc, DocPlace};

/// A document that holds no other.
#[inline(always)]
fn leaf<'a, D: DocPlace<'a>>(place: &'a D, leaf: Leaf) -> Result<D::Doc, ProgramFault>
    ensures ok { IfOk result (λ p. D.Doc.tree p ≡ leaf_document leaf) }
    ensures err { IfErr result (λ fault. fault ≡ Memory) }
{
    let made = match leaf {
        Leaf::Nil => place.nil(),
        Leaf::Fail => place.fail(),
        Leaf::WeakSpace => place.weak_space(),
        Leaf::HardLine => place.hard_line(),
        Leaf::WeakLine => place.weak_line(),
        Leaf::ExpandParent => place.expand_parent(),
        Leaf::Line => place.line(),
        Leaf::LineOrNil => place.line_(),
    };
    Ok(made?.into_doc()?)
}

/// A text.
#[inline(always)]
fn words<'a, D: DocPlace<'a>>(
    place: &'a D,
    words: Words,
    text: &'a str,
) -> Result<D::Doc, ProgramFault>
    ensures ok { IfOk result (λ p. D.Doc.tree p ≡ text_tree words text.now) }
    ensures err { IfErr result (λ fault. fault ≡ Memory) }
{
    let text = CowStr::Borrowed(text);
    let made = match words {
        Words::Measured => place.text(text),
        Words::Ascii => place.ascii_text(text),
        Words::Multiline => place.multiline_text(text),
    };
    Ok(made?.into_doc()?)
}

/// The documents of the innermost open sequence, one after the other. It is closed.
fn sequence<'a, D: DocPlace<'a>>(
    place: &'a D,
    entries: &mut Vec<StackEntry<D::Doc>>,
) -> Result<D::Doc, ProgramFault>
    ensures ok { IfOk result (λ p. item_step Close (items_of_entries D.Doc.tree entries.old.items)
        ≡ Some (Document (D.Doc.tree p) ∷ items_of_entries D.Doc.tree entries.new.items)) }
    ensures err { IfErr result (λ fault. (rest : List ℕ)
        → Stops fault (written Close ++ rest) (items_of_entries D.Doc.tree entries.old.items)) }
{
    let gathered = gather(place, entries)?;
    if !gathered.opened {
        return Err(ProgramFault::Unopened);
    }
    Ok(gathered.document)
}

/// What an instruction makes of the documents that it takes.
#[inline(always)]
fn made<'a, D: DocPlace<'a>>(
    place: &'a D,
    instruction: Instruction<'a>,
    entries: &mut Vec<StackEntry<D::Doc>>,
) -> Result<StackEntry<D::Doc>, ProgramFault>
    requires { IsWritable (instruction_of instruction) }
    ensures ok { IfOk result (λ entry. item_step (instruction_of instruction.entry) (items_of_entries D.Doc.tree entries.old.items)
        ≡ Some (entry_item D.Doc.tree entry ∷ items_of_entries D.Doc.tree entries.new.items)) }
    ensures err { IfErr result (λ fault. (rest : List ℕ)
        → Stops fault (written (instruction_of instruction.entry) ++ rest) (items_of_entries D.Doc.tree entries.old.items)) }
{
    match instruction {
        Instruction::Leaf(kind) => Ok(StackEntry::Document(leaf(place, kind)?)),
        Instruction::Words(kind, text) => Ok(StackEntry::Document(words(place, kind, text)?)),
        Instruction::Counted(columns, text) => {
            let doc = Doc::TextWithLen(columns, Text::Borrowed(text));
            Ok(StackEntry::Document(place.alloc(doc)?))
        }
        Instruction::Wrap(kind) => {
            let inner = pop(entries)?;
            Ok(StackEntry::Document(place.alloc(Doc::around(kind, inner))?))
        }
        Instruction::Both(kind) => {
            let second = pop(entries)?;
            let first = pop(entries)?;
            Ok(StackEntry::Document(place.alloc(Doc::of_two(kind, first, second))?))
        }
        Instruction::Open => Ok(StackEntry::Opened),
        Instruction::Close => Ok(StackEntry::Document(sequence(place, entries)?)),
    }
}

/// Follows an instruction: takes the documents that it asks for, and puts what it makes of them in their place.
///
/// A `ProgramFault` says why it cannot be followed, or that memory ran out. Nothing is promised of the entries then.
#[inline(always)]
#[tactic(auto, using(crate::proofs::Items::items_of_push))]
pub fn follow<'a, D: DocPlace<'a>>(
    place: &'a D,
    instruction: Instruction<'a>,
    entries: &mut Vec<StackEntry<D::Doc>>,
) -> Result<(), ProgramFault>
    requires { IsWritable (instruction_of instruction) }
    ensures ok { OnOk result (item_step (instruction_of instruction.entry) (items_of_entries D.Doc.tree entries.old.items)
        ≡ Some (items_of_entries D.Doc.tree entries.new.items)) }
    ensures err { IfErr result (λ fault. (rest : List ℕ)
        → Stops fault (written (instruction_of instruction.entry) ++ rest) (items_of_entries D.Doc.tree entries.old.items)) }
{
    let entry = made(place, instruction, entries)?;
    entries.push(entry)?;
    Ok(())
}
