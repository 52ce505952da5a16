//! The constants of an arena, each of which has one node there.
ghost use Rattle.std.specs.Prelude.{◌≡◌, false, IfOk, IfErr, IfSome, IsTrue};
ghost use Rattle.prettyless_doc.specs.BuildErrors.{IsMemory};
ghost use Rattle.prettyless_doc.specs.DocTree.{tree_of, holds_memory};
ghost use Rattle.prettyless_trees.specs.Lines.{space, line, line_};
ghost use Rattle.prettyless_model.specs.Tree.{Nil, HardLine, BreakOrFlat};
ghost use Rattle.prettyless_pointers.specs.Constants.{IsTable, constant_tree, index_of};
ghost use Rattle.prettyless_pointers.specs.declared.arena.RefDoc.{out-RefDoc};
ghost use Rattle.prettyless_pointers.specs.Trees.{ref_tree};

use crate::arena::RefDoc;
use bumpalo::Bump;
use prettyless_doc::{BuildError, Doc, DocPtr, Text};

// A document that an arena has once, so that all who place it get a pointer to the same node.
#[derive(Clone, Copy)]
pub(crate) enum Constant {
    Nil,
    Fail,
    Space,
    WeakSpace,
    HardLine,
    WeakLine,
    ExpandParent,
    LineOrSpace,
    LineOrNil,
    SoftLineOrSpace,
    SoftLineOrNil,
}

// Places all constants, and a table of pointers to them. The hard line is last: where a line asks for it first, that the others are
// there is known.
pub(crate) fn table<'a>(bump: &'a Bump) -> Result<&'a [RefDoc<'a>], BuildError>
    ensures ok { IfOk result (λ ps. IsTable ps.now) }
    ensures err { IfErr result IsMemory }
{
    let leaves: &'a [Doc<'a, RefDoc<'a>>; 7] = bump.try_alloc([
        Doc::Nil,
        Doc::Fail,
        Doc::Text(Text::Borrowed(" ")),
        Doc::WeakSpace,
        Doc::HardLine,
        Doc::WeakLine,
        Doc::ExpandParent,
    ])?;
    let [
        nil,
        fail,
        space,
        weak_space,
        hard_line,
        weak_line,
        expand_parent,
    ] = leaves;
    let lines: &'a [Doc<'a, RefDoc<'a>>; 2] = bump.try_alloc([
        Doc::BreakOrFlat(RefDoc(hard_line), RefDoc(space)),
        Doc::BreakOrFlat(RefDoc(hard_line), RefDoc(nil)),
    ])?;
    let [line, line_] = lines;
    let soft_lines: &'a [Doc<'a, RefDoc<'a>>; 2] = bump.try_alloc([
        Doc::Group(RefDoc(line)),
        Doc::Group(RefDoc(line_)),
    ])?;
    let [softline, softline_] = soft_lines;
    let table: &'a [RefDoc<'a>] = bump.try_alloc_slice_copy(&[
        RefDoc(nil),
        RefDoc(fail),
        RefDoc(space),
        RefDoc(weak_space),
        RefDoc(softline_),
        RefDoc(weak_line),
        RefDoc(expand_parent),
        RefDoc(line),
        RefDoc(line_),
        RefDoc(softline),
        RefDoc(hard_line),
    ])?;
    Ok(table)
}

#[inline(always)]
fn index_of(which: Constant) -> usize
    ensures { result ≡ index_of which }
{
    match which {
        Constant::Nil => 0,
        Constant::Fail => 1,
        Constant::Space => 2,
        Constant::WeakSpace => 3,
        Constant::SoftLineOrNil => 4,
        Constant::WeakLine => 5,
        Constant::ExpandParent => 6,
        Constant::LineOrSpace => 7,
        Constant::LineOrNil => 8,
        Constant::SoftLineOrSpace => 9,
        Constant::HardLine => 10,
    }
}

// The pointer to a constant in a table, if it has one.
#[inline(always)]
pub(crate) fn find<'a>(table: &'a [RefDoc<'a>], which: Constant) -> Option<RefDoc<'a>>
    requires { IsTable table.now }
    ensures same { IfSome result (λ p. ref_tree p ≡ constant_tree which) }
    ensures settled { IfSome result (λ p. holds_memory (out-RefDoc p).0.now ≡ false) }
{
    table.get(index_of(which)).copied()
}

// Whether a pointer leads to a line break.
#[inline(always)]
fn is_hard_line<'a>(pointer: RefDoc<'a>) -> bool
    ensures { IsTrue result → ref_tree pointer.entry ≡ HardLine }
{
    matches!(pointer.doc(), Doc::HardLine)
}

// Whether a pointer leads to one space.
#[inline(always)]
fn is_space<'a>(pointer: RefDoc<'a>) -> bool
    ensures { IsTrue result → ref_tree pointer.entry ≡ space }
{
    match pointer.doc() {
        Doc::Text(Text::Borrowed(text)) => matches!(text.as_bytes(), [b' ']),
        _ => false,
    }
}

// Whether a pointer leads to nothing.
#[inline(always)]
fn is_nil<'a>(pointer: RefDoc<'a>) -> bool
    ensures { IsTrue result → ref_tree pointer.entry ≡ Nil }
{
    matches!(pointer.doc(), Doc::Nil)
}

// Whether these two are what a line is laid as, broken and flat.
#[inline(always)]
pub(crate) fn is_line<'a>(broken: RefDoc<'a>, flat: RefDoc<'a>) -> bool
    ensures { IsTrue result → BreakOrFlat (ref_tree broken.entry) (ref_tree flat.entry) ≡ line }
{
    is_hard_line(broken) && is_space(flat)
}

// The same of a line that is nothing where it is flat.
#[inline(always)]
pub(crate) fn is_line_<'a>(broken: RefDoc<'a>, flat: RefDoc<'a>) -> bool
    ensures { IsTrue result → BreakOrFlat (ref_tree broken.entry) (ref_tree flat.entry) ≡ line_ }
{
    is_hard_line(broken) && is_nil(flat)
}

// The constant that this node is, if it is one.
#[inline(always)]
pub(crate) fn constant_of<'a>(doc: &Doc<'a, RefDoc<'a>>) -> Option<Constant>
    ensures { IfSome result (λ c. constant_tree c ≡ tree_of ref_tree doc.now) }
{
    match doc {
        Doc::Nil => Some(Constant::Nil),
        Doc::Fail => Some(Constant::Fail),
        Doc::Text(Text::Borrowed(text)) if matches!(text.as_bytes(), [b' ']) => {
            Some(Constant::Space)
        }
        Doc::WeakSpace => Some(Constant::WeakSpace),
        Doc::HardLine => Some(Constant::HardLine),
        Doc::WeakLine => Some(Constant::WeakLine),
        Doc::ExpandParent => Some(Constant::ExpandParent),
        _ => None,
    }
}
