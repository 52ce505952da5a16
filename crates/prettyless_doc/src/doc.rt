ghost use Rattle.std.specs.Prelude.{◌≡◌};
ghost use Rattle.prettyless_model.specs.Tree.{Tree};
ghost use Rattle.prettyless_trees.specs.Built.{is_nil};
ghost use Rattle.prettyless_doc.specs.DocTree.{tree_of, built};

use crate::text::{MultilineTextData, Text};
use prettyless_model::choice::{ColumnTest, NestingTest};

/// A node of a document. `T` is the pointer to the nodes below it.
#[derive(Drop)]
pub enum Doc<'a, T> {
    /// The empty document.
    Nil,
    /// A document that cannot be printed: a render that reaches it answers `RenderError::Document`, and a union in
    /// broken lines rejects a first branch whose printing reaches it.
    Fail,
    /// A text, counted as one column a byte.
    Text(Text<'a>),
    /// A text and the columns that it counts as.
    TextWithLen(usize, Text<'a>),
    /// A text that holds line ends of its own, and is written byte for byte. It keeps the groups around it from being
    /// flat, and fails under `flatten`.
    MultilineText(MultilineTextData<'a>),
    /// A space, left out at the start of a line, and at the end of a line unless a suffix is pending there.
    WeakSpace,
    /// A line break. It keeps the groups around it from being flat, and fails under `flatten`.
    HardLine,
    /// A line break, left out on a fresh line where no suffix is pending. It breaks under `flatten` too, and keeps the
    /// groups around it from being flat.
    WeakLine,
    /// Two documents, one after the other.
    Append(T, T),
    /// A document that stays pending until its line ends, at the next line break or at the end of the document, and is
    /// printed there, at the indent of that break and flat or broken as it is. A probe does not count its width. A
    /// union does, where the line ends in its first branch.
    LineSuffix(T),
    /// A document with its indent moved by this number of columns, to the left where negative; it stays within 0 and
    /// `usize::MAX`. A line takes the indent of the document after its break, not that of the break.
    Nest(isize, T),
    /// A document with indent 0.
    DedentToRoot(T),
    /// A document with its indent at the column where it starts.
    Align(T),
    /// An empty document that keeps the groups around it from being flat.
    ExpandParent,
    /// A document that is flat whether it fits or not. A hard line or a payload shown in it fails; a weak line still
    /// breaks.
    Flatten(T),
    /// The first document where lines are broken, and the second where they are flat.
    BreakOrFlat(T, T),
    /// A document that is flat if it fits the line together with what follows up to the next line break, and else
    /// broken.
    Group(T),
    /// The first document if it can be printed and no text of it ends past the width, nor any line of a payload,
    /// whatever follows; else the second. Where lines are flat it is always the first.
    Union(T, T),
    /// The first document if its first line fits, together with what follows if it has no line break; else the second.
    /// What comes after that line is not read, and may fail. Where lines are flat it is always the first.
    PartialUnion(T, T),
    /// The first document if the test holds at the column where it would start, and else the second, in flat lines too.
    OnColumn(ColumnTest, T, T),
    /// The first document if the test holds for the indent, and else the second, in flat lines too.
    OnNesting(NestingTest, T, T),
}

impl<'a, T: DocPtr<'a>> Doc<'a, T> {
    /// Whether the document is nothing.
    #[inline(always)]
    pub fn is_nil(&self) -> bool
        ensures { result ≡ is_nil (tree_of T.tree self.now) }
    {
        matches!(self, Doc::Nil)
    }
}

/// A pointer to a node, and so to a whole tree.
pub trait DocPtr<'a>: Sized + Drop {
    // the tree of which the node is the root
    ghost tree: { Self → Tree };

    /// The node to which the pointer points.
    fn doc(&self) -> &Doc<'a, Self>
        ensures { tree_of tree result.now ≡ tree self.now };
}

/// A document in the making: a node that is allocated, or one that is not allocated yet.
#[derive(Drop)]
pub enum BuildDoc<'a, D> {
    /// A node that is allocated.
    DocPtr(D),
    /// A node that is not allocated yet.
    Doc(Doc<'a, D>),
}

impl<'a, D: DocPtr<'a>> BuildDoc<'a, D> {
    /// The node, wherever it is.
    #[inline(always)]
    pub fn doc(&self) -> &Doc<'a, D>
        ensures { tree_of D.tree result.now ≡ built D.tree self.now }
    {
        match self {
            BuildDoc::DocPtr(pointer) => pointer.doc(),
            BuildDoc::Doc(doc) => doc,
        }
    }
}
