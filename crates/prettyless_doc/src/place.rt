ghost use Rattle.std.specs.Prelude.{◌≡◌, IfOk, IfErr};
ghost use Rattle.prettyless_doc.specs.BuildErrors.{IsMemory};
ghost use Rattle.prettyless_doc.specs.DocTree.{tree_of};

use crate::doc::{Doc, DocPtr};
use crate::text::BuildError;
use std::alloc::Global;

/// An allocator of the nodes of documents. One of your own implements this trait alone.
pub trait DocPlace<'a>: Sized {
    /// The pointer to a node of this allocator.
    type Doc: DocPtr<'a>;

    /// Allocates a node: a pointer to the same tree, or an error if memory runs out.
    fn alloc(&'a self, doc: Doc<'a, Self::Doc>) -> Result<Self::Doc, BuildError>
        ensures ok { IfOk result (λ p. Self.Doc.tree p ≡ tree_of Self.Doc.tree doc.entry) }
        ensures err { IfErr result IsMemory };

    /// A clone of a pointer, to the same tree, or an error if memory runs out.
    fn clone_ptr(&'a self, pointer: &Self::Doc) -> Result<Self::Doc, BuildError>
        ensures ok { IfOk result (λ p. Self.Doc.tree p ≡ Self.Doc.tree pointer.now) }
        ensures err { IfErr result IsMemory };

    /// The memory that texts are made in.
    fn memory(&'a self) -> Global;
}

/// The same allocator, passed by reference.
impl<'a, D: DocPlace<'a>> DocPlace<'a> for &'a D {
    type Doc = D::Doc;

    fn alloc(&'a self, doc: Doc<'a, D::Doc>) -> Result<D::Doc, BuildError>
        ensures ok { IfOk result (λ p. D.Doc.tree p ≡ tree_of D.Doc.tree doc.entry) }
        ensures err { IfErr result IsMemory }
    {
        (**self).alloc(doc)
    }

    fn clone_ptr(&'a self, pointer: &D::Doc) -> Result<D::Doc, BuildError>
        ensures ok { IfOk result (λ p. D.Doc.tree p ≡ D.Doc.tree pointer.now) }
        ensures err { IfErr result IsMemory }
    {
        (**self).clone_ptr(pointer)
    }

    fn memory(&'a self) -> Global {
        (**self).memory()
    }
}
