//! Documents once more, in the same place.
ghost use Rattle.std.specs.Prelude.{◌≡◌, IfOk, IfErr};
ghost use Rattle.prettyless_doc.specs.BuildErrors.{IsMemory};
ghost use Rattle.prettyless_doc.specs.DocTree.{tree_of, built};

use crate::doc::{BuildDoc, Doc, DocPtr};
use crate::parts::{NodeParts, parts_of};
use crate::place::DocPlace;
use crate::text::BuildError;

impl<'a, T: DocPtr<'a>> Doc<'a, T> {
    /// The same document, its pointers cloned by their allocator. It fails if memory runs out.
    pub fn clone<D: DocPlace<'a, Doc = T>>(&self, place: &'a D) -> Result<Self, BuildError>
        ensures ok { IfOk result (λ d. tree_of T.tree d ≡ tree_of T.tree self.now) }
        ensures err { IfErr result IsMemory }
    {
        Ok(match parts_of(place.memory(), self)? {
            NodeParts::None(node) => node,
            NodeParts::One(kind, inner) => Doc::around(kind, place.clone_ptr(inner)?),
            NodeParts::Two(kind, first, second) => {
                Doc::of_two(kind, place.clone_ptr(first)?, place.clone_ptr(second)?)
            }
        })
    }
}

impl<'a, T: DocPtr<'a>> BuildDoc<'a, T> {
    /// The same document: a clone of its pointer, or of the node that is not allocated yet. It fails if memory runs
    /// out.
    pub fn clone<D: DocPlace<'a, Doc = T>>(&self, place: &'a D) -> Result<Self, BuildError>
        ensures ok { IfOk result (λ d. built T.tree d ≡ built T.tree self.now) }
        ensures err { IfErr result IsMemory }
    {
        match self {
            BuildDoc::DocPtr(pointer) => Ok(BuildDoc::DocPtr(place.clone_ptr(pointer)?)),
            BuildDoc::Doc(doc) => Ok(BuildDoc::Doc(doc.clone(place)?)),
        }
    }
}
