ghost use Rattle.std.specs.Prelude.{◌≡◌, IfOk, IfErr};
ghost use Rattle.prettyless_doc.specs.BuildErrors.{IsMemory};
ghost use Rattle.prettyless_doc.specs.declared.doc.BuildDoc.TheVariants.{DocPtr as Placed};
ghost use Rattle.prettyless_doc.specs.DocTree.{tree_of};
ghost use Rattle.prettyless_pointers.specs.declared.boxes.BoxDoc.{out-BoxDoc};
ghost use Rattle.prettyless_pointers.specs.declared.boxes.BoxNode.{out-BoxNode};
ghost use Rattle.prettyless_pointers.specs.Trees.{box_tree};

use crate::children::{Children, into_children};
use prettyless_doc::{BuildDoc, BuildError, Doc, DocPlace, DocPtr};
use std::alloc::Global;
use std::{fmt, mem};

/// A pointer that owns its node, in a `Box`.
#[cycle(box_doc)]
pub struct BoxDoc<'a>(Box<BoxNode<'a>>);

// A node has a type of its own, so that a proof that compares types of pointers need not compare all that they lead to.
#[cycle(box_doc)]
struct BoxNode<'a>(Doc<'a, BoxDoc<'a>>);

impl<'a> BoxNode<'a> {
    // The node itself, with nothing dropped.
    fn into_doc(self) -> Doc<'a, BoxDoc<'a>>
        ensures { result ≡ (out-BoxNode self.entry).0 }
    {
        let BoxNode(doc) = self;
        doc
    }
}

impl<'a> Drop for BoxNode<'a> {
    #[inline(always)]
    fn drop(self) {
        let BoxNode(doc) = self;
        drop(doc);
    }
}

impl<'a> BoxDoc<'a> {
    /// Boxes a node: the same tree, or an error if memory runs out, and the node is then dropped.
    ///
    /// ```
    /// BoxDoc::new(alloc, Doc::HardLine)? // a pointer to "\n"
    /// ```
    pub fn new(alloc: Global, doc: Doc<'a, BoxDoc<'a>>) -> Result<Self, BuildError>
        ensures ok { IfOk result (λ p. box_tree p ≡ tree_of box_tree doc.entry) }
        ensures err { IfErr result IsMemory }
    {
        Ok(BoxDoc(Box::new(alloc, BoxNode(doc))?))
    }

    // Its box, with nothing dropped.
    fn into_box(self) -> Box<BoxNode<'a>>
        ensures { result ≡ (out-BoxDoc self.entry).0 }
    {
        let BoxDoc(node) = self;
        node
    }

    // Its node, with the box given back and nothing else dropped.
    fn into_node(self) -> Doc<'a, BoxDoc<'a>>
        ensures { result ≡ (out-BoxNode (out-BoxDoc self.entry).0.value).0 }
    {
        Box::into_inner(self.into_box()).into_doc()
    }
}

// A chain of appended documents is as deep as it is long, so a tree is taken apart in a loop, which asks for no
// memory and takes the same stack at any depth. Where a pair (a, b) is in front of c, what is left to drop
// becomes a in front of (b, c), and the box that (a, b) had takes (b, c).
impl<'a> Drop for BoxDoc<'a> {
    fn drop(self) {
        let mut rest = into_children(self.into_node());
        loop {
            match rest {
                Children::None => return,
                Children::One(child) => rest = into_children(child.into_node()),
                Children::Two(front, back) => {
                    let mut room = front.into_box();
                    match into_children(mem::replace(&mut room.0, Doc::Nil)) {
                        Children::None => {
                            drop(Box::into_inner(room).into_doc());
                            rest = into_children(back.into_node());
                        }
                        Children::One(child) => {
                            drop(Box::into_inner(room).into_doc());
                            rest = Children::Two(child, back);
                        }
                        Children::Two(first, second) => {
                            room.0 = Doc::Append(second, back);
                            rest = Children::Two(first, BoxDoc(room));
                        }
                    }
                }
            }
        }
    }
}

impl<'a> DocPtr<'a> for BoxDoc<'a> {
    ghost tree = { box_tree };

    fn doc(&self) -> &Doc<'a, BoxDoc<'a>> {
        &self.0.0
    }
}

/// Shows the document.
impl<'a> fmt::Debug for BoxDoc<'a> {
    fn fmt<W: fmt::Write>(&self, f: &mut fmt::Formatter<W>) -> fmt::Result {
        self.doc().fmt(f)
    }
}

/// Itself, as a node that is allocated.
impl<'a> From<BoxDoc<'a>> for BuildDoc<'a, BoxDoc<'a>> {
    ghost from_gives = { λ p b. b ≡ Placed p };

    fn from(pointer: BoxDoc<'a>) -> BuildDoc<'a, BoxDoc<'a>> {
        BuildDoc::DocPtr(pointer)
    }
}

/// An allocator that puts each node into a `Box`.
#[derive(Clone, Copy)]
pub struct BoxAllocator {
    memory: Global,
}

impl BoxAllocator {
    /// An allocator whose boxes and texts will take their memory from `alloc`.
    ///
    /// ```
    /// BoxAllocator::new(alloc) // a place of nodes, each in a box
    /// ```
    pub fn new(alloc: Global) -> Self {
        BoxAllocator { memory: alloc }
    }
}

impl<'a> DocPlace<'a> for BoxAllocator {
    type Doc = BoxDoc<'a>;

    fn alloc(&'a self, doc: Doc<'a, BoxDoc<'a>>) -> Result<BoxDoc<'a>, BuildError>
        ensures ok { IfOk result (λ p. box_tree p ≡ tree_of box_tree doc.entry) }
        ensures err { IfErr result IsMemory }
    {
        BoxDoc::new(self.memory, doc)
    }

    fn clone_ptr(&'a self, pointer: &BoxDoc<'a>) -> Result<BoxDoc<'a>, BuildError>
        ensures ok { IfOk result (λ p. box_tree p ≡ box_tree pointer.now) }
        ensures err { IfErr result IsMemory }
    {
        pointer.clone(self.memory)
    }

    fn memory(&'a self) -> Global {
        self.memory
    }
}
