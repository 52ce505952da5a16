ghost use Rattle.std.specs.Prelude.{◌≡◌, ◌⊎◌, IfOk, IfErr, OnOk};
ghost use Rattle.prettyless_doc.specs.BuildErrors.{IsMemory};
ghost use Rattle.prettyless_doc.specs.declared.doc.BuildDoc.TheVariants.{DocPtr as Placed};
ghost use Rattle.prettyless_doc.specs.DocTree.{tree_of};
ghost use Rattle.prettyless_pointers.specs.Children.{IsFirstPointer, moved_up};
ghost use Rattle.prettyless_pointers.specs.CountedNode.{rc_children};
ghost use Rattle.prettyless_pointers.specs.Trees.{rc_tree};
ghost use Rattle.prettyless_pointers.specs.declared.children.Children.TheVariants.{None};
ghost use Rattle.prettyless_pointers.specs.declared.rc.RcNode.{out-RcNode};

use crate::children::{Children, into_children, take_first};
use prettyless_doc::{BuildDoc, BuildError, Doc, DocPlace, DocPtr};
use std::alloc::Global;
use std::fmt;
use std::rc::Rc;

/// A pointer that shares its node with its clones. The last of them frees the node, and with it all that only it held,
/// in a loop that takes the same stack at any depth.
#[cycle(rc_doc)]
pub struct RcDoc<'a>(Rc<RcNode<'a>>);

// A node has a type of its own, so that a proof that compares types of pointers need not compare all that they lead to.
#[cycle(rc_doc)]
struct RcNode<'a>(Doc<'a, RcDoc<'a>>);

impl<'a> RcNode<'a> {
    // The node itself, with nothing dropped.
    #[inline(always)]
    fn into_doc(self) -> Doc<'a, RcDoc<'a>>
        ensures { result ≡ (out-RcNode self.entry).0 }
    {
        let RcNode(doc) = self;
        doc
    }
}

// Out of line, since a node is dropped whole only where memory for its place is refused.
impl<'a> Drop for RcNode<'a> {
    #[inline(never)]
    fn drop(self) {
        let RcNode(doc) = self;
        drop(doc);
    }
}

impl<'a> RcDoc<'a> {
    /// Puts a node into an `Rc`: the same tree, or an error if memory runs out, and the node is then dropped.
    ///
    /// ```
    /// RcDoc::new(alloc, Doc::HardLine)? // a pointer to "\n"
    /// ```
    pub fn new(alloc: Global, doc: Doc<'a, RcDoc<'a>>) -> Result<Self, BuildError>
        ensures ok { IfOk result (λ p. rc_tree p ≡ tree_of rc_tree doc.entry) }
        ensures err { IfErr result IsMemory }
    {
        Ok(RcDoc(Rc::new(alloc, RcNode(doc))?))
    }

    /// Another pointer to the same node. It allocates none, and answers `Memory` only where the node has as many owners
    /// as can be counted.
    pub fn clone(&self) -> Result<Self, BuildError>
        ensures ok { IfOk result (λ p. rc_tree p ≡ rc_tree self.now) }
        ensures err { IfErr result IsMemory }
    {
        Ok(RcDoc(self.0.clone()?))
    }

    // The pointers of its node, with the node given up. Where the node has other owners, they keep it.
    #[inline(always)]
    fn into_children(self) -> Children<RcDoc<'a>>
        ensures { (result ≡ None) ⊎ (result ≡ rc_children self.entry) }
    {
        let RcDoc(counted) = self;
        match Rc::into_inner(counted) {
            Some(node) => into_children(node.into_doc()),
            None => Children::None,
        }
    }

    // Takes the first pointer of its node, and puts `back` after what is left. Gives `back` back where the node has
    // other owners, or no pointer.
    #[inline(always)]
    fn take_first(&mut self, back: RcDoc<'a>) -> Result<RcDoc<'a>, RcDoc<'a>>
        ensures first { IfOk result (IsFirstPointer (rc_children self.old)) }
        ensures moved { OnOk result (rc_children self.new ≡ moved_up (rc_children self.old) back.entry) }
        ensures err { IfErr result (λ p. (p ≡ back.entry) × (self.new ≡ self.old)) }
    {
        match Rc::get_mut(&mut self.0) {
            Some(node) => take_first(&mut node.0, back),
            None => Err(back),
        }
    }
}

// As for boxes, a tree is taken apart in a loop, which asks for no memory and takes the same stack at any depth. Where
// (a, b) is in front of c, what is left to drop becomes a in front of (b, c), in the node that (a, b) had. A node that
// has other owners is left to them.
impl<'a> Drop for RcDoc<'a> {
    #[tactic(auto, using(crate::proofs::CountedWeight::rc_weighs))]
    fn drop(self) {
        let mut rest = self.into_children();
        loop {
            match rest {
                Children::None => return,
                Children::One(child) => rest = child.into_children(),
                Children::Two(mut front, back) => match front.take_first(back) {
                    Ok(first) => rest = Children::Two(first, front),
                    Err(back) => match front.into_children() {
                        Children::None => rest = back.into_children(),
                        // The other two never come: a node with pointers and no other owner has given its first one.
                        Children::One(child) => rest = Children::Two(child, back),
                        Children::Two(first, second) => {
                            drop(second);
                            rest = Children::Two(first, back);
                        }
                    },
                },
            }
        }
    }
}

impl<'a> DocPtr<'a> for RcDoc<'a> {
    ghost tree = { rc_tree };

    fn doc(&self) -> &Doc<'a, RcDoc<'a>> {
        &self.0.as_ref().0
    }
}

/// Shows the document.
impl<'a> fmt::Debug for RcDoc<'a> {
    fn fmt<W: fmt::Write>(&self, f: &mut fmt::Formatter<W>) -> fmt::Result {
        self.doc().fmt(f)
    }
}

/// Itself, as a node that is allocated.
impl<'a> From<RcDoc<'a>> for BuildDoc<'a, RcDoc<'a>> {
    ghost from_gives = { λ p b. b ≡ Placed p };

    fn from(pointer: RcDoc<'a>) -> BuildDoc<'a, RcDoc<'a>> {
        BuildDoc::DocPtr(pointer)
    }
}

/// An allocator that puts each node into an `Rc`.
#[derive(Clone, Copy)]
pub struct RcAllocator {
    memory: Global,
}

impl RcAllocator {
    /// An allocator whose nodes and texts will take their memory from `alloc`.
    ///
    /// ```
    /// RcAllocator::new(alloc) // a place of nodes, each in an `Rc`
    /// ```
    pub fn new(alloc: Global) -> Self {
        RcAllocator { memory: alloc }
    }
}

impl<'a> DocPlace<'a> for RcAllocator {
    type Doc = RcDoc<'a>;

    fn alloc(&'a self, doc: Doc<'a, RcDoc<'a>>) -> Result<RcDoc<'a>, BuildError>
        ensures ok { IfOk result (λ p. rc_tree p ≡ tree_of rc_tree doc.entry) }
        ensures err { IfErr result IsMemory }
    {
        RcDoc::new(self.memory, doc)
    }

    fn clone_ptr(&'a self, pointer: &RcDoc<'a>) -> Result<RcDoc<'a>, BuildError>
        ensures ok { IfOk result (λ p. rc_tree p ≡ rc_tree pointer.now) }
        ensures err { IfErr result IsMemory }
    {
        pointer.clone()
    }

    fn memory(&'a self) -> Global {
        self.memory
    }
}
