ghost use Rattle.std.specs.Prelude.{◌≡◌, ◌⊎◌, IfOk, IfErr, IsOkAnd, IsTrue};
ghost use Rattle.prettyless_model.specs.Tree.{Tree, Fail};
ghost use Rattle.prettyless_doc.specs.BuildErrors.{IsMemory};
ghost use Rattle.prettyless_doc.specs.DocTree.{tree_of, built};
ghost use Rattle.prettyless_doc.specs.declared.doc.BuildDoc.TheVariants.{DocPtr as Placed, Doc as Plain};
ghost use Rattle.prettyless_trees.specs.Built as to;
ghost use Rattle.prettyless_build.specs.Builds.{BuildsOrKeeps, IfPlaced};

use crate::nodes::around;
use crate::pretty::Pretty;
use prettyless_doc::{BuildDoc, BuildError, Doc, DocPlace};
use prettyless_model::kind::Single;

/// A document in the making (`.1`), and the allocator of its nodes (`.0`).
pub struct DocBuilder<'a, D: DocPlace<'a>>(pub &'a D, pub BuildDoc<'a, D::Doc>);

// By hand: the derived one is not found where a collection of builders is dropped.
impl<'a, D: DocPlace<'a>> Drop for DocBuilder<'a, D> {
    fn drop(self) {
        let DocBuilder(_, doc) = self;
        drop(doc);
    }
}

impl<'a, D: DocPlace<'a>> DocBuilder<'a, D> {
    /// A node that is not allocated yet.
    ///
    /// ```
    /// DocBuilder::new(place, Doc::HardLine) // "\n"
    /// ```
    #[inline(always)]
    pub fn new(place: &'a D, doc: Doc<'a, D::Doc>) -> Self
        ensures { result.1 ≡ Plain doc.entry }
    {
        DocBuilder(place, BuildDoc::Doc(doc))
    }

    /// The document that a pointer leads to, which takes no memory: `into_doc` gives the pointer back.
    ///
    /// ```
    /// DocBuilder::from_doc(place, pointer) // of a pointer to "a": "a"
    /// ```
    #[inline(always)]
    pub fn from_doc(place: &'a D, pointer: D::Doc) -> Self
        ensures tree { built D.Doc.tree result.1 ≡ D.Doc.tree pointer }
        ensures placed { result.1 ≡ Placed pointer }
    {
        DocBuilder(place, BuildDoc::DocPtr(pointer))
    }

    /// The node, wherever it is.
    #[inline(always)]
    pub fn doc(&self) -> &Doc<'a, D::Doc>
        ensures { tree_of D.Doc.tree result.now ≡ built D.Doc.tree self.now.1 }
    {
        self.1.doc()
    }

    /// A pointer to the document, whose node is allocated if that is not done yet. Only that takes memory, and fails if
    /// memory runs out.
    ///
    /// ```
    /// place.pretty("a")?.into_doc()? // a pointer to "a"
    /// ```
    #[inline(always)]
    pub fn into_doc(self) -> Result<D::Doc, BuildError>
        ensures ok { IfOk result (λ p. D.Doc.tree p ≡ built D.Doc.tree self.entry.1) }
        ensures placed { IfPlaced self.entry.1 (λ p. result ≡ Ok p) }
        ensures err { IfErr result IsMemory }
    {
        match self {
            DocBuilder(_, BuildDoc::DocPtr(pointer)) => Ok(pointer),
            DocBuilder(place, BuildDoc::Doc(doc)) => place.alloc(doc),
        }
    }

    // The document alone.
    #[inline(always)]
    pub(crate) fn into_build_doc(self) -> BuildDoc<'a, D::Doc>
        ensures { result ≡ self.entry.1 }
    {
        let DocBuilder(_, doc) = self;
        doc
    }

    /// `append` of what is a builder already. Where one of the two is nothing it is the other as it is, which takes no
    /// memory; else memory may run out.
    ///
    /// ```
    /// place.pretty("a")?.join(place.pretty("b")?)? // "ab"
    /// ```
    #[inline(always)]
    pub fn join(self, that: DocBuilder<'a, D>) -> Result<Self, BuildError>
        ensures ok { IfOk result (λ b. built D.Doc.tree b.1
            ≡ to.append (built D.Doc.tree self.entry.1) (built D.Doc.tree that.entry.1)) }
        ensures err { IfErr result (λ e. IsMemory e
            × to.IsNotNil (built D.Doc.tree self.entry.1)
            × to.IsNotNil (built D.Doc.tree that.entry.1)) }
    {
        if self.doc().is_nil() {
            return Ok(that);
        }
        if that.doc().is_nil() {
            return Ok(self);
        }
        let place = self.0;
        let left = self.into_doc()?;
        let right = that.into_doc()?;
        Ok(DocBuilder::new(place, Doc::Append(left, right)))
    }

    /// This document, then `that`. Where one of them is nothing it is the other as it is, and only the making of `that`
    /// can fail. Else memory may run out too.
    ///
    /// ```
    /// place.pretty("a")?.append("b")? // "ab"
    /// ```
    #[inline(always)]
    pub fn append<E: Pretty<'a, D>>(self, that: E) -> Result<Self, BuildError>
        ensures ok { IfOk result (λ b. (y : Tree) × E.becomes that y
            × (built D.Doc.tree b.1 ≡ to.append (built D.Doc.tree self.entry.1) y)) }
        ensures err { IfErr result (λ e. E.refuses that e ⊎ (IsMemory e
            × to.IsNotNil (built D.Doc.tree self.entry.1)
            × ((y : Tree) × E.becomes that y × to.IsNotNil y))) }
    {
        let that = that.pretty(self.0)?;
        self.join(that)
    }

    /// This document, flat if it fits the line together with what follows up to the next line break, and else broken.
    /// Where it is nothing, a text or a group, it stays as it is, which takes no memory; else memory may run out.
    ///
    /// ```
    /// docs![place, "a", line_or_space(), "b"]?.group()? // "a b" at 3 columns, "a\nb" at 2
    /// ```
    #[inline(always)]
    pub fn group(self) -> Result<Self, BuildError>
        ensures { BuildsOrKeeps result (λ b. built D.Doc.tree b.1)
            (to.group (built D.Doc.tree self.entry.1))
            (to.keeps_grouped (built D.Doc.tree self.entry.1)) self.entry }
    {
        match self.doc() {
            Doc::Nil
            | Doc::Text(_)
            | Doc::TextWithLen(_, _)
            | Doc::MultilineText(_)
            | Doc::Group(_) => Ok(self),
            _ => {
                let place = self.0;
                let inner = self.into_doc()?;
                Ok(DocBuilder::new(place, Doc::Group(inner)))
            }
        }
    }

    /// This document, flat whether it fits or not. Where it is nothing, a text or flat already, it stays as it is. A
    /// hard line break or a payload, which no flat line holds, becomes a document that fails. Neither takes memory;
    /// else memory may run out.
    ///
    /// ```
    /// docs![place, "a", line_or_space(), "b"]?.flatten()? // "a b" at 2 columns
    /// ```
    pub fn flatten(self) -> Result<Self, BuildError>
        ensures ok { IfOk result (λ b. built D.Doc.tree b.1 ≡ to.flatten (built D.Doc.tree self.entry.1)) }
        ensures same { IsTrue (to.keeps_flattened (built D.Doc.tree self.entry.1)) → result ≡ Ok self.entry }
        ensures hard { IsTrue (to.is_hard (built D.Doc.tree self.entry.1))
            → IsOkAnd result (λ b. built D.Doc.tree b.1 ≡ Fail) }
        ensures err { IfErr result IsMemory }
    {
        match self.doc() {
            Doc::Nil | Doc::Text(_) | Doc::TextWithLen(_, _) | Doc::Flatten(_) => Ok(self),
            Doc::HardLine | Doc::MultilineText(_) => Ok(DocBuilder::new(self.0, Doc::Fail)),
            _ => around(Single::Flatten, self),
        }
    }

    /// This document as a line suffix, pending until its line ends. Where it is nothing or one already, it stays as it
    /// is, which takes no memory; else memory may run out.
    ///
    /// ```
    /// docs![place, place.pretty(" # b")?.as_line_suffix()?, "a"]? // "a # b"
    /// ```
    #[inline(always)]
    pub fn as_line_suffix(self) -> Result<Self, BuildError>
        ensures { BuildsOrKeeps result (λ b. built D.Doc.tree b.1)
            (to.as_line_suffix (built D.Doc.tree self.entry.1))
            (to.keeps_put_off (built D.Doc.tree self.entry.1)) self.entry }
    {
        match self.doc() {
            Doc::Nil | Doc::LineSuffix(_) => Ok(self),
            _ => around(Single::LineSuffix, self),
        }
    }
}
