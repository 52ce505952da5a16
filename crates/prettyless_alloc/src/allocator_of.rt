//! The calls of a place of nodes that take a document.
ghost use Rattle.std.specs.Prelude.{IfOk, IfErr};
ghost use Rattle.prettyless_model.specs.Tree.{Nil, LineSuffix, BreakOrFlat};
ghost use Rattle.prettyless_doc.specs.DocTree.{built};
ghost use Rattle.prettyless_build.specs.Builds.{BuildsOf};

use prettyless_build::{DocBuilder, Pretty};
use prettyless_doc::{BuildError, Doc, DocPlace};

/// The calls of every allocator that make a document of one operand, of type `P`. Each call fails as making the
/// operand's document does; all but `pretty` also fail if memory runs out.
///
/// `P` is a parameter of the trait and not of its calls, which cannot bind a type to the trait's lifetime.
/// It follows from the operand: `place.line_suffix(doc)` is written without it.
pub trait DocAllocatorOf<'a, P: Pretty<'a, Self>>: DocPlace<'a> {
    /// The document that `doc` becomes. Only making that can fail.
    ///
    /// ```
    /// place.pretty("a")? // "a"
    /// ```
    fn pretty(&'a self, doc: P) -> Result<DocBuilder<'a, Self>, BuildError>
        ensures ok { IfOk result (λ b. P.becomes doc (built Self.Doc.tree b.1)) }
        ensures err { IfErr result (P.refuses doc) };

    /// The document as a line suffix, pending until its line ends, also where it is nothing. It fails as the making of
    /// the document does, and if memory runs out.
    ///
    /// ```
    /// docs![place, place.line_suffix(" # b")?, "a", place.hard_line()?]? // "a # b\n"
    /// ```
    fn line_suffix(&'a self, doc: P) -> Result<DocBuilder<'a, Self>, BuildError>
        ensures { BuildsOf result (λ b. built Self.Doc.tree b.1) (P.becomes doc) (P.refuses doc) LineSuffix };

    /// Nothing where lines are broken, and the document where they are flat. It fails as the making of the document
    /// does, and if memory runs out.
    ///
    /// ```
    /// docs![place, "a", place.if_group_flat(";")?, place.line_()?, "b"]?.group()? // "a;b" at 3 columns, "a\nb" at 2
    /// ```
    fn if_group_flat(&'a self, doc: P) -> Result<DocBuilder<'a, Self>, BuildError>
        ensures { BuildsOf result (λ b. built Self.Doc.tree b.1) (P.becomes doc) (P.refuses doc) (BreakOrFlat Nil) };

    /// The document where lines are broken, and nothing where they are flat. It fails as the making of the document
    /// does, and if memory runs out.
    ///
    /// ```
    /// docs![place, "a", place.if_group_break(",")?, place.line_()?, "b"]?.group()? // "ab" at 2 columns, "a,\nb" at 1
    /// ```
    fn if_group_break(&'a self, doc: P) -> Result<DocBuilder<'a, Self>, BuildError>
        ensures { BuildsOf result (λ b. built Self.Doc.tree b.1) (P.becomes doc) (P.refuses doc) (λ y. BreakOrFlat y Nil) };
}

impl<'a, D: DocPlace<'a>, P: Pretty<'a, D>> DocAllocatorOf<'a, P> for D {
    fn pretty(&'a self, doc: P) -> Result<DocBuilder<'a, D>, BuildError> {
        Pretty::pretty(doc, self)
    }

    fn line_suffix(&'a self, doc: P) -> Result<DocBuilder<'a, D>, BuildError> {
        let inner = doc.pretty(self)?.into_doc()?;
        Ok(DocBuilder::new(self, Doc::LineSuffix(inner)))
    }

    fn if_group_flat(&'a self, doc: P) -> Result<DocBuilder<'a, D>, BuildError> {
        doc.pretty(self)?.when_group_flat()
    }

    fn if_group_break(&'a self, doc: P) -> Result<DocBuilder<'a, D>, BuildError> {
        doc.pretty(self)?.when_group_break()
    }
}
