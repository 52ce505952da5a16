//! Two documents with a gap between them, and one with a line break after it.
ghost use Rattle.std.specs.Prelude.{◌≡◌, [], ◌∷◌, IfOk, IfErr, map};
ghost use Rattle.prettyless_model.specs.Shows.{apart, ended, spaced};
ghost use Rattle.prettyless_doc.specs.BuildErrors.{IsMemory};
ghost use Rattle.prettyless_doc.specs.DocTree.{built};
ghost use Rattle.prettyless_trees.specs.Lines.{line, space};
ghost use Rattle.prettyless_model.specs.Tree.{HardLine};
ghost use Rattle.prettyless_trees.specs.Built.{append};
ghost use Rattle.prettyless_trees.specs.Words.{intersperse};
ghost use Rattle.prettyless_shapes.specs.Items.{ShowsAll, ShowsBoth, ShowsMore};
ghost use Rattle.prettyless_shapes.specs.Shapes.{gapped};

use prettyless_alloc::DocAllocator;
use prettyless_build::DocBuilder;
use prettyless_doc::{BuildError, DocPlace};

// A document, and one in the making after it.
pub(crate) fn followed<'a, D: DocPlace<'a>>(
    place: &'a D,
    doc: D::Doc,
    next: DocBuilder<'a, D>,
) -> Result<D::Doc, BuildError>
    ensures ok { IfOk result (λ p. D.Doc.tree p ≡ append (D.Doc.tree doc) (built D.Doc.tree next.entry.1)) }
    ensures err { IfErr result IsMemory }
{
    DocBuilder::from_doc(place, doc).join(next)?.into_doc()
}

/// The two documents side by side, with nothing between them. It fails if memory runs out.
///
/// ```
/// joined(place, a, b)? // "ab"
/// ```
pub fn joined<'a, D: DocPlace<'a>>(
    place: &'a D,
    first: D::Doc,
    next: D::Doc,
) -> Result<D::Doc, BuildError>
    ensures ok { IfOk result (λ p. D.Doc.tree p ≡ append (D.Doc.tree first) (D.Doc.tree next)) }
    ensures items { IfOk result (λ p. ShowsBoth (D.Doc.tree first) [] (D.Doc.tree next) (D.Doc.tree p)) }
    ensures err { IfErr result IsMemory }
{
    followed(place, first, DocBuilder::from_doc(place, next))
}

/// The two documents with one space between them, also where one of them is nothing. It fails if memory runs out.
///
/// ```
/// spaced(place, a, b)? // "a b"
/// ```
pub fn spaced<'a, D: DocPlace<'a>>(
    place: &'a D,
    first: D::Doc,
    next: D::Doc,
) -> Result<D::Doc, BuildError>
    ensures ok { IfOk result (λ p. D.Doc.tree p ≡ gapped (D.Doc.tree first) space (D.Doc.tree next)) }
    ensures items { IfOk result (λ p. ShowsBoth (D.Doc.tree first) (spaced ∷ []) (D.Doc.tree next) (D.Doc.tree p)) }
    ensures err { IfErr result IsMemory }
{
    let first = followed(place, first, place.space()?)?;
    joined(place, first, next)
}

/// The two documents with a line break between them, or one space where lines are flat. It is there also where one of
/// them is nothing. It fails if memory runs out.
///
/// ```
/// grouped(place, lined(place, a, b)?)? // "a b" at 3 columns, "a\nb" at 2
/// ```
pub fn lined<'a, D: DocPlace<'a>>(
    place: &'a D,
    first: D::Doc,
    next: D::Doc,
) -> Result<D::Doc, BuildError>
    ensures ok { IfOk result (λ p. D.Doc.tree p ≡ gapped (D.Doc.tree first) line (D.Doc.tree next)) }
    ensures items { IfOk result (λ p. ShowsBoth (D.Doc.tree first) (apart ∷ []) (D.Doc.tree next) (D.Doc.tree p)) }
    ensures err { IfErr result IsMemory }
{
    let first = followed(place, first, place.line()?)?;
    joined(place, first, next)
}

/// The second document below the first: a line break is between them, also where one of them is nothing. It keeps the
/// groups around it from being flat, and fails if memory runs out.
///
/// ```
/// stacked(place, a, b)? // "a\nb"
/// ```
pub fn stacked<'a, D: DocPlace<'a>>(
    place: &'a D,
    first: D::Doc,
    next: D::Doc,
) -> Result<D::Doc, BuildError>
    ensures ok { IfOk result (λ p. D.Doc.tree p ≡ gapped (D.Doc.tree first) HardLine (D.Doc.tree next)) }
    ensures items { IfOk result (λ p. ShowsBoth (D.Doc.tree first) (ended ∷ []) (D.Doc.tree next) (D.Doc.tree p)) }
    ensures err { IfErr result IsMemory }
{
    joined(place, ended(place, first)?, next)
}

/// The documents, each below the one before: a line break is between each two, also where one of them is nothing.
/// Nothing, where there is no document. It keeps the groups around it from being flat, and fails if memory runs out.
///
/// ```
/// stacked_all(place, docs)? // of "a" and "b": "a\nb"
/// ```
pub fn stacked_all<'a, D: DocPlace<'a>>(
    place: &'a D,
    docs: Vec<D::Doc>,
) -> Result<D::Doc, BuildError>
    ensures ok { IfOk result (λ p. D.Doc.tree p ≡ intersperse HardLine (map D.Doc.tree docs.items)) }
    ensures items { IfOk result (λ p. ShowsAll (ended ∷ []) (map D.Doc.tree docs.items) (D.Doc.tree p)) }
    ensures err { IfErr result IsMemory }
{
    let gap = place.hard_line()?;
    place.separate(docs, gap)?.into_doc()
}

/// The document with a line break after it, also where it is nothing. It keeps the groups around it from being flat,
/// and fails if memory runs out.
///
/// ```
/// ended(place, a)? // "a\n"
/// ```
pub fn ended<'a, D: DocPlace<'a>>(place: &'a D, doc: D::Doc) -> Result<D::Doc, BuildError>
    ensures ok { IfOk result (λ p. D.Doc.tree p ≡ append (D.Doc.tree doc) HardLine) }
    ensures items { IfOk result (λ p. ShowsMore (D.Doc.tree doc) (ended ∷ []) (D.Doc.tree p)) }
    ensures err { IfErr result IsMemory }
{
    followed(place, doc, place.hard_line()?)
}
