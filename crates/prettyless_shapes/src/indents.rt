//! Indented documents, and documents that are laid flat where they fit.
ghost use Rattle.std.specs.Prelude.{◌≡◌, pos, [], ◌∷◌, IfOk, IfErr};
ghost use Rattle.prettyless_model.specs.Shows.{apart};
ghost use Rattle.prettyless_doc.specs.BuildErrors.{IsMemory};
ghost use Rattle.prettyless_model.specs.Tree.{ExpandParent};
ghost use Rattle.prettyless_trees.specs.Built.{append, group, nest};
ghost use Rattle.prettyless_shapes.specs.Items.{ShowsBlock, ShowsBoth, ShowsSame};
ghost use Rattle.prettyless_shapes.specs.Shapes as shapes;

use crate::gaps::{followed, stacked};
use prettyless_alloc::DocAllocator;
use prettyless_build::DocBuilder;
use prettyless_doc::{BuildError, DocPlace};

/// The document with each line but the first indented by `columns`. It fails if memory runs out.
///
/// ```
/// indented(place, stacked(place, a, b)?, 2)? // "a\n  b"
/// ```
pub fn indented<'a, D: DocPlace<'a>>(
    place: &'a D,
    doc: D::Doc,
    columns: u32,
) -> Result<D::Doc, BuildError>
    ensures ok { IfOk result (λ p. D.Doc.tree p ≡ nest (pos columns) (D.Doc.tree doc)) }
    ensures items { IfOk result (λ p. ShowsSame (D.Doc.tree doc) (D.Doc.tree p)) }
    ensures err { IfErr result IsMemory }
{
    DocBuilder::from_doc(place, doc)
        .nest(columns as isize)?
        .into_doc()
}

/// The document, flat if it fits the line together with what follows up to the next line break, and else broken. It
/// fails if memory runs out.
///
/// ```
/// grouped(place, lined(place, a, b)?)? // "a b" at 3 columns, "a\nb" at 2
/// ```
pub fn grouped<'a, D: DocPlace<'a>>(place: &'a D, doc: D::Doc) -> Result<D::Doc, BuildError>
    ensures ok { IfOk result (λ p. D.Doc.tree p ≡ group (D.Doc.tree doc)) }
    ensures items { IfOk result (λ p. ShowsSame (D.Doc.tree doc) (D.Doc.tree p)) }
    ensures err { IfErr result IsMemory }
{
    DocBuilder::from_doc(place, doc).group()?.into_doc()
}

/// The document, with the groups around it kept from being flat. It fails if memory runs out.
///
/// ```
/// grouped(place, broken(place, lined(place, a, b)?)?)? // "a\nb"
/// ```
pub fn broken<'a, D: DocPlace<'a>>(place: &'a D, doc: D::Doc) -> Result<D::Doc, BuildError>
    ensures ok { IfOk result (λ p. D.Doc.tree p ≡ append (D.Doc.tree doc) ExpandParent) }
    ensures items { IfOk result (λ p. ShowsSame (D.Doc.tree doc) (D.Doc.tree p)) }
    ensures err { IfErr result IsMemory }
{
    followed(place, doc, place.expand_parent()?)
}

/// The first document, then the second after a space if it fits the line flat, and else on the next line, indented by
/// `columns`. The first is not in the group of the second, so it may be broken where the second follows on its last
/// line. It fails if memory runs out.
///
/// ```
/// hanging(place, a, b, 2)? // "a b" at 3 columns, "a\n  b" at 2
/// ```
pub fn hanging<'a, D: DocPlace<'a>>(
    place: &'a D,
    first: D::Doc,
    next: D::Doc,
    columns: u32,
) -> Result<D::Doc, BuildError>
    ensures ok { IfOk result (λ p. D.Doc.tree p ≡ shapes.hanging (D.Doc.tree first) (D.Doc.tree next) columns) }
    ensures items { IfOk result (λ p. ShowsBoth (D.Doc.tree first) (apart ∷ []) (D.Doc.tree next) (D.Doc.tree p)) }
    ensures err { IfErr result IsMemory }
{
    let next = DocBuilder::from_doc(place, next);
    let next = place.line()?.join(next)?.nest(columns as isize)?.group()?;
    followed(place, first, next)
}

/// Three documents, each below the one before, the second indented by `columns`. A line break is between each two, also
/// where one of them is nothing. It keeps the groups around it from being flat, and fails if memory runs out.
///
/// ```
/// block(place, text(place, "{")?, a, text(place, "}")?, 2)? // "{\n  a\n}"
/// ```
pub fn block<'a, D: DocPlace<'a>>(
    place: &'a D,
    before: D::Doc,
    doc: D::Doc,
    after: D::Doc,
    columns: u32,
) -> Result<D::Doc, BuildError>
    ensures ok { IfOk result (λ p. D.Doc.tree p
        ≡ shapes.block (D.Doc.tree before) (D.Doc.tree doc) (D.Doc.tree after) columns) }
    ensures items { IfOk result (λ p.
        ShowsBlock (D.Doc.tree before) (D.Doc.tree doc) (D.Doc.tree after) (D.Doc.tree p)) }
    ensures err { IfErr result IsMemory }
{
    let doc = DocBuilder::from_doc(place, doc);
    let inside = place.hard_line()?.join(doc)?.nest(columns as isize)?;
    stacked(place, followed(place, before, inside)?, after)
}
