//! A document, or two, in a node of some kind.
ghost use Rattle.prettyless_doc.specs.DocTree.{built};
ghost use Rattle.prettyless_model.specs.Tree.{One, Two};
ghost use Rattle.prettyless_build.specs.Builds.{Builds};

use crate::builder::DocBuilder;
use prettyless_doc::{BuildError, Doc, DocPlace};
use prettyless_model::kind::{Pair, Single};

/// A node of this kind around the document. It fails if memory runs out.
///
/// ```
/// around(Single::Indented(Indenting::Nest(2)), docs![place, "a", hard_line(), "b"]?)? // "a\n  b"
/// ```
#[inline(always)]
pub fn around<'a, D: DocPlace<'a>>(
    kind: Single,
    inner: DocBuilder<'a, D>,
) -> Result<DocBuilder<'a, D>, BuildError>
    ensures { Builds result (λ b. built D.Doc.tree b.1) (One kind (built D.Doc.tree inner.entry.1)) }
{
    let place = inner.0;
    let inner = inner.into_doc()?;
    Ok(DocBuilder::new(place, Doc::around(kind, inner)))
}

/// A node of this kind of the two documents. It fails if memory runs out.
///
/// ```
/// of_two(Pair::Append, place.pretty("a")?, place.pretty("b")?)? // "ab"
/// ```
#[inline(always)]
pub fn of_two<'a, D: DocPlace<'a>>(
    kind: Pair,
    first: DocBuilder<'a, D>,
    second: DocBuilder<'a, D>,
) -> Result<DocBuilder<'a, D>, BuildError>
    ensures { Builds result (λ b. built D.Doc.tree b.1)
        (Two kind (built D.Doc.tree first.entry.1) (built D.Doc.tree second.entry.1)) }
{
    let place = first.0;
    let first = first.into_doc()?;
    let second = second.into_doc()?;
    Ok(DocBuilder::new(place, Doc::of_two(kind, first, second)))
}
