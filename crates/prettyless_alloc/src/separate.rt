//! Documents of a vector, with a separator in each gap.
ghost use Rattle.std.specs.Prelude.{map};
ghost use Rattle.prettyless_doc.specs.DocTree.{built};
ghost use Rattle.prettyless_build.specs.Builds.{Builds};
ghost use Rattle.prettyless_trees.specs.Words.{intersperse};

use crate::intersperse::join_after;
use prettyless_build::DocBuilder;
use prettyless_doc::{BuildError, Doc, DocPlace};

// The documents in order, with the separator in each gap.
pub(crate) fn separate<'a, D: DocPlace<'a>>(
    place: &'a D,
    docs: Vec<D::Doc>,
    separator: DocBuilder<'a, D>,
) -> Result<DocBuilder<'a, D>, BuildError>
    ensures { Builds result (λ b. built D.Doc.tree b.1)
        (intersperse (built D.Doc.tree separator.entry.1) (map D.Doc.tree docs.items)) }
{
    let gap = separator.into_doc()?;
    let mut docs = docs.into_iter();
    let Some(first) = docs.next() else {
        return Ok(DocBuilder::new(place, Doc::Nil));
    };
    let mut all = DocBuilder::from_doc(place, first);
    for doc in docs {
        let copy = place.clone_ptr(&gap)?;
        all = join_after(all, copy, DocBuilder::from_doc(place, doc))?;
    }
    Ok(all)
}
