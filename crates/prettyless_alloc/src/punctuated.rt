//! Documents of a vector, with punctuation after each but the last.
ghost use Rattle.std.specs.Prelude.{◌≡◌, IfOk, IfErr, map};
ghost use Rattle.prettyless_doc.specs.BuildErrors.{IsMemory};
ghost use Rattle.prettyless_doc.specs.DocTree.{built};
ghost use Rattle.prettyless_trees.specs.Built.{append};
ghost use Rattle.prettyless_trees.specs.Lists as lists;

use prettyless_build::DocBuilder;
use prettyless_doc::{BuildError, DocPlace};

// The documents in order, each but the last with the punctuation after it.
pub(crate) fn punctuated<'a, D: DocPlace<'a>>(
    place: &'a D,
    docs: Vec<D::Doc>,
    mark: DocBuilder<'a, D>,
) -> Result<Vec<D::Doc>, BuildError>
    ensures ok { IfOk result (λ v. map D.Doc.tree v.items
        ≡ lists.punctuated (built D.Doc.tree mark.entry.1) (map D.Doc.tree docs.items)) }
    ensures err { IfErr result IsMemory }
{
    let mark = mark.into_doc()?;
    let mut docs = docs;
    let Some(last) = docs.pop() else {
        return Ok(docs);
    };
    let mut marked = with_marks(place, docs, mark)?;
    marked.push(last)?;
    Ok(marked)
}

// The documents in order, each with the punctuation after it.
fn with_marks<'a, D: DocPlace<'a>>(
    place: &'a D,
    docs: Vec<D::Doc>,
    mark: D::Doc,
) -> Result<Vec<D::Doc>, BuildError>
    ensures ok { IfOk result (λ v. map D.Doc.tree v.items
        ≡ map (λ x. append x (D.Doc.tree mark)) (map D.Doc.tree docs.items)) }
    ensures err { IfErr result IsMemory }
{
    let mut marked = Vec::new(place.memory());
    for doc in docs {
        let copy = place.clone_ptr(&mark)?;
        let doc = DocBuilder::from_doc(place, doc);
        let pair = doc.join(DocBuilder::from_doc(place, copy))?;
        marked.push(pair.into_doc()?)?;
    }
    Ok(marked)
}
