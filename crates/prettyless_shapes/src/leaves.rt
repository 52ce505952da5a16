//! Documents that are made of no other.
ghost use Rattle.std.specs.Prelude.{◌≡◌, [], IfOk, IfErr};
ghost use Rattle.prettyless_doc.specs.BuildErrors.{IsMemory};
ghost use Rattle.prettyless_trees.specs.Counted as counted;
ghost use Rattle.prettyless_model.specs.Tree.{Nil};
ghost use Rattle.prettyless_model.specs.Shows.{shows};
ghost use Rattle.prettyless_laws.specs.Shown.{text_items};

use prettyless_alloc::DocAllocator;
use prettyless_build::Pretty;
use prettyless_doc::{BuildError, DocPlace};

/// A text of one line, written unchanged: nothing if it is empty. A line end in it is not seen by the layout. It fails
/// if memory runs out.
///
/// ```
/// text(place, "a")? // "a"
/// ```
pub fn text<'a, D: DocPlace<'a>>(place: &'a D, text: &'a str) -> Result<D::Doc, BuildError>
    ensures ok { IfOk result (λ p. D.Doc.tree p ≡ counted.text text.now) }
    ensures items { IfOk result (λ p. shows (D.Doc.tree p) (text_items text.now)) }
    ensures err { IfErr result IsMemory }
{
    Pretty::pretty(text, place)?.into_doc()
}

/// The empty document. It fails if memory runs out.
///
/// ```
/// nil(place)? // ""
/// ```
pub fn nil<'a, D: DocPlace<'a>>(place: &'a D) -> Result<D::Doc, BuildError>
    ensures ok { IfOk result (λ p. D.Doc.tree p ≡ Nil) }
    ensures items { IfOk result (λ p. shows (D.Doc.tree p) []) }
    ensures err { IfErr result IsMemory }
{
    place.nil()?.into_doc()
}
