//! Documents more than once.
ghost use Rattle.std.specs.Prelude.{◌≡◌, ◌<◌, IfOk, IfErr};
ghost use Rattle.prettyless_doc.specs.BuildErrors.{IsMemory};
ghost use Rattle.prettyless_doc.specs.DocTree.{built};
ghost use Rattle.prettyless_trees.specs.Built as to;
ghost use Rattle.prettyless_build.specs.Builds.{Builds};

use crate::builder::DocBuilder;
use crate::nodes::of_two;
use prettyless_doc::{BuildError, Doc, DocPlace};
use prettyless_model::kind::Pair;

impl<'a, D: DocPlace<'a>> DocBuilder<'a, D> {
    /// `count` copies of this document, one after the other, also where it is nothing. None is nothing, and one is the
    /// document as it is: neither takes memory. Else memory may run out.
    ///
    /// ```
    /// place.pretty("ab")?.repeat(3)? // "ababab"
    /// ```
    #[tactic(auto, using(crate::proofs::Chains::repeat_more))]
    pub fn repeat(self, count: usize) -> Result<Self, BuildError>
        ensures ok { IfOk result (λ b. built D.Doc.tree b.1
            ≡ to.repeat count (built D.Doc.tree self.entry.1)) }
        ensures same { count ≡ 1 → result ≡ Ok self.entry }
        ensures err { IfErr result (λ e. IsMemory e × (1 < count)) }
    {
        match count {
            0 => Ok(DocBuilder::new(self.0, Doc::Nil)),
            1 => Ok(self),
            _ => {
                let place = self.0;
                let original = self.into_doc()?;
                let front = copies(place, &original, count - 2)?;
                let last = DocBuilder::from_doc(place, original);
                of_two(Pair::Append, front, last)
            }
        }
    }

    /// The same document once more. It fails if memory runs out.
    ///
    /// ```
    /// place.pretty("a")?.clone()? // "a"
    /// ```
    pub fn clone(&self) -> Result<Self, BuildError>
        ensures { Builds result (λ b. built D.Doc.tree b.1) (built D.Doc.tree self.now.1) }
    {
        Ok(DocBuilder(self.0, self.1.clone(self.0)?))
    }
}

// A copy of the document, and so many more after it.
fn copies<'a, D: DocPlace<'a>>(
    place: &'a D,
    original: &D::Doc,
    more: usize,
) -> Result<DocBuilder<'a, D>, BuildError>
    ensures ok { IfOk result (λ b. built D.Doc.tree b.1 ≡ to.chain more (D.Doc.tree original.now)) }
    ensures err { IfErr result IsMemory }
{
    let mut all = DocBuilder::from_doc(place, place.clone_ptr(original)?);
    for _ in 0..more {
        let copy = DocBuilder::from_doc(place, place.clone_ptr(original)?);
        all = of_two(Pair::Append, all, copy)?;
    }
    Ok(all)
}
