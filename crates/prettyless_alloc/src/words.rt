//! Texts laid out anew, word by word.
ghost use Rattle.std.specs.Prelude.{◌≡◌};
ghost use Rattle.prettyless_doc.specs.BuildErrors.{IsMemory};
ghost use Rattle.prettyless_doc.specs.DocTree.{built};
ghost use Rattle.prettyless_trees.specs.Built as to;
ghost use Rattle.prettyless_build.specs.Builds.{Builds};
ghost use Rattle.prettyless_trees.specs.Words as words;

use crate::allocator::DocAllocator;
use crate::intersperse::DocAllocatorBetween;
use prettyless_build::{DocBuilder, Pretty};
use prettyless_doc::{BuildError, DocPlace};

// `softline`, made only where there is a gap.
#[derive(Drop)]
struct SoftLine;

impl<'a, D: DocPlace<'a>> Pretty<'a, D> for SoftLine {
    ghost becomes = { λ _ y. y ≡ to.softline };

    ghost refuses = { λ _. IsMemory };

    fn pretty(self, place: &'a D) -> Result<DocBuilder<'a, D>, BuildError> {
        place.softline()
    }
}

// The pieces between whitespace, with a soft line in place of each of its characters.
pub(crate) fn reflow<'a, D: DocPlace<'a>>(
    place: &'a D,
    text: &'a str,
) -> Result<DocBuilder<'a, D>, BuildError>
    ensures { Builds result (λ b. built D.Doc.tree b.1) (words.reflow text.now) }
{
    place.intersperse(text.split(|c: char| c.is_whitespace()), SoftLine)
}
