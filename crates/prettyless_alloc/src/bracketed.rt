//! Documents of a vector between brackets.
ghost use Rattle.std.specs.Prelude.{map};
ghost use Rattle.prettyless_trees.specs.Counted as counted;
ghost use Rattle.prettyless_doc.specs.DocTree.{built};
ghost use Rattle.prettyless_trees.specs.Lines as lines;
ghost use Rattle.prettyless_trees.specs.Built as to;
ghost use Rattle.prettyless_build.specs.Builds.{Builds};
ghost use Rattle.prettyless_trees.specs.Lists as lists;
ghost use Rattle.prettyless_trees.specs.Words as words;

use crate::allocator::DocAllocator;
use prettyless_build::{DocBuilder, Pretty};
use prettyless_doc::{BuildError, DocPlace};

// The documents between two texts, in a group: on lines of their own, or flat with a space in each gap.
pub(crate) fn bracketed<'a, D: DocPlace<'a>>(
    place: &'a D,
    before: &'a str,
    docs: Vec<D::Doc>,
    after: &'a str,
    indent: isize,
) -> Result<DocBuilder<'a, D>, BuildError>
    ensures { Builds result (λ b. built D.Doc.tree b.1)
        (lists.bracketed (counted.text before.now) (map D.Doc.tree docs.items) (counted.text after.now) indent) }
{
    let before = Pretty::pretty(before, place)?;
    let after = Pretty::pretty(after, place)?;
    if docs.is_empty() {
        return before.join(after);
    }
    let inside = on_lines(place, docs, indent)?;
    before.join(inside)?.join(after)?.group()
}

// The documents, nested, with a line before the first, one in each gap, and one after the last that is not nested.
fn on_lines<'a, D: DocPlace<'a>>(
    place: &'a D,
    docs: Vec<D::Doc>,
    indent: isize,
) -> Result<DocBuilder<'a, D>, BuildError>
    ensures { Builds result (λ b. built D.Doc.tree b.1)
        (to.append (to.nest indent (to.append lines.line_ (words.intersperse lines.line (map D.Doc.tree docs.items)))) lines.line_) }
{
    let gap = place.line()?;
    let docs = place.separate(docs, gap)?;
    let nested = place.line_()?.join(docs)?.nest(indent)?;
    nested.join(place.line_()?)
}
