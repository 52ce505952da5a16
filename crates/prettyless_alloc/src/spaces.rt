//! Spaces, in texts of at most 100.
ghost use Rattle.std.specs.Prelude.{◌≡◌, ◌<◌, ◌≤◌, IfOk, IfErr};
ghost use Rattle.prettyless_doc.specs.BuildErrors.{IsMemory};
ghost use Rattle.prettyless_doc.specs.DocTree.{built};
ghost use Rattle.prettyless_trees.specs.Built as to;

use prettyless_build::DocBuilder;
use prettyless_doc::{BuildError, Doc, DocPlace, Text};
use prettyless_model::spaces::some_spaces;

// So many spaces. Up to 100 it takes no memory.
pub(crate) fn spaces<'a, D: DocPlace<'a>>(
    place: &'a D,
    count: usize,
) -> Result<DocBuilder<'a, D>, BuildError>
    ensures ok { IfOk result (λ b. built D.Doc.tree b.1 ≡ to.spaces_tree count) }
    ensures err { IfErr result (λ e. IsMemory e × (100 < count)) }
{
    let mut all = DocBuilder::new(place, Doc::Nil);
    for _ in 0..count / 100 {
        all = all.join(gap(place, 100))?;
    }
    all.join(gap(place, count % 100))
}

// One text of so many spaces, or nothing for none.
fn gap<'a, D: DocPlace<'a>>(place: &'a D, count: usize) -> DocBuilder<'a, D>
    requires { count ≤ 100 }
    ensures { built D.Doc.tree result.1 ≡ to.gap_tree count }
{
    if count == 0 {
        return DocBuilder::new(place, Doc::Nil);
    }
    DocBuilder::new(place, Doc::Text(Text::Borrowed(some_spaces(count))))
}
