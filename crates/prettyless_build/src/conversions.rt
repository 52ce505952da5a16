//! What the traits of `std` make of a builder.
ghost use Rattle.std.specs.Prelude.{◌≡◌, ◌⊎◌, IfOk, IfErr};
ghost use Rattle.prettyless_model.specs.Tree.{Tree};
ghost use Rattle.prettyless_doc.specs.BuildErrors.{IsMemory};
ghost use Rattle.prettyless_doc.specs.DocTree.{built};
ghost use Rattle.prettyless_trees.specs.Built as to;

use crate::builder::DocBuilder;
use crate::pretty::Pretty;
use prettyless_doc::{BuildDoc, BuildError, DocPlace};
use std::fmt;
use std::ops::Add;

/// `append`.
impl<'a, D: DocPlace<'a>, P: Pretty<'a, D>> Add<P> for DocBuilder<'a, D> {
    type Output = Result<DocBuilder<'a, D>, BuildError>;

    ghost add_gives = { λ x that r.
        IfOk r (λ b. (y : Tree) × P.becomes that y
        × (built D.Doc.tree b.1 ≡ to.append (built D.Doc.tree x.1) y))
        × IfErr r (λ e. P.refuses that e ⊎ (IsMemory e
        × to.IsNotNil (built D.Doc.tree x.1)
        × ((y : Tree) × P.becomes that y × to.IsNotNil y))) };

    fn add(self, that: P) -> Result<DocBuilder<'a, D>, BuildError> {
        self.append(that)
    }
}

/// The document of a builder, which takes no memory.
impl<'a, D: DocPlace<'a>> From<DocBuilder<'a, D>> for BuildDoc<'a, D::Doc> {
    ghost from_gives = { λ b d. d ≡ b.1 };

    fn from(builder: DocBuilder<'a, D>) -> BuildDoc<'a, D::Doc> {
        builder.into_build_doc()
    }
}

/// Shows the document.
impl<'a, D: DocPlace<'a>> fmt::Debug for DocBuilder<'a, D> {
    fn fmt<W: fmt::Write>(&self, f: &mut fmt::Formatter<W>) -> fmt::Result {
        self.doc().fmt(f)
    }
}
