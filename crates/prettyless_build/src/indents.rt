//! Documents with another indent, in columns.
ghost use Rattle.std.specs.Prelude.{◌≤◌, ◌-◌, ◌^◌, pos, neg_ℤ};
ghost use Rattle.prettyless_doc.specs.DocTree.{built};
ghost use Rattle.prettyless_trees.specs.Built as to;
ghost use Rattle.prettyless_build.specs.Builds.{BuildsOrKeeps};

use crate::builder::DocBuilder;
use crate::nodes::around;
use prettyless_doc::{BuildError, Doc, DocPlace};
use prettyless_model::kind::{Indenting, Single};

impl<'a, D: DocPlace<'a>> DocBuilder<'a, D> {
    /// This document with its indent moved by `offset` columns. By 0, or where it is nothing, it stays as it is, which
    /// takes no memory; else memory may run out.
    ///
    /// ```
    /// docs![place, "a", hard_line(), "b"]?.nest(2)? // "a\n  b"
    /// ```
    #[inline(always)]
    pub fn nest(self, offset: isize) -> Result<Self, BuildError>
        ensures { BuildsOrKeeps result (λ b. built D.Doc.tree b.1)
            (to.nest offset (built D.Doc.tree self.entry.1))
            (to.keeps_nested offset (built D.Doc.tree self.entry.1)) self.entry }
    {
        if offset == 0 || self.doc().is_nil() {
            return Ok(self);
        }
        let place = self.0;
        let inner = self.into_doc()?;
        Ok(DocBuilder::new(place, Doc::Nest(offset, inner)))
    }

    /// This document with its indent moved right by `offset` columns, at most `isize::MAX`. By 0, or where it is
    /// nothing, it stays as it is, which takes no memory; else memory may run out.
    ///
    /// ```
    /// docs![place, "a", hard_line(), "b"]?.indent(2)? // "a\n  b"
    /// ```
    pub fn indent(self, offset: usize) -> Result<Self, BuildError>
        requires { offset ≤ 2 ^ 63 - 1 }
        ensures { BuildsOrKeeps result (λ b. built D.Doc.tree b.1)
            (to.nest (pos offset) (built D.Doc.tree self.entry.1))
            (to.keeps_nested (pos offset) (built D.Doc.tree self.entry.1)) self.entry }
    {
        self.nest(offset as isize)
    }

    /// This document with its indent moved left by `offset` columns, at most `isize::MAX`. By 0, or where it is
    /// nothing, it stays as it is, which takes no memory; else memory may run out.
    ///
    /// ```
    /// docs![place, "a", hard_line(), "b"]?.dedent(1)?.indent(2)? // "a\n b"
    /// ```
    pub fn dedent(self, offset: usize) -> Result<Self, BuildError>
        requires { offset ≤ 2 ^ 63 - 1 }
        ensures { BuildsOrKeeps result (λ b. built D.Doc.tree b.1)
            (to.nest (neg_ℤ (pos offset)) (built D.Doc.tree self.entry.1))
            (to.keeps_nested (neg_ℤ (pos offset)) (built D.Doc.tree self.entry.1)) self.entry }
    {
        self.nest(-(offset as isize))
    }

    /// This document with indent 0. Where it is nothing, or has that already, it stays as it is, which takes no memory;
    /// else memory may run out.
    ///
    /// ```
    /// docs![place, "a", hard_line(), "b"]?.dedent_to_root()?.nest(2)? // "a\nb"
    /// ```
    pub fn dedent_to_root(self) -> Result<Self, BuildError>
        ensures { BuildsOrKeeps result (λ b. built D.Doc.tree b.1)
            (to.dedent_to_root (built D.Doc.tree self.entry.1))
            (to.keeps_dedented (built D.Doc.tree self.entry.1)) self.entry }
    {
        match self.doc() {
            Doc::Nil | Doc::DedentToRoot(_) => Ok(self),
            _ => around(Single::Indented(Indenting::DedentToRoot), self),
        }
    }

    /// This document with its indent at the column where it starts. Where it is nothing, or has that already, it stays
    /// as it is, which takes no memory; else memory may run out.
    ///
    /// ```
    /// docs![place, "a = ", docs![place, "b", hard_line(), "c"]?.align()?]? // "a = b\n    c"
    /// ```
    pub fn align(self) -> Result<Self, BuildError>
        ensures { BuildsOrKeeps result (λ b. built D.Doc.tree b.1)
            (to.align (built D.Doc.tree self.entry.1))
            (to.keeps_aligned (built D.Doc.tree self.entry.1)) self.entry }
    {
        match self.doc() {
            Doc::Nil | Doc::Align(_) => Ok(self),
            _ => around(Single::Indented(Indenting::Align), self),
        }
    }
}
