//! Documents of which a part is laid, by the mode or by what fits the line.
ghost use Rattle.prettyless_model.specs.Tree.{Nil, BreakOrFlat, Union, PartialUnion};
ghost use Rattle.prettyless_doc.specs.DocTree.{built};
ghost use Rattle.prettyless_build.specs.Builds.{Builds, BuildsOf};

use crate::builder::DocBuilder;
use crate::nodes::of_two;
use crate::pretty::Pretty;
use prettyless_doc::{BuildDoc, BuildError, Doc, DocPlace};
use prettyless_model::kind::Pair;

impl<'a, D: DocPlace<'a>> DocBuilder<'a, D> {
    /// This document where lines are broken, and `that` where they are flat. The making of `that` can fail, and memory
    /// may run out.
    ///
    /// ```
    /// place.pretty("broken")?.flat_alt("flat")?.group()? // "flat" at 4 columns, "broken" at 3
    /// ```
    pub fn flat_alt<E: Pretty<'a, D>>(self, that: E) -> Result<Self, BuildError>
        ensures { BuildsOf result (λ b. built D.Doc.tree b.1) (E.becomes that) (E.refuses that)
            (BreakOrFlat (built D.Doc.tree self.entry.1)) }
    {
        let flat = that.pretty(self.0)?;
        of_two(Pair::BreakOrFlat, self, flat)
    }

    /// Nothing where lines are broken, and this document where they are flat. It fails if memory runs out.
    ///
    /// ```
    /// docs![place, "a", place.pretty(";")?.when_group_flat()?, line_or_nil(), "b"]?.group()? // "a;b" at 3 columns, "a\nb" at 2
    /// ```
    pub fn when_group_flat(self) -> Result<Self, BuildError>
        ensures { Builds result (λ b. built D.Doc.tree b.1) (BreakOrFlat Nil (built D.Doc.tree self.entry.1)) }
    {
        let nothing = DocBuilder::new(self.0, Doc::Nil);
        of_two(Pair::BreakOrFlat, nothing, self)
    }

    /// This document where lines are broken, and nothing where they are flat. It fails if memory runs out.
    ///
    /// ```
    /// docs![place, "a", place.pretty(",")?.when_group_break()?, line_or_nil(), "b"]?.group()? // "ab" at 2 columns, "a,\nb" at 1
    /// ```
    pub fn when_group_break(self) -> Result<Self, BuildError>
        ensures { Builds result (λ b. built D.Doc.tree b.1) (BreakOrFlat (built D.Doc.tree self.entry.1) Nil) }
    {
        let nothing = DocBuilder::new(self.0, Doc::Nil);
        of_two(Pair::BreakOrFlat, self, nothing)
    }

    /// This document if it can be printed with each text within the width, and else `that`; where lines are flat, this
    /// one. It fails if memory runs out.
    ///
    /// ```
    /// docs![place, "a", hard_line(), "bcd"]?.union(BuildDoc::Doc(Doc::Nil))? // "a\nbcd" at 3 columns, nothing at 2
    /// ```
    #[inline(always)]
    pub fn union(self, that: BuildDoc<'a, D::Doc>) -> Result<Self, BuildError>
        ensures { Builds result (λ b. built D.Doc.tree b.1)
            (Union (built D.Doc.tree self.entry.1) (built D.Doc.tree that.entry)) }
    {
        let that = DocBuilder(self.0, that);
        of_two(Pair::Union, self, that)
    }

    /// This document if its first line fits, whatever comes after it, and else `that`; where lines are flat, this one.
    /// It fails if memory runs out.
    ///
    /// ```
    /// docs![place, "a", hard_line(), "bcd"]?.partial_union(BuildDoc::Doc(Doc::Nil))? // "a\nbcd" at 1 column, nothing at 0
    /// ```
    #[inline(always)]
    pub fn partial_union(self, that: BuildDoc<'a, D::Doc>) -> Result<Self, BuildError>
        ensures { Builds result (λ b. built D.Doc.tree b.1)
            (PartialUnion (built D.Doc.tree self.entry.1) (built D.Doc.tree that.entry)) }
    {
        let that = DocBuilder(self.0, that);
        of_two(Pair::PartialUnion, self, that)
    }
}
