//! Documents between two others.
ghost use Rattle.std.specs.Prelude.{◌≡◌, ◌⊎◌, IfOk, IfErr};
ghost use Rattle.prettyless_model.specs.Tree.{Tree, Text as TextTree};
ghost use Rattle.prettyless_doc.specs.BuildErrors.{IsMemory};
ghost use Rattle.prettyless_doc.specs.DocTree.{built};
ghost use Rattle.prettyless_trees.specs.Built as to;
ghost use Rattle.prettyless_build.specs.Builds.{Builds};

use crate::builder::DocBuilder;
use crate::pretty::Pretty;
use prettyless_doc::{BuildError, Doc, DocPlace, Text};

impl<'a, D: DocPlace<'a>> DocBuilder<'a, D> {
    /// `before`, this document and `after`, appended. It fails as the making of `before` or of `after` does, and if
    /// memory runs out. It takes memory only where two of the three are something.
    ///
    /// ```
    /// place.pretty("a")?.enclose("let ", ";")? // "let a;"
    /// ```
    pub fn enclose<B: Pretty<'a, D>, A: Pretty<'a, D>>(
        self,
        before: B,
        after: A,
    ) -> Result<Self, BuildError>
        ensures ok { IfOk result (λ b. (x : Tree) × (y : Tree)
            × B.becomes before x × A.becomes after y
            × (built D.Doc.tree b.1 ≡ to.enclose x (built D.Doc.tree self.entry.1) y)) }
        ensures err { IfErr result (λ e. B.refuses before e ⊎ A.refuses after e ⊎ (IsMemory e
            × ((x : Tree) × (y : Tree) × B.becomes before x × A.becomes after y
            × to.IsNodeNeeded x (built D.Doc.tree self.entry.1) y))) }
    {
        let place = self.0;
        let before = Pretty::pretty(before, place);
        let after = Pretty::pretty(after, place);
        let (before, after) = (before?, after?);
        before.join(self)?.join(after)
    }

    // This document between two texts, each of which counts as its bytes.
    fn between(self, before: &'a str, after: &'a str) -> Result<Self, BuildError>
        ensures { Builds result (λ b. built D.Doc.tree b.1)
            (to.enclose (TextTree before.now) (built D.Doc.tree self.entry.1) (TextTree after.now)) }
    {
        let place = self.0;
        let before = DocBuilder::new(place, Doc::Text(Text::Borrowed(before)));
        let after = DocBuilder::new(place, Doc::Text(Text::Borrowed(after)));
        before.join(self)?.join(after)
    }

    /// This document between single quotes. It fails if memory runs out.
    ///
    /// ```
    /// place.pretty("a")?.single_quotes()? // "'a'"
    /// ```
    pub fn single_quotes(self) -> Result<Self, BuildError>
        ensures { Builds result (λ b. built D.Doc.tree b.1) (to.between 39 39 (built D.Doc.tree self.entry.1)) }
    {
        self.between("'", "'")
    }

    /// This document between double quotes. It fails if memory runs out.
    ///
    /// ```
    /// place.pretty("a")?.double_quotes()? // "\"a\""
    /// ```
    pub fn double_quotes(self) -> Result<Self, BuildError>
        ensures { Builds result (λ b. built D.Doc.tree b.1) (to.between 34 34 (built D.Doc.tree self.entry.1)) }
    {
        self.between("\"", "\"")
    }

    /// This document between parentheses. It fails if memory runs out.
    ///
    /// ```
    /// place.pretty("a")?.parens()? // "(a)"
    /// ```
    pub fn parens(self) -> Result<Self, BuildError>
        ensures { Builds result (λ b. built D.Doc.tree b.1) (to.between 40 41 (built D.Doc.tree self.entry.1)) }
    {
        self.between("(", ")")
    }

    /// This document between angle brackets. It fails if memory runs out.
    ///
    /// ```
    /// place.pretty("a")?.angles()? // "<a>"
    /// ```
    pub fn angles(self) -> Result<Self, BuildError>
        ensures { Builds result (λ b. built D.Doc.tree b.1) (to.between 60 62 (built D.Doc.tree self.entry.1)) }
    {
        self.between("<", ">")
    }

    /// This document between braces. It fails if memory runs out.
    ///
    /// ```
    /// place.pretty("a")?.braces()? // "{a}"
    /// ```
    pub fn braces(self) -> Result<Self, BuildError>
        ensures { Builds result (λ b. built D.Doc.tree b.1) (to.between 123 125 (built D.Doc.tree self.entry.1)) }
    {
        self.between("{", "}")
    }

    /// This document between square brackets. It fails if memory runs out.
    ///
    /// ```
    /// place.pretty("a")?.brackets()? // "[a]"
    /// ```
    pub fn brackets(self) -> Result<Self, BuildError>
        ensures { Builds result (λ b. built D.Doc.tree b.1) (to.between 91 93 (built D.Doc.tree self.entry.1)) }
    {
        self.between("[", "]")
    }
}
