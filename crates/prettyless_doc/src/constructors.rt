//! Documents of one node, or of few.
ghost use Rattle.std.specs.Prelude.{◌≡◌, IfOk, IfErr, IsOk};
ghost use Rattle.std.specs.Cow.{cow_str_bytes};
ghost use Rattle.prettyless_doc.specs.BuildErrors.{IsMemory};
ghost use Rattle.prettyless_trees.specs.Counted as to;
ghost use Rattle.prettyless_doc.specs.DocTree.{tree_of, built};
ghost use Rattle.prettyless_trees.specs.Lines.{space, line, line_};
ghost use Rattle.prettyless_doc.specs.TextBytes.{IfLent};
ghost use Rattle.prettyless_model.specs.Tree as tree;

use crate::doc::{BuildDoc, Doc, DocPtr};
use crate::place::DocPlace;
use crate::text::{BuildError, CowStr, Text};
use std::alloc::Global;
use std::fmt;

impl<'a, T: DocPtr<'a>> Doc<'a, T> {
    /// The empty document.
    ///
    /// ```
    /// Doc::nil() // ""
    /// ```
    pub fn nil() -> Self
        ensures { tree_of T.tree result ≡ tree.Nil }
    {
        Doc::Nil
    }

    /// A document that cannot be printed: a render that reaches it fails.
    ///
    /// ```
    /// Doc::fail() // its render answers `RenderError::Document`
    /// ```
    pub fn fail() -> Self
        ensures { tree_of T.tree result ≡ tree.Fail }
    {
        Doc::Fail
    }

    /// A line break. It keeps the groups around it from being flat, and fails under `flatten`.
    ///
    /// ```
    /// Doc::hard_line() // "\n"
    /// ```
    pub fn hard_line() -> Self
        ensures { tree_of T.tree result ≡ tree.HardLine }
    {
        Doc::HardLine
    }

    /// `hard_line` by another name.
    ///
    /// ```
    /// Doc::hardline() // "\n"
    /// ```
    pub fn hardline() -> Self
        ensures { tree_of T.tree result ≡ tree.HardLine }
    {
        Doc::hard_line()
    }

    /// A line break, left out on a fresh line where no suffix is pending. It breaks under `flatten` too, and keeps the
    /// groups around it from being flat.
    ///
    /// ```
    /// Doc::weak_line() // "\n" after a text
    /// ```
    pub fn weak_line() -> Self
        ensures { tree_of T.tree result ≡ tree.WeakLine }
    {
        Doc::WeakLine
    }

    /// A text of one space.
    ///
    /// ```
    /// Doc::space() // " "
    /// ```
    pub fn space() -> Self
        ensures { tree_of T.tree result ≡ space }
    {
        Doc::Text(Text::Borrowed(" "))
    }

    /// A space, left out at the start of a line, and at the end of a line unless a suffix is pending there.
    ///
    /// ```
    /// Doc::weak_space() // " " between two texts
    /// ```
    pub fn weak_space() -> Self
        ensures { tree_of T.tree result ≡ tree.WeakSpace }
    {
        Doc::WeakSpace
    }

    /// An empty document that keeps the groups around it from being flat.
    ///
    /// ```
    /// Doc::expand_parent() // ""
    /// ```
    pub fn expand_parent() -> Self
        ensures { tree_of T.tree result ≡ tree.ExpandParent }
    {
        Doc::ExpandParent
    }
}

impl<'a, T> Doc<'a, T> {
    /// A line break, or one space where lines are flat. It fails if memory runs out.
    ///
    /// ```
    /// Doc::line(place)? // "\n", or " " where lines are flat
    /// ```
    #[inline(always)]
    pub fn line<D: DocPlace<'a, Doc = T>>(place: &'a D) -> Result<Self, BuildError>
        ensures ok { IfOk result (λ d. tree_of T.tree d ≡ line) }
        ensures err { IfErr result IsMemory }
    {
        let broken = place.alloc(Doc::HardLine)?;
        let flat = place.alloc(Doc::Text(Text::Borrowed(" ")))?;
        Ok(Doc::BreakOrFlat(broken, flat))
    }

    /// A line break, or nothing where lines are flat. It fails if memory runs out.
    ///
    /// ```
    /// Doc::line_(place)? // "\n", or nothing where lines are flat
    /// ```
    #[inline(always)]
    pub fn line_<D: DocPlace<'a, Doc = T>>(place: &'a D) -> Result<Self, BuildError>
        ensures ok { IfOk result (λ d. tree_of T.tree d ≡ line_) }
        ensures err { IfErr result IsMemory }
    {
        let broken = place.alloc(Doc::HardLine)?;
        let flat = place.alloc(Doc::Nil)?;
        Ok(Doc::BreakOrFlat(broken, flat))
    }
}

impl<'a, D: DocPtr<'a>> BuildDoc<'a, D> {
    /// The empty document.
    ///
    /// ```
    /// BuildDoc::nil() // ""
    /// ```
    pub fn nil() -> Self
        ensures { built D.tree result ≡ tree.Nil }
    {
        BuildDoc::Doc(Doc::nil())
    }

    /// A document that cannot be printed: a render that reaches it fails.
    ///
    /// ```
    /// BuildDoc::fail() // its render answers `RenderError::Document`
    /// ```
    pub fn fail() -> Self
        ensures { built D.tree result ≡ tree.Fail }
    {
        BuildDoc::Doc(Doc::fail())
    }

    /// A line break. It keeps the groups around it from being flat, and fails under `flatten`.
    ///
    /// ```
    /// BuildDoc::hard_line() // "\n"
    /// ```
    pub fn hard_line() -> Self
        ensures { built D.tree result ≡ tree.HardLine }
    {
        BuildDoc::Doc(Doc::hard_line())
    }

    /// `hard_line` by another name.
    ///
    /// ```
    /// BuildDoc::hardline() // "\n"
    /// ```
    pub fn hardline() -> Self
        ensures { built D.tree result ≡ tree.HardLine }
    {
        BuildDoc::Doc(Doc::hardline())
    }

    /// A line break, left out on a fresh line where no suffix is pending. It breaks under `flatten` too, and keeps the
    /// groups around it from being flat.
    ///
    /// ```
    /// BuildDoc::weak_line() // "\n" after a text
    /// ```
    pub fn weak_line() -> Self
        ensures { built D.tree result ≡ tree.WeakLine }
    {
        BuildDoc::Doc(Doc::weak_line())
    }

    /// A text of one space.
    ///
    /// ```
    /// BuildDoc::space() // " "
    /// ```
    pub fn space() -> Self
        ensures { built D.tree result ≡ space }
    {
        BuildDoc::Doc(Doc::space())
    }

    /// A space, left out at the start of a line, and at the end of a line unless a suffix is pending there.
    ///
    /// ```
    /// BuildDoc::weak_space() // " " between two texts
    /// ```
    pub fn weak_space() -> Self
        ensures { built D.tree result ≡ tree.WeakSpace }
    {
        BuildDoc::Doc(Doc::weak_space())
    }

    /// An empty document that keeps the groups around it from being flat.
    ///
    /// ```
    /// BuildDoc::expand_parent() // ""
    /// ```
    pub fn expand_parent() -> Self
        ensures { built D.tree result ≡ tree.ExpandParent }
    {
        BuildDoc::Doc(Doc::expand_parent())
    }

    /// A text of one line, written unchanged: nothing if it is empty. It counts as its bytes if it is ASCII, and else
    /// as its display width. A line end in it is not seen by the layout: `multiline_text` is for such texts. Only an
    /// owned text takes memory, and fails if memory runs out.
    ///
    /// ```
    /// BuildDoc::text(alloc, CowStr::Borrowed("你好"))? // "你好", four columns
    /// ```
    pub fn text(alloc: Global, text: CowStr<'a>) -> Result<Self, BuildError>
        ensures ok { IfOk result (λ d. built D.tree d ≡ to.text (cow_str_bytes text.entry)) }
        ensures borrowed { IfLent text.entry (IsOk result) }
        ensures err { IfErr result IsMemory }
    {
        Ok(BuildDoc::Doc(Doc::text(alloc, text)?))
    }

    /// The value as `{}` formats it: an empty text where that is nothing. It counts as its bytes if it is ASCII, and
    /// else as its display width.
    ///
    /// Answers `Memory` where memory ran out, and `Display` where only the value's formatting failed. No clause says
    /// which of the two comes.
    ///
    /// ```
    /// BuildDoc::as_string(alloc, 42)? // "42"
    /// ```
    pub fn as_string<V: fmt::Display + Drop>(alloc: Global, value: V) -> Result<Self, BuildError>
        ensures ok { IfOk result (λ d. to.IsStringOf (V.output value) (built D.tree d)) }
    {
        Ok(BuildDoc::Doc(Doc::as_string(alloc, value)?))
    }

    /// A text of several lines, written unchanged, with no indent after its line ends. Each LF and each CR ends a line.
    /// It keeps the groups around it from being flat, and fails under `flatten`. Without a line end it is as `text`
    /// makes it. Only an owned text takes memory, and fails if memory runs out.
    ///
    /// ```
    /// BuildDoc::multiline_text(alloc, CowStr::Borrowed("a\nb"))? // "a\nb"
    /// ```
    pub fn multiline_text(alloc: Global, text: CowStr<'a>) -> Result<Self, BuildError>
        ensures ok { IfOk result (λ d. built D.tree d ≡ to.multiline_text (cow_str_bytes text.entry)) }
        ensures borrowed { IfLent text.entry (IsOk result) }
        ensures err { IfErr result IsMemory }
    {
        Ok(BuildDoc::Doc(Doc::multiline_text(alloc, text)?))
    }
}

impl<'a, T> BuildDoc<'a, T> {
    /// A line break, or one space where lines are flat. It fails if memory runs out.
    ///
    /// ```
    /// BuildDoc::line(place)? // "\n", or " " where lines are flat
    /// ```
    #[inline(always)]
    pub fn line<D: DocPlace<'a, Doc = T>>(place: &'a D) -> Result<Self, BuildError>
        ensures ok { IfOk result (λ d. built T.tree d ≡ line) }
        ensures err { IfErr result IsMemory }
    {
        let line = Doc::line(place)?;
        Ok(BuildDoc::DocPtr(place.alloc(line)?))
    }

    /// A line break, or nothing where lines are flat. It fails if memory runs out.
    ///
    /// ```
    /// BuildDoc::line_(place)? // "\n", or nothing where lines are flat
    /// ```
    #[inline(always)]
    pub fn line_<D: DocPlace<'a, Doc = T>>(place: &'a D) -> Result<Self, BuildError>
        ensures ok { IfOk result (λ d. built T.tree d ≡ line_) }
        ensures err { IfErr result IsMemory }
    {
        let line = Doc::line_(place)?;
        Ok(BuildDoc::DocPtr(place.alloc(line)?))
    }
}
