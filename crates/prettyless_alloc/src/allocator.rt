ghost use Rattle.std.specs.Prelude.{◌≡◌, ◌<◌, IfOk, IfErr, IsOk, map};
ghost use Rattle.std.specs.Cow.{cow_str_bytes};
ghost use Rattle.prettyless_model.specs.Tree.{Nil, Fail, Text as TextTree, TextWithLen, WeakSpace, HardLine, WeakLine, ExpandParent};
ghost use Rattle.prettyless_doc.specs.BuildErrors.{IsMemory};
ghost use Rattle.prettyless_trees.specs.Counted as counted;
ghost use Rattle.prettyless_doc.specs.DocTree.{built};
ghost use Rattle.prettyless_trees.specs.Lines as lines;
ghost use Rattle.prettyless_doc.specs.TextBytes.{IfLent};
ghost use Rattle.prettyless_trees.specs.Built as to;
ghost use Rattle.prettyless_build.specs.Builds.{Builds, IfPlaced, IsNever};
ghost use Rattle.prettyless_trees.specs.Lists as lists;
ghost use Rattle.prettyless_trees.specs.Words as words;

use crate::bracketed::bracketed;
use crate::punctuated::punctuated;
use crate::separate::separate;
use crate::spaces::spaces;
use crate::words::reflow;
use prettyless_build::{DocBuilder, Pretty};
use prettyless_doc::text::CowStr;
use prettyless_doc::{BuildDoc, BuildError, Doc, DocPlace, Text};
use std::fmt;

/// The calls of every allocator that start a document.
pub trait DocAllocator<'a>: DocPlace<'a> {
    /// A pointer to the document, whose node is allocated if that is not done yet. Only that takes memory, and fails if
    /// memory runs out.
    ///
    /// ```
    /// place.alloc_cow(BuildDoc::Doc(Doc::HardLine))? // a pointer to "\n"
    /// ```
    fn alloc_cow(&'a self, doc: BuildDoc<'a, Self::Doc>) -> Result<Self::Doc, BuildError>
        ensures ok { IfOk result (λ p. Self.Doc.tree p ≡ built Self.Doc.tree doc.entry) }
        ensures placed { IfPlaced doc.entry (λ p. result ≡ Ok p) }
        ensures err { IfErr result IsMemory };

    /// The empty document. It takes no memory.
    ///
    /// ```
    /// place.nil()? // ""
    /// ```
    fn nil(&'a self) -> Result<DocBuilder<'a, Self>, BuildError>
        ensures ok { IfOk result (λ b. built Self.Doc.tree b.1 ≡ Nil) }
        ensures err { IfErr result IsNever };

    /// A document that cannot be printed: a render that reaches it fails. It takes no memory.
    ///
    /// ```
    /// docs![place, "a", place.fail()?]? // writes "a", then `RenderError::Document`
    /// ```
    fn fail(&'a self) -> Result<DocBuilder<'a, Self>, BuildError>
        ensures ok { IfOk result (λ b. built Self.Doc.tree b.1 ≡ Fail) }
        ensures err { IfErr result IsNever };

    /// A text that counts as one column per byte, also where it is empty or not ASCII. Only an owned text takes memory,
    /// and fails if memory runs out.
    ///
    /// ```
    /// place.ascii_text(CowStr::Borrowed("a"))? // "a", one column
    /// ```
    fn ascii_text(&'a self, text: CowStr<'a>) -> Result<DocBuilder<'a, Self>, BuildError>
        ensures ok { IfOk result (λ b. built Self.Doc.tree b.1 ≡ TextTree (cow_str_bytes text.entry)) }
        ensures borrowed { IfLent text.entry (IsOk result) }
        ensures err { IfErr result IsMemory };

    /// A text that counts as `width` columns, for instance one with marks that are not shown. An empty one is a text
    /// too, and counts as none. Only an owned text takes memory, and fails if memory runs out.
    ///
    /// ```
    /// place.text_with_width(CowStr::Borrowed("<b>bold"), 4)? // "<b>bold", four columns
    /// ```
    fn text_with_width(
        &'a self,
        text: CowStr<'a>,
        width: usize,
    ) -> Result<DocBuilder<'a, Self>, BuildError>
        ensures ok { IfOk result (λ b. built Self.Doc.tree b.1 ≡ TextWithLen width (cow_str_bytes text.entry)) }
        ensures borrowed { IfLent text.entry (IsOk result) }
        ensures err { IfErr result IsMemory };

    /// A text of one line, written unchanged: nothing if it is empty. It counts as its bytes if it is ASCII, and else
    /// as its display width. A line end in it is not seen by the layout: `multiline_text` is for such texts. Only an
    /// owned text takes memory, and fails if memory runs out.
    ///
    /// ```
    /// place.text(CowStr::Borrowed("你好"))? // "你好", four columns
    /// ```
    fn text(&'a self, text: CowStr<'a>) -> Result<DocBuilder<'a, Self>, BuildError>
        ensures ok { IfOk result (λ b. built Self.Doc.tree b.1 ≡ counted.text (cow_str_bytes text.entry)) }
        ensures borrowed { IfLent text.entry (IsOk result) }
        ensures err { IfErr result IsMemory };

    /// The value as `{}` formats it: an empty text where that is nothing. It counts as its bytes if it is ASCII, and
    /// else as its display width.
    ///
    /// Answers `Memory` where memory ran out, and `Display` where only the value's formatting failed. No clause says
    /// which of the two comes.
    ///
    /// ```
    /// place.as_string(42)? // "42"
    /// ```
    fn as_string<V: fmt::Display + Drop>(
        &'a self,
        value: V,
    ) -> Result<DocBuilder<'a, Self>, BuildError>
        ensures ok { IfOk result (λ b. counted.IsStringOf (V.output value)
            (built Self.Doc.tree b.1)) };

    /// A text of several lines, written unchanged, with no indent after its line ends. Each LF and each CR ends a line.
    /// It keeps the groups around it from being flat, and fails under `flatten`. Without a line end it is as `text`
    /// makes it. Only an owned text takes memory, and fails if memory runs out.
    ///
    /// ```
    /// place.multiline_text(CowStr::Borrowed("a\nb"))?.nest(2)? // "a\nb"
    /// ```
    fn multiline_text(&'a self, text: CowStr<'a>) -> Result<DocBuilder<'a, Self>, BuildError>
        ensures ok { IfOk result (λ b. built Self.Doc.tree b.1 ≡ counted.multiline_text (cow_str_bytes text.entry)) }
        ensures borrowed { IfLent text.entry (IsOk result) }
        ensures err { IfErr result IsMemory };

    /// The text with a `softline` in place of each whitespace character. Each piece between is as `text` makes it. It
    /// fails if memory runs out.
    ///
    /// ```
    /// place.reflow("a b c")? // "a b\nc" at 3 columns, "a\nb\nc" at 2
    /// ```
    fn reflow(&'a self, text: &'a str) -> Result<DocBuilder<'a, Self>, BuildError>
        ensures { Builds result (λ b. built Self.Doc.tree b.1) (words.reflow text.now) };

    /// A line break. It keeps the groups around it from being flat, and fails under `flatten`. It takes no memory.
    ///
    /// ```
    /// docs![place, "a", place.hard_line()?, "b"]?.nest(2)? // "a\n  b"
    /// ```
    fn hard_line(&'a self) -> Result<DocBuilder<'a, Self>, BuildError>
        ensures ok { IfOk result (λ b. built Self.Doc.tree b.1 ≡ HardLine) }
        ensures err { IfErr result IsNever };

    /// `hard_line` by another name. It takes no memory.
    ///
    /// ```
    /// docs![place, "a", place.hardline()?, "b"]? // "a\nb"
    /// ```
    fn hardline(&'a self) -> Result<DocBuilder<'a, Self>, BuildError>
        ensures ok { IfOk result (λ b. built Self.Doc.tree b.1 ≡ HardLine) }
        ensures err { IfErr result IsNever };

    /// A line break, left out on a fresh line where no suffix is pending. It breaks under `flatten` too, and keeps the
    /// groups around it from being flat. It takes no memory.
    ///
    /// ```
    /// docs![place, "a", place.weak_line()?, place.weak_line()?, "b"]? // "a\nb"
    /// ```
    fn weak_line(&'a self) -> Result<DocBuilder<'a, Self>, BuildError>
        ensures ok { IfOk result (λ b. built Self.Doc.tree b.1 ≡ WeakLine) }
        ensures err { IfErr result IsNever };

    /// A text of one space. It takes no memory.
    ///
    /// ```
    /// docs![place, "a", place.space()?, "b"]? // "a b"
    /// ```
    fn space(&'a self) -> Result<DocBuilder<'a, Self>, BuildError>
        ensures ok { IfOk result (λ b. built Self.Doc.tree b.1 ≡ lines.space) }
        ensures err { IfErr result IsNever };

    /// A run of `count` spaces, in texts of at most 100: nothing for 0. Up to 100 it takes no memory; beyond that it
    /// fails if memory runs out.
    ///
    /// ```
    /// docs![place, "a", place.spaces(3)?, "b"]? // "a   b"
    /// ```
    fn spaces(&'a self, count: usize) -> Result<DocBuilder<'a, Self>, BuildError>
        ensures ok { IfOk result (λ b. built Self.Doc.tree b.1 ≡ to.spaces_tree count) }
        ensures err { IfErr result (λ e. IsMemory e × (100 < count)) };

    /// A space, left out at the start of a line, and at the end of a line unless a suffix is pending there. It takes no
    /// memory.
    ///
    /// ```
    /// docs![place, "a", place.weak_space()?, place.hard_line()?, "b"]? // "a\nb"
    /// ```
    fn weak_space(&'a self) -> Result<DocBuilder<'a, Self>, BuildError>
        ensures ok { IfOk result (λ b. built Self.Doc.tree b.1 ≡ WeakSpace) }
        ensures err { IfErr result IsNever };

    /// An empty document that keeps the groups around it from being flat. It takes no memory.
    ///
    /// ```
    /// docs![place, "a", place.line()?, place.expand_parent()?, "b"]?.group()? // "a\nb"
    /// ```
    fn expand_parent(&'a self) -> Result<DocBuilder<'a, Self>, BuildError>
        ensures ok { IfOk result (λ b. built Self.Doc.tree b.1 ≡ ExpandParent) }
        ensures err { IfErr result IsNever };

    /// A line break, or one space where lines are flat. It fails if memory runs out.
    ///
    /// ```
    /// docs![place, "a", place.line()?, "b"]?.group()? // "a b" at 3 columns, "a\nb" at 2
    /// ```
    fn line(&'a self) -> Result<DocBuilder<'a, Self>, BuildError>
        ensures ok { IfOk result (λ b. built Self.Doc.tree b.1 ≡ lines.line) }
        ensures err { IfErr result IsMemory };

    /// A line break, or nothing where lines are flat. It fails if memory runs out.
    ///
    /// ```
    /// docs![place, "a", place.line_()?, "b"]?.group()? // "ab" at 2 columns, "a\nb" at 1
    /// ```
    fn line_(&'a self) -> Result<DocBuilder<'a, Self>, BuildError>
        ensures ok { IfOk result (λ b. built Self.Doc.tree b.1 ≡ lines.line_) }
        ensures err { IfErr result IsMemory };

    /// One space, or a line break where what follows, up to the next possible break, would go past the width. It fails
    /// if memory runs out.
    ///
    /// ```
    /// docs![place, "a", place.softline()?, "b"]? // "a b" at 3 columns, "a\nb" at 2
    /// ```
    fn softline(&'a self) -> Result<DocBuilder<'a, Self>, BuildError>
        ensures ok { IfOk result (λ b. built Self.Doc.tree b.1 ≡ to.softline) }
        ensures err { IfErr result IsMemory };

    /// Nothing, or a line break where what follows, up to the next possible break, would go past the width. It fails if
    /// memory runs out.
    ///
    /// ```
    /// docs![place, "a", place.softline_()?, "b"]? // "ab" at 2 columns, "a\nb" at 1
    /// ```
    fn softline_(&'a self) -> Result<DocBuilder<'a, Self>, BuildError>
        ensures ok { IfOk result (λ b. built Self.Doc.tree b.1 ≡ to.softline_) }
        ensures err { IfErr result IsMemory };

    /// The documents in order, with the separator between each two: nothing if there is no document. It fails if memory
    /// runs out.
    ///
    /// It is `intersperse` of documents that are made already. So it serves a function that calls itself, whose
    /// iterator would call it too.
    ///
    /// ```
    /// place.separate(docs, place.pretty(", ")?)? // of "a" and "b": "a, b"
    /// ```
    fn separate(
        &'a self,
        docs: Vec<Self::Doc>,
        separator: DocBuilder<'a, Self>,
    ) -> Result<DocBuilder<'a, Self>, BuildError>
        ensures { Builds result (λ b. built Self.Doc.tree b.1)
            (words.intersperse (built Self.Doc.tree separator.entry.1) (map Self.Doc.tree docs.items)) };

    /// The documents in order, with the punctuation after each but the last: a comma, for instance. It fails if memory
    /// runs out.
    ///
    /// ```
    /// place.separate(place.punctuated(docs, place.pretty(",")?)?, place.line()?)? // of "a" and "b": "a,\nb"
    /// ```
    fn punctuated(
        &'a self,
        docs: Vec<Self::Doc>,
        mark: DocBuilder<'a, Self>,
    ) -> Result<Vec<Self::Doc>, BuildError>
        ensures ok { IfOk result (λ marked. map Self.Doc.tree marked.items
            ≡ lists.punctuated (built Self.Doc.tree mark.entry.1) (map Self.Doc.tree docs.items)) }
        ensures err { IfErr result IsMemory };

    /// A group of the documents between the texts `before` and `after`. Where lines are flat, one space is between each
    /// two documents. Where they are broken, each document is on a line of its own, with its indent moved by `indent`
    /// columns. Where there is no document, the two texts stand side by side, with no break. Each text is as `text`
    /// makes it. It fails if memory runs out.
    ///
    /// For a list with commas it takes the documents that `punctuated` answers.
    ///
    /// ```
    /// place.bracketed("[", docs, "]", 2)? // of "a" and "b": "[a b]" at 5 columns, "[\n  a\n  b\n]" at 4
    /// ```
    fn bracketed(
        &'a self,
        before: &'a str,
        docs: Vec<Self::Doc>,
        after: &'a str,
        indent: isize,
    ) -> Result<DocBuilder<'a, Self>, BuildError>
        ensures { Builds result (λ b. built Self.Doc.tree b.1)
            (lists.bracketed (counted.text before.now) (map Self.Doc.tree docs.items) (counted.text after.now) indent) };
}

impl<'a, D: DocPlace<'a>> DocAllocator<'a> for D {
    fn alloc_cow(&'a self, doc: BuildDoc<'a, D::Doc>) -> Result<D::Doc, BuildError>
        ensures ok { IfOk result (λ p. D.Doc.tree p ≡ built D.Doc.tree doc.entry) }
        ensures placed { IfPlaced doc.entry (λ p. result ≡ Ok p) }
        ensures err { IfErr result IsMemory }
    {
        DocBuilder(self, doc).into_doc()
    }

    #[inline(always)]
    fn nil(&'a self) -> Result<DocBuilder<'a, D>, BuildError> {
        Ok(DocBuilder::new(self, Doc::Nil))
    }

    #[inline(always)]
    fn fail(&'a self) -> Result<DocBuilder<'a, D>, BuildError> {
        Ok(DocBuilder::new(self, Doc::Fail))
    }

    fn ascii_text(&'a self, text: CowStr<'a>) -> Result<DocBuilder<'a, D>, BuildError> {
        let text = Text::from_cow(self.memory(), text)?;
        Ok(DocBuilder::new(self, Doc::Text(text)))
    }

    fn text_with_width(
        &'a self,
        text: CowStr<'a>,
        width: usize,
    ) -> Result<DocBuilder<'a, D>, BuildError> {
        let text = Text::from_cow(self.memory(), text)?;
        Ok(DocBuilder::new(self, Doc::TextWithLen(width, text)))
    }

    #[inline(always)]
    fn text(&'a self, text: CowStr<'a>) -> Result<DocBuilder<'a, D>, BuildError> {
        text.pretty(self)
    }

    fn as_string<V: fmt::Display + Drop>(
        &'a self,
        value: V,
    ) -> Result<DocBuilder<'a, D>, BuildError> {
        let doc = Doc::as_string(self.memory(), value)?;
        Ok(DocBuilder::new(self, doc))
    }

    fn multiline_text(&'a self, text: CowStr<'a>) -> Result<DocBuilder<'a, D>, BuildError> {
        let doc = Doc::multiline_text(self.memory(), text)?;
        Ok(DocBuilder::new(self, doc))
    }

    fn reflow(&'a self, text: &'a str) -> Result<DocBuilder<'a, D>, BuildError> {
        reflow(self, text)
    }

    #[inline(always)]
    fn hard_line(&'a self) -> Result<DocBuilder<'a, D>, BuildError> {
        Ok(DocBuilder::new(self, Doc::HardLine))
    }

    fn hardline(&'a self) -> Result<DocBuilder<'a, D>, BuildError> {
        self.hard_line()
    }

    #[inline(always)]
    fn weak_line(&'a self) -> Result<DocBuilder<'a, D>, BuildError> {
        Ok(DocBuilder::new(self, Doc::WeakLine))
    }

    #[inline(always)]
    fn space(&'a self) -> Result<DocBuilder<'a, D>, BuildError> {
        Ok(DocBuilder::new(self, Doc::space()))
    }

    fn spaces(&'a self, count: usize) -> Result<DocBuilder<'a, D>, BuildError> {
        spaces(self, count)
    }

    #[inline(always)]
    fn weak_space(&'a self) -> Result<DocBuilder<'a, D>, BuildError> {
        Ok(DocBuilder::new(self, Doc::WeakSpace))
    }

    #[inline(always)]
    fn expand_parent(&'a self) -> Result<DocBuilder<'a, D>, BuildError> {
        Ok(DocBuilder::new(self, Doc::ExpandParent))
    }

    #[inline(always)]
    fn line(&'a self) -> Result<DocBuilder<'a, D>, BuildError> {
        Ok(DocBuilder(self, BuildDoc::line(self)?))
    }

    #[inline(always)]
    fn line_(&'a self) -> Result<DocBuilder<'a, D>, BuildError> {
        Ok(DocBuilder(self, BuildDoc::line_(self)?))
    }

    #[inline(always)]
    fn softline(&'a self) -> Result<DocBuilder<'a, D>, BuildError> {
        let line = self.line()?.into_doc()?;
        Ok(DocBuilder::new(self, Doc::Group(line)))
    }

    #[inline(always)]
    fn softline_(&'a self) -> Result<DocBuilder<'a, D>, BuildError> {
        let line = self.line_()?.into_doc()?;
        Ok(DocBuilder::new(self, Doc::Group(line)))
    }

    fn separate(
        &'a self,
        docs: Vec<D::Doc>,
        separator: DocBuilder<'a, D>,
    ) -> Result<DocBuilder<'a, D>, BuildError>
        ensures { Builds result (λ b. built D.Doc.tree b.1)
            (words.intersperse (built D.Doc.tree separator.entry.1) (map D.Doc.tree docs.items)) }
    {
        separate(self, docs, separator)
    }

    fn punctuated(
        &'a self,
        docs: Vec<D::Doc>,
        mark: DocBuilder<'a, D>,
    ) -> Result<Vec<D::Doc>, BuildError>
        ensures ok { IfOk result (λ marked. map D.Doc.tree marked.items
            ≡ lists.punctuated (built D.Doc.tree mark.entry.1) (map D.Doc.tree docs.items)) }
        ensures err { IfErr result IsMemory }
    {
        punctuated(self, docs, mark)
    }

    fn bracketed(
        &'a self,
        before: &'a str,
        docs: Vec<D::Doc>,
        after: &'a str,
        indent: isize,
    ) -> Result<DocBuilder<'a, D>, BuildError>
        ensures { Builds result (λ b. built D.Doc.tree b.1)
            (lists.bracketed (counted.text before.now) (map D.Doc.tree docs.items) (counted.text after.now) indent) }
    {
        bracketed(self, before, docs, after, indent)
    }
}
