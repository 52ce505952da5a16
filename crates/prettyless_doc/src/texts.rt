//! Documents of texts, with the columns that they count as.
ghost use Rattle.std.specs.Prelude.{◌≡◌, IfOk, IfErr, IsOk};
ghost use Rattle.std.specs.Cow.{cow_str_bytes};
ghost use Rattle.prettyless_trees.specs.Counted as to;
ghost use Rattle.prettyless_doc.specs.DocTree.{tree_of};
ghost use Rattle.prettyless_doc.specs.BuildErrors.{IsMemory};
ghost use Rattle.prettyless_doc.specs.TextBytes.{bytes_of_text, IfLent};

use crate::doc::{Doc, DocPtr};
use crate::measure::{holds_break, is_ascii, text_width};
use crate::text::{BuildError, CowStr, MultilineTextData, Text};
use std::alloc::Global;
use std::fmt;

impl<'a, T: DocPtr<'a>> Doc<'a, T> {
    // A text that counts as its bytes if it is ASCII, and else as its display width.
    #[inline(always)]
    fn counted(text: Text<'a>) -> Self
        ensures { tree_of T.tree result ≡ to.as_string (bytes_of_text text.entry) }
    {
        if is_ascii(text.as_str()) {
            return Doc::Text(text);
        }
        let width = text_width(text.as_str(), false);
        Doc::TextWithLen(width, text)
    }

    /// A text of one line, written unchanged: nothing if it is empty. It counts as its bytes if it is ASCII, and else
    /// as its display width. A line end in it is not seen by the layout: `multiline_text` is for such texts. Only an
    /// owned text takes memory, and fails if memory runs out.
    ///
    /// ```
    /// Doc::text(alloc, CowStr::Borrowed("你好"))? // "你好", four columns
    /// ```
    #[inline(always)]
    pub fn text(alloc: Global, text: CowStr<'a>) -> Result<Self, BuildError>
        ensures ok { IfOk result (λ d. tree_of T.tree d ≡ to.text (cow_str_bytes text.entry)) }
        ensures borrowed { IfLent text.entry (IsOk result) }
        ensures err { IfErr result IsMemory }
    {
        if text.len() == 0 {
            return Ok(Doc::Nil);
        }
        Ok(Doc::counted(Text::from_cow(alloc, text)?))
    }

    /// The value as `{}` formats it: an empty text where that is nothing. It counts as its bytes if it is ASCII, and
    /// else as its display width.
    ///
    /// Answers `Memory` where memory ran out, and `Display` where only the value's formatting failed. No clause says
    /// which of the two comes.
    ///
    /// ```
    /// Doc::as_string(alloc, 42)? // "42"
    /// ```
    pub fn as_string<V: fmt::Display + Drop>(alloc: Global, value: V) -> Result<Self, BuildError>
        ensures ok { IfOk result (λ d. to.IsStringOf (V.output value) (tree_of T.tree d)) }
    {
        Ok(Doc::counted(Text::from_display(alloc, value)?))
    }

    /// A text of several lines, written unchanged, with no indent after its line ends. Each LF and each CR ends a line.
    /// It keeps the groups around it from being flat, and fails under `flatten`. Without a line end it is as `text`
    /// makes it. Only an owned text takes memory, and fails if memory runs out.
    ///
    /// ```
    /// Doc::multiline_text(alloc, CowStr::Borrowed("a\nb"))? // "a\nb"
    /// ```
    pub fn multiline_text(alloc: Global, text: CowStr<'a>) -> Result<Self, BuildError>
        ensures ok { IfOk result (λ d. tree_of T.tree d ≡ to.multiline_text (cow_str_bytes text.entry)) }
        ensures borrowed { IfLent text.entry (IsOk result) }
        ensures err { IfErr result IsMemory }
    {
        if holds_break(text.as_str()) {
            return Ok(Doc::MultilineText(MultilineTextData::new(alloc, text)?));
        }
        Doc::text(alloc, text)
    }
}
