//! The constructors of pointers: each document has its place at once.
ghost use Rattle.std.specs.Prelude.{◌≡◌, ◌⊎◌, IfOk, IfErr, List};
ghost use Rattle.std.specs.Cow.{cow_str_bytes};
ghost use Rattle.std.specs.Iterator.{IsFiniteIterable};
ghost use Rattle.prettyless_model.specs.Tree.{Tree, Nil, Fail, TextWithLen, WeakSpace, HardLine, WeakLine, ExpandParent, BreakOrFlat};
ghost use Rattle.prettyless_model.specs.Tree.{Union, OnColumn, OnNesting};
ghost use Rattle.prettyless_doc.specs.BuildErrors.{IsMemory};
ghost use Rattle.prettyless_trees.specs.Counted as counted;
ghost use Rattle.prettyless_doc.specs.DocTree.{built};
ghost use Rattle.prettyless_trees.specs.Lines as lines;
ghost use Rattle.prettyless_trees.specs.Built as to;
ghost use Rattle.prettyless_build.specs.Builds.{Builds, BuildsOf, BuildsOfTwo, BuildsOrKeeps};
ghost use Rattle.prettyless_build.specs.Iterated.{GivesAll, GivesSome, HasGap, Concatenates, Intersperses};
ghost use Rattle.prettyless_placed.specs.Placed.{Places};

use prettyless_alloc::{DocAllocator, DocAllocatorBetween, DocAllocatorOfTwo, DocAllocatorOver};
use prettyless_build::{DocBuilder, Pretty};
use prettyless_doc::text::CowStr;
use prettyless_doc::{BuildDoc, BuildError, DocPlace, DocPtr};
use prettyless_model::choice::{ColumnTest, NestingTest};
use std::fmt;

/// The calls of every pointer to a node of an allocator `D`. Each allocates what it makes, and fails if memory runs
/// out.
///
/// The examples are for a `BoxDoc`, where `place` is a `&BoxAllocator`. An `RcDoc` and a `RefDoc` have the same calls.
pub trait PlacedDoc<'a, D: DocPlace<'a, Doc = Self>>: DocPtr<'a> {
    /// The empty document.
    ///
    /// ```
    /// BoxDoc::nil(place)? // ""
    /// ```
    fn nil(place: &'a D) -> Result<Self, BuildError>
        ensures { Builds result Self.tree Nil };

    /// A document that cannot be printed: a render that reaches it fails.
    ///
    /// ```
    /// docs![place, "a", BoxDoc::fail(place)?]? // writes "a", then `RenderError::Document`
    /// ```
    fn fail(place: &'a D) -> Result<Self, BuildError>
        ensures { Builds result Self.tree Fail };

    /// A line break. It keeps the groups around it from being flat, and fails under `flatten`.
    ///
    /// ```
    /// docs![place, "a", BoxDoc::hard_line(place)?, "b"]?.nest(2)? // "a\n  b"
    /// ```
    fn hard_line(place: &'a D) -> Result<Self, BuildError>
        ensures { Builds result Self.tree HardLine };

    /// `hard_line` by another name.
    ///
    /// ```
    /// docs![place, "a", BoxDoc::hardline(place)?, "b"]? // "a\nb"
    /// ```
    fn hardline(place: &'a D) -> Result<Self, BuildError>
        ensures { Builds result Self.tree HardLine };

    /// A line break, left out on a fresh line where no suffix is pending. It breaks under `flatten` too, and keeps the
    /// groups around it from being flat.
    ///
    /// ```
    /// docs![place, "a", BoxDoc::weak_line(place)?, BoxDoc::weak_line(place)?, "b"]? // "a\nb"
    /// ```
    fn weak_line(place: &'a D) -> Result<Self, BuildError>
        ensures { Builds result Self.tree WeakLine };

    /// A text of one space.
    ///
    /// ```
    /// docs![place, "a", BoxDoc::space(place)?, "b"]? // "a b"
    /// ```
    fn space(place: &'a D) -> Result<Self, BuildError>
        ensures { Builds result Self.tree lines.space };

    /// A space, left out at the start of a line, and at the end of a line unless a suffix is pending there.
    ///
    /// ```
    /// docs![place, "a", BoxDoc::weak_space(place)?, BoxDoc::hard_line(place)?, "b"]? // "a\nb"
    /// ```
    fn weak_space(place: &'a D) -> Result<Self, BuildError>
        ensures { Builds result Self.tree WeakSpace };

    /// An empty document that keeps the groups around it from being flat.
    ///
    /// ```
    /// docs![place, "a", BoxDoc::line(place)?, BoxDoc::expand_parent(place)?, "b"]?.group()? // "a\nb"
    /// ```
    fn expand_parent(place: &'a D) -> Result<Self, BuildError>
        ensures { Builds result Self.tree ExpandParent };

    /// A line break, or one space where lines are flat.
    ///
    /// ```
    /// docs![place, "a", BoxDoc::line(place)?, "b"]?.group()? // "a b" at 3 columns, "a\nb" at 2
    /// ```
    fn line(place: &'a D) -> Result<Self, BuildError>
        ensures { Builds result Self.tree lines.line };

    /// A line break, or nothing where lines are flat.
    ///
    /// ```
    /// docs![place, "a", BoxDoc::line_(place)?, "b"]?.group()? // "ab" at 2 columns, "a\nb" at 1
    /// ```
    fn line_(place: &'a D) -> Result<Self, BuildError>
        ensures { Builds result Self.tree lines.line_ };

    /// One space, or a line break where what follows, up to the next possible break, would go past the width.
    ///
    /// ```
    /// docs![place, "a", BoxDoc::softline(place)?, "b"]? // "a b" at 3 columns, "a\nb" at 2
    /// ```
    fn softline(place: &'a D) -> Result<Self, BuildError>
        ensures { Builds result Self.tree to.softline };

    /// Nothing, or a line break where what follows, up to the next possible break, would go past the width.
    ///
    /// ```
    /// docs![place, "a", BoxDoc::softline_(place)?, "b"]? // "ab" at 2 columns, "a\nb" at 1
    /// ```
    fn softline_(place: &'a D) -> Result<Self, BuildError>
        ensures { Builds result Self.tree to.softline_ };

    /// A text of one line, written unchanged: nothing if it is empty. It counts as its bytes if it is ASCII, and else
    /// as its display width. A line end in it is not seen by the layout: `multiline_text` is for such texts.
    ///
    /// ```
    /// BoxDoc::text(place, CowStr::Borrowed("你好"))? // "你好", four columns
    /// ```
    fn text(place: &'a D, text: CowStr<'a>) -> Result<Self, BuildError>
        ensures { Builds result Self.tree (counted.text (cow_str_bytes text.entry)) };

    /// A text that counts as `width` columns. An empty one is a text too, and counts as none.
    ///
    /// ```
    /// BoxDoc::text_with_width(place, CowStr::Borrowed("<b>bold"), 4)? // "<b>bold", four columns
    /// ```
    fn text_with_width(place: &'a D, text: CowStr<'a>, width: usize) -> Result<Self, BuildError>
        ensures { Builds result Self.tree (TextWithLen width (cow_str_bytes text.entry)) };

    /// The value as `{}` formats it: an empty text where that is nothing. It counts as its bytes if it is ASCII, and
    /// else as its display width.
    ///
    /// Answers `Memory` where memory ran out, and `Display` where only the value's formatting failed.
    ///
    /// ```
    /// BoxDoc::as_string(place, 42)? // "42"
    /// ```
    fn as_string<V: fmt::Display + Drop>(place: &'a D, value: V) -> Result<Self, BuildError>
        ensures ok { IfOk result (λ p. counted.IsStringOf (V.output value) (Self.tree p)) };

    /// A text of several lines, written unchanged, with no indent after its line ends. Each LF and each CR ends a line.
    /// It keeps the groups around it from being flat, and fails under `flatten`. Without a line end it is as `text`
    /// makes it.
    ///
    /// ```
    /// BoxDoc::multiline_text(place, CowStr::Borrowed("a\nb"))?.nest(place, 2)? // "a\nb"
    /// ```
    fn multiline_text(place: &'a D, text: CowStr<'a>) -> Result<Self, BuildError>
        ensures { Builds result Self.tree (counted.multiline_text (cow_str_bytes text.entry)) };

    /// This document, flat if it fits the line together with what follows up to the next line break, and else broken.
    /// Where it is nothing, a text or a group, it stays as it is, which takes no memory.
    ///
    /// ```
    /// docs![place, "a", line_or_space(), "b"]?.into_doc()?.group(place)? // "a b" at 3 columns, "a\nb" at 2
    /// ```
    fn group(self, place: &'a D) -> Result<Self, BuildError>
        ensures { BuildsOrKeeps result Self.tree
            (to.group (Self.tree self))
            (to.keeps_grouped (Self.tree self)) self };

    /// This document with its indent moved by `offset` columns. By 0, or where it is nothing, it stays as it is, which
    /// takes no memory.
    ///
    /// ```
    /// docs![place, "a", hard_line(), "b"]?.into_doc()?.nest(place, 2)? // "a\n  b"
    /// ```
    fn nest(self, place: &'a D, offset: isize) -> Result<Self, BuildError>
        ensures { BuildsOrKeeps result Self.tree
            (to.nest offset (Self.tree self))
            (to.keeps_nested offset (Self.tree self)) self };

    /// This document if it can be printed with each text within the width, and else `that`; where lines are flat, this
    /// one.
    ///
    /// ```
    /// let lines = docs![place, "a", hard_line(), "bcd"]?.into_doc()?;
    /// lines.union(place, BuildDoc::Doc(Doc::Nil))? // "a\nbcd" at 3 columns, nothing at 2
    /// ```
    fn union(self, place: &'a D, that: BuildDoc<'a, Self>) -> Result<Self, BuildError>
        ensures { Builds result Self.tree (Union (Self.tree self) (built Self.tree that.entry)) };
}

// A pointer to what a call has built, or its error. Each call of a builder is passed to it, so that none unwraps its
// own.
#[inline(always)]
fn placed<'a, D: DocPlace<'a>>(
    made: Result<DocBuilder<'a, D>, BuildError>,
) -> Result<D::Doc, BuildError>
    ensures { Places made.entry (λ b. b.1) D.Doc.tree result }
{
    made?.into_doc()
}

impl<'a, D: DocPlace<'a, Doc = T>, T: DocPtr<'a>> PlacedDoc<'a, D> for T {
    fn nil(place: &'a D) -> Result<T, BuildError> {
        placed(place.nil())
    }

    fn fail(place: &'a D) -> Result<T, BuildError> {
        placed(place.fail())
    }

    fn hard_line(place: &'a D) -> Result<T, BuildError> {
        placed(place.hard_line())
    }

    fn hardline(place: &'a D) -> Result<T, BuildError> {
        placed(place.hardline())
    }

    fn weak_line(place: &'a D) -> Result<T, BuildError> {
        placed(place.weak_line())
    }

    fn space(place: &'a D) -> Result<T, BuildError> {
        placed(place.space())
    }

    fn weak_space(place: &'a D) -> Result<T, BuildError> {
        placed(place.weak_space())
    }

    fn expand_parent(place: &'a D) -> Result<T, BuildError> {
        placed(place.expand_parent())
    }

    fn line(place: &'a D) -> Result<T, BuildError> {
        placed(place.line())
    }

    fn line_(place: &'a D) -> Result<T, BuildError> {
        placed(place.line_())
    }

    fn softline(place: &'a D) -> Result<T, BuildError> {
        placed(place.softline())
    }

    fn softline_(place: &'a D) -> Result<T, BuildError> {
        placed(place.softline_())
    }

    fn text(place: &'a D, text: CowStr<'a>) -> Result<T, BuildError> {
        placed(place.text(text))
    }

    fn text_with_width(place: &'a D, text: CowStr<'a>, width: usize) -> Result<T, BuildError> {
        placed(place.text_with_width(text, width))
    }

    fn as_string<V: fmt::Display + Drop>(place: &'a D, value: V) -> Result<T, BuildError> {
        placed(place.as_string(value))
    }

    fn multiline_text(place: &'a D, text: CowStr<'a>) -> Result<T, BuildError> {
        placed(place.multiline_text(text))
    }

    fn group(self, place: &'a D) -> Result<T, BuildError> {
        placed(DocBuilder::from_doc(place, self).group())
    }

    fn nest(self, place: &'a D, offset: isize) -> Result<T, BuildError> {
        placed(DocBuilder::from_doc(place, self).nest(offset))
    }

    fn union(self, place: &'a D, that: BuildDoc<'a, T>) -> Result<T, BuildError>
        ensures { Builds result T.tree (Union (T.tree self) (built T.tree that.entry)) }
    {
        placed(DocBuilder::from_doc(place, self).union(that))
    }
}

/// The calls of a pointer that take a document of type `P`. The making of that one can fail, and memory may run out.
///
/// `P` is a parameter of the trait and not of its calls, as for `DocAllocatorOf`.
pub trait PlacedDocOf<'a, D: DocPlace<'a, Doc = Self>, P: Pretty<'a, D>>: DocPtr<'a> {
    /// This document, then `that`. Where this one is nothing it is `that`. Where `that` is nothing it
    /// stays as it is, which takes no memory.
    ///
    /// ```
    /// BoxDoc::text(place, CowStr::Borrowed("a"))?.append(place, "b")? // "ab"
    /// ```
    fn append(self, place: &'a D, that: P) -> Result<Self, BuildError>
        ensures ok { IfOk result (λ p. (y : Tree) × P.becomes that y
            × (Self.tree p ≡ to.append (Self.tree self) y)) }
        ensures err { IfErr result (λ e. P.refuses that e ⊎ (IsMemory e
            × ((y : Tree) × P.becomes that y × to.IsNotNil y))) };

    /// This document where lines are broken, and `that` where they are flat.
    ///
    /// ```
    /// let broken = BoxDoc::text(place, CowStr::Borrowed("broken"))?;
    /// broken.flat_alt(place, "flat")?.group(place)? // "flat" at 4 columns, "broken" at 3
    /// ```
    fn flat_alt(self, place: &'a D, that: P) -> Result<Self, BuildError>
        ensures { BuildsOf result Self.tree (P.becomes that) (P.refuses that) (BreakOrFlat (Self.tree self)) };
}

impl<'a, D: DocPlace<'a, Doc = T>, P: Pretty<'a, D>, T: DocPtr<'a>> PlacedDocOf<'a, D, P> for T {
    fn append(self, place: &'a D, that: P) -> Result<T, BuildError> {
        let that = that.pretty(place)?;
        if that.doc().is_nil() {
            return Ok(self);
        }
        placed(DocBuilder::from_doc(place, self).join(that))
    }

    fn flat_alt(self, place: &'a D, that: P) -> Result<T, BuildError> {
        placed(DocBuilder::from_doc(place, self).flat_alt(that))
    }
}

/// The calls of a pointer that take a document of type `P` and one of type `Q`. The making of each can fail, and memory
/// may run out.
pub trait PlacedDocOfTwo<
    'a,
    D: DocPlace<'a, Doc = Self>,
    P: Pretty<'a, D>,
    Q: Pretty<'a, D>,
>: DocPtr<'a> {
    /// The first document if the test holds at the column where it would start, and else the second, in flat lines too.
    ///
    /// ```
    /// docs![place, "ab", BoxDoc::if_column(place, ColumnTest::AtMost(1), "c", "d")?]? // "abd"
    /// ```
    fn if_column(place: &'a D, test: ColumnTest, first: P, second: Q) -> Result<Self, BuildError>
        ensures { BuildsOfTwo result Self.tree (P.becomes first) (Q.becomes second)
            (P.refuses first) (Q.refuses second) (OnColumn test) };

    /// The first document if the test holds for the indent, and else the second, in flat lines too.
    ///
    /// ```
    /// BoxDoc::if_nesting(place, NestingTest::AtLeast(2), "c", "d")?.nest(place, 2)? // "c"
    /// ```
    fn if_nesting(place: &'a D, test: NestingTest, first: P, second: Q) -> Result<Self, BuildError>
        ensures { BuildsOfTwo result Self.tree (P.becomes first) (Q.becomes second)
            (P.refuses first) (Q.refuses second) (OnNesting test) };
}

impl<
    'a,
    D: DocPlace<'a, Doc = T>,
    P: Pretty<'a, D>,
    Q: Pretty<'a, D>,
    T: DocPtr<'a>,
> PlacedDocOfTwo<'a, D, P, Q> for T {
    fn if_column(place: &'a D, test: ColumnTest, first: P, second: Q) -> Result<T, BuildError> {
        placed(place.if_column(test, first, second))
    }

    fn if_nesting(place: &'a D, test: NestingTest, first: P, second: Q) -> Result<T, BuildError> {
        placed(place.if_nesting(test, first, second))
    }
}

/// The calls of a pointer that take an iterator `I`. The making of an item can fail, and memory may run out.
pub trait PlacedDocOver<'a, D: DocPlace<'a, Doc = Self>, I: IntoIterator>: DocPtr<'a>
where
    I::Item: Pretty<'a, D>,
{
    /// The documents of the items, appended in order: nothing if there is no item.
    ///
    /// `docs` has to be an iterator whose `next` may be called, and one that ends: the prover asks for both.
    ///
    /// ```
    /// BoxDoc::concat(place, ["a", "b"])? // "ab"
    /// ```
    fn concat(place: &'a D, docs: I) -> Result<Self, BuildError>
        requires { IsFiniteIterable I.into_iter_gives I.IntoIter.can_next I.IntoIter.remaining docs }
        ensures ok { IfOk result (λ p. (xs : List I.Item)
            × GivesAll I.into_iter_gives I.IntoIter.next_gives docs xs
            × Concatenates I.Item.becomes xs (Self.tree p)) }
        ensures err { IfErr result (λ e. IsMemory e
            ⊎ GivesSome I.into_iter_gives I.IntoIter.next_gives docs (λ x. I.Item.refuses x e)) };
}

impl<'a, D: DocPlace<'a, Doc = T>, I: IntoIterator, T: DocPtr<'a>> PlacedDocOver<'a, D, I> for T
where
    I::Item: Pretty<'a, D>,
{
    fn concat(place: &'a D, docs: I) -> Result<T, BuildError> {
        placed(place.concat(docs))
    }
}

/// The calls of a pointer that take an iterator `I` and a separator `S`. The making of an item or of the separator can
/// fail, and memory may run out.
pub trait PlacedDocBetween<
    'a,
    D: DocPlace<'a, Doc = Self>,
    I: IntoIterator,
    S: Pretty<'a, D> + Drop,
>: DocPtr<'a>
where
    I::Item: Pretty<'a, D>,
{
    /// The documents of the items in order, with the separator between each two: nothing if there is no item. The
    /// separator becomes a document once, and only if there are two items.
    ///
    /// `docs` has to be an iterator whose `next` may be called, and one that ends: the prover asks for both.
    ///
    /// ```
    /// BoxDoc::intersperse(place, ["a", "b"], ", ")? // "a, b"
    /// ```
    fn intersperse(place: &'a D, docs: I, separator: S) -> Result<Self, BuildError>
        requires { IsFiniteIterable I.into_iter_gives I.IntoIter.can_next I.IntoIter.remaining docs }
        ensures ok { IfOk result (λ p. (xs : List I.Item)
            × GivesAll I.into_iter_gives I.IntoIter.next_gives docs xs
            × Intersperses I.Item.becomes (S.becomes separator) xs (Self.tree p)) }
        ensures err { IfErr result (λ e. IsMemory e
            ⊎ (S.refuses separator e × HasGap I.into_iter_gives I.IntoIter.next_gives docs)
            ⊎ GivesSome I.into_iter_gives I.IntoIter.next_gives docs (λ x. I.Item.refuses x e)) };
}

impl<
    'a,
    D: DocPlace<'a, Doc = T>,
    I: IntoIterator,
    S: Pretty<'a, D> + Drop,
    T: DocPtr<'a>,
> PlacedDocBetween<'a, D, I, S> for T
where
    I::Item: Pretty<'a, D>,
{
    fn intersperse(place: &'a D, docs: I, separator: S) -> Result<T, BuildError> {
        placed(place.intersperse(docs, separator))
    }
}
