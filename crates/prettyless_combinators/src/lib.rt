//! Combinators: values that become documents once there is a place of nodes. To make one takes no memory.
//!
//! `pretty` makes its document. That fails as the same call of a place or a builder does, or as the making of a value that
//! it holds.
//!
//! An example is a value. Beside it is the layout of its document, at any width where none is named.
#![tactic(auto)]

ghost use Rattle.std.specs.Prelude.{◌≡◌, ◌≤◌, ◌-◌, ◌^◌, pos, neg_ℤ};
ghost use Rattle.std.specs.Iterator.{IsFiniteIterable};

mod alternatives;
mod clone_iterators;
mod sequences;
mod text_values;
mod tokens;
pub mod types;
mod wrappers;

pub use clone_iterators::{CloneDoubleEndedIterator, CloneIterator};
use prettyless_doc::text::CowStr;
use prettyless_model::choice::{ColumnTest, NestingTest};
use std::fmt;
use types::*;

/// The empty document.
///
/// ```
/// ("a", nil(), "b") // "ab"
/// ```
pub fn nil() -> Nil {
    Nil
}

/// A document that cannot be printed: a render that reaches it fails.
///
/// ```
/// ("a", fail()) // writes "a", then `RenderError::Document`
/// ```
pub fn fail() -> Fail {
    Fail
}

/// A line break. It keeps the groups around it from being flat, and fails under `flatten`.
///
/// ```
/// nest(2, ("a", hard_line(), "b")) // "a\n  b"
/// ```
pub fn hard_line() -> HardLine {
    HardLine
}

/// A line break, or nothing where lines are flat.
///
/// ```
/// group(("a", line_or_nil(), "b")) // "ab" at 2 columns, "a\nb" at 1
/// ```
pub fn line_or_nil() -> LineOrNil {
    LineOrNil
}

/// A line break, or one space where lines are flat.
///
/// ```
/// group(("a", line_or_space(), "b")) // "a b" at 3 columns, "a\nb" at 2
/// ```
pub fn line_or_space() -> LineOrSpace {
    LineOrSpace
}

/// Nothing, or a line break where what follows, up to the next possible break, would go past the width.
///
/// ```
/// ("a", soft_line_or_nil(), "b") // "ab" at 2 columns, "a\nb" at 1
/// ```
pub fn soft_line_or_nil() -> SoftLineOrNil {
    SoftLineOrNil
}

/// One space, or a line break where what follows, up to the next possible break, would go past the width.
///
/// ```
/// ("a", soft_line_or_space(), "b") // "a b" at 3 columns, "a\nb" at 2
/// ```
pub fn soft_line_or_space() -> SoftLineOrSpace {
    SoftLineOrSpace
}

/// A line break, left out on a fresh line where no suffix is pending. It breaks under `flatten` too, and keeps the
/// groups around it from being flat.
///
/// ```
/// ("a", weak_line(), weak_line(), "b") // "a\nb"
/// ```
pub fn weak_line() -> WeakLine {
    WeakLine
}

/// A text of one space.
///
/// ```
/// ("a", space(), "b") // "a b"
/// ```
pub fn space() -> Space {
    Space
}

/// A space, left out at the start of a line, and at the end of a line unless a suffix is pending there.
///
/// ```
/// ("a", weak_space(), hard_line(), "b") // "a\nb"
/// ```
pub fn weak_space() -> WeakSpace {
    WeakSpace
}

/// An empty document that keeps the groups around it from being flat.
///
/// ```
/// group(("a", line_or_space(), expand_parent(), "b")) // "a\nb"
/// ```
pub fn expand_parent() -> ExpandParent {
    ExpandParent
}

/// A run of `count` spaces.
///
/// ```
/// ("a", spaces(3), "b") // "a   b"
/// ```
pub fn spaces(count: usize) -> Spaces
    ensures { result.0 ≡ count }
{
    Spaces(count)
}

/// The value as `{}` formats it: an empty text where that is nothing.
///
/// ```
/// ("a", as_string(42)) // "a42"
/// ```
pub fn as_string<T: fmt::Display>(value: T) -> AsString<T>
    ensures { result.0 ≡ value }
{
    AsString(value)
}

/// A text that counts as `width` columns, for instance one with marks that are not shown.
///
/// ```
/// text_with_width(CowStr::Borrowed("<b>bold"), 4) // "<b>bold"
/// ```
pub fn text_with_width<'a>(text: CowStr<'a>, width: usize) -> TextWithWidth<'a>
    ensures text { result.0 ≡ text.entry }
    ensures width { result.1 ≡ width }
{
    TextWithWidth(text, width)
}

/// A text of several lines, written unchanged, with no indent after its line ends. Each LF and each CR ends a line. It
/// keeps the groups around it from being flat, and fails under `flatten`.
///
/// ```
/// nest(2, multiline_text(CowStr::Borrowed("a\nb"))) // "a\nb"
/// ```
pub fn multiline_text<'a>(text: CowStr<'a>) -> MultilineText<'a>
    ensures { result.0 ≡ text.entry }
{
    MultilineText(text)
}

/// The document with its indent moved by `offset` columns.
///
/// ```
/// nest(2, ("a", hard_line(), "b")) // "a\n  b"
/// ```
pub fn nest<T>(offset: isize, doc: T) -> Nest<T>
    ensures by { result.0 ≡ offset }
    ensures inner { result.1 ≡ doc }
{
    Nest(offset, doc)
}

/// The document with its indent moved right by `offset` columns. These have to be at most `isize::MAX`.
///
/// ```
/// indent(2, ("a", hard_line(), "b")) // "a\n  b"
/// ```
pub fn indent<T>(offset: usize, doc: T) -> Nest<T>
    requires { offset ≤ 2 ^ 63 - 1 }
    ensures by { result.0 ≡ pos offset }
    ensures inner { result.1 ≡ doc }
{
    Nest(offset as isize, doc)
}

/// The document with its indent moved left by `offset` columns. These have to be at most `isize::MAX`.
///
/// ```
/// indent(2, dedent(1, ("a", hard_line(), "b"))) // "a\n b"
/// ```
pub fn dedent<T>(offset: usize, doc: T) -> Nest<T>
    requires { offset ≤ 2 ^ 63 - 1 }
    ensures by { result.0 ≡ neg_ℤ (pos offset) }
    ensures inner { result.1 ≡ doc }
{
    Nest(-(offset as isize), doc)
}

/// The document, flat if it fits the line together with what follows up to the next line break, and else broken.
///
/// ```
/// group(("a", line_or_space(), "b")) // "a b" at 3 columns, "a\nb" at 2
/// ```
pub fn group<T>(doc: T) -> Group<T>
    ensures inner { result.0 ≡ doc }
{
    Group(doc)
}

/// The document with its indent at the column where it starts.
///
/// ```
/// ("a = ", align(("b", hard_line(), "c"))) // "a = b\n    c"
/// ```
pub fn align<T>(doc: T) -> Align<T>
    ensures inner { result.0 ≡ doc }
{
    Align(doc)
}

/// The document with indent 0.
///
/// ```
/// nest(2, dedent_to_root(("a", hard_line(), "b"))) // "a\nb"
/// ```
pub fn dedent_to_root<T>(doc: T) -> DedentToRoot<T>
    ensures inner { result.0 ≡ doc }
{
    DedentToRoot(doc)
}

/// The document, flat whether it fits or not. A hard line or a payload shown in it fails; a weak line still breaks.
///
/// ```
/// flatten(("a", line_or_space(), "b")) // "a b" at 2 columns
/// ```
pub fn flatten<T>(doc: T) -> Flatten<T>
    ensures inner { result.0 ≡ doc }
{
    Flatten(doc)
}

/// The document as a line suffix, pending until its line ends, also where it is nothing.
///
/// ```
/// (line_suffix(" # b"), "a", hard_line()) // "a # b\n"
/// ```
pub fn line_suffix<T>(doc: T) -> LineSuffix<T>
    ensures inner { result.0 ≡ doc }
{
    LineSuffix(doc)
}

/// The first document if it can be printed with each text, or each line of a multiline text, within the width, and else
/// the second; where lines are flat, the first.
///
/// ```
/// union(("a", hard_line(), "bcd"), "e") // "a\nbcd" at 3 columns, "e" at 2
/// ```
pub fn union<T, U>(first: T, second: U) -> Union<T, U>
    ensures first { result.0 ≡ first }
    ensures second { result.1 ≡ second }
{
    Union(first, second)
}

/// The first document if its first line fits, whatever comes after that line, and else the second; where lines are
/// flat, the first.
///
/// ```
/// partial_union(("a", hard_line(), "bcd"), nil()) // "a\nbcd" at 1 column, nothing at 0
/// ```
pub fn partial_union<T, U>(first: T, second: U) -> PartialUnion<T, U>
    ensures first { result.0 ≡ first }
    ensures second { result.1 ≡ second }
{
    PartialUnion(first, second)
}

/// The first document where lines are broken, and the second where they are flat.
///
/// ```
/// group(flat_alt("broken", "flat")) // "flat" at 4 columns, "broken" at 3
/// ```
pub fn flat_alt<T, U>(broken: T, flat: U) -> FlatAlt<T, U>
    ensures broken { result.0 ≡ broken }
    ensures flat { result.1 ≡ flat }
{
    FlatAlt(broken, flat)
}

/// The first document if the test holds at the column where it would start, and else the second, in flat lines too.
///
/// ```
/// ("ab", if_column(ColumnTest::AtMost(1), "c", "d")) // "abd"
/// ```
pub fn if_column<T, U>(test: ColumnTest, first: T, second: U) -> IfColumn<T, U>
    ensures test { result.0 ≡ test }
    ensures first { result.1 ≡ first }
    ensures second { result.2 ≡ second }
{
    IfColumn(test, first, second)
}

/// The first document if the test holds for the indent, and else the second, in flat lines too.
///
/// ```
/// nest(2, if_nesting(NestingTest::AtLeast(2), "c", "d")) // "c"
/// ```
pub fn if_nesting<T, U>(test: NestingTest, first: T, second: U) -> IfNesting<T, U>
    ensures test { result.0 ≡ test }
    ensures first { result.1 ≡ first }
    ensures second { result.2 ≡ second }
{
    IfNesting(test, first, second)
}

/// The documents of the items, appended in order: nothing if there is no item.
///
/// `docs` has to be an iterator whose `next` may be called, and one that ends: the prover asks for both.
///
/// ```
/// concat(["a", "b"]) // "ab"
/// ```
pub fn concat<I: IntoIterator>(docs: I) -> Concat<I::IntoIter>
    requires { IsFiniteIterable I.into_iter_gives I.IntoIter.can_next I.IntoIter.remaining docs }
    ensures { I.into_iter_gives docs result }
{
    Concat(docs.into_iter())
}

/// The documents of the items in order, with the separator between each two: nothing if there is no item. The separator
/// becomes a document once, and only if there are two items.
///
/// `docs` has to be an iterator whose `next` may be called, and one that ends: the prover asks for both.
///
/// ```
/// intersperse(", ", ["a", "b"]) // "a, b"
/// ```
pub fn intersperse<I: IntoIterator, S>(separator: S, docs: I) -> Intersperse<I::IntoIter, S>
    requires { IsFiniteIterable I.into_iter_gives I.IntoIter.can_next I.IntoIter.remaining docs }
    ensures items { I.into_iter_gives docs result.0 }
    ensures gaps { result.1 ≡ separator }
{
    Intersperse(docs.into_iter(), separator)
}

/// `count` copies of the document, one after the other.
///
/// ```
/// repeat(3, "ab") // "ababab"
/// ```
pub fn repeat<T>(count: usize, doc: T) -> Repeat<T>
    ensures count { result.0 ≡ count }
    ensures inner { result.1 ≡ doc }
{
    Repeat(count, doc)
}
