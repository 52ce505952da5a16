//! What documents are made of: the calls of builders, each over pointers that were made or refused.
//!
//! A `?` on a builder takes the prover longer than one on a pointer, so each stands here once.

use prettyless::text::{BuildError, Text};
use prettyless::{
    BuildDoc, ColumnTest, Doc, DocAllocator, DocAllocatorOfTwo, DocBuilder, DocPlace,
};

/// A pointer to a document, or why there is none.
pub(crate) type Built<'a, D> = Result<<D as DocPlace<'a>>::Doc, BuildError>;

/// A pointer to a node.
#[inline(always)]
pub(crate) fn node<'a, D: DocPlace<'a>>(place: &'a D, node: Doc<'a, D::Doc>) -> Built<'a, D> {
    DocBuilder::new(place, node).into_doc()
}

/// A text that counts as one column a byte.
#[inline(always)]
pub(crate) fn text<'a, D: DocPlace<'a>>(place: &'a D, text: &'a str) -> Built<'a, D> {
    node(place, Doc::Text(Text::Borrowed(text)))
}

/// A pointer to what was built.
#[inline(always)]
pub(crate) fn placed<'a, D: DocPlace<'a>>(
    built: Result<DocBuilder<'a, D>, BuildError>,
) -> Built<'a, D> {
    built?.into_doc()
}

/// A line, or a space where lines are flat.
#[inline(always)]
pub(crate) fn line<'a, D: DocPlace<'a>>(place: &'a D) -> Built<'a, D> {
    placed(place.line())
}

/// A line break that is kept.
#[inline(always)]
pub(crate) fn line_break<'a, D: DocPlace<'a>>(place: &'a D) -> Built<'a, D> {
    node(place, Doc::HardLine)
}

/// A document, and one after it.
#[inline(always)]
pub(crate) fn joined<'a, D: DocPlace<'a>>(
    place: &'a D,
    front: Built<'a, D>,
    next: Built<'a, D>,
) -> Built<'a, D> {
    let front = DocBuilder::from_doc(place, front?);
    placed(front.join(DocBuilder::from_doc(place, next?)))
}

/// A document, further in.
#[inline(always)]
pub(crate) fn nested<'a, D: DocPlace<'a>>(
    place: &'a D,
    inner: Built<'a, D>,
    columns: isize,
) -> Built<'a, D> {
    placed(DocBuilder::from_doc(place, inner?).nest(columns))
}

/// A document in a group.
#[inline(always)]
pub(crate) fn grouped<'a, D: DocPlace<'a>>(place: &'a D, inner: Built<'a, D>) -> Built<'a, D> {
    placed(DocBuilder::from_doc(place, inner?).group())
}

/// Two documents with a line between them, in a group.
pub(crate) fn line_group<'a, D: DocPlace<'a>>(
    place: &'a D,
    front: Built<'a, D>,
    next: Built<'a, D>,
) -> Built<'a, D> {
    grouped(
        place,
        joined(place, joined(place, front, line(place)), next),
    )
}

/// A text where it starts in the first 41 columns, or else another one.
pub(crate) fn by_column<'a, D: DocPlace<'a>>(
    place: &'a D,
    first: &'a str,
    second: &'a str,
) -> Built<'a, D> {
    placed(place.if_column(ColumnTest::AtMost(40), first, second))
}

/// A text that is put off to the end of its line.
#[inline(always)]
pub(crate) fn put_off<'a, D: DocPlace<'a>>(place: &'a D, comment: &'a str) -> Built<'a, D> {
    placed(DocBuilder::from_doc(place, text(place, comment)?).as_line_suffix())
}

/// A document, or else a text.
#[inline(always)]
pub(crate) fn or_text<'a, D: DocPlace<'a>>(
    place: &'a D,
    first: Built<'a, D>,
    second: &'a str,
) -> Built<'a, D> {
    let second = BuildDoc::Doc(Doc::Text(Text::Borrowed(second)));
    placed(DocBuilder::from_doc(place, first?).union(second))
}

/// A document whose first line fits, or else a text.
#[inline(always)]
pub(crate) fn or_text_partly<'a, D: DocPlace<'a>>(
    place: &'a D,
    first: Built<'a, D>,
    second: &'a str,
) -> Built<'a, D> {
    let second = BuildDoc::Doc(Doc::Text(Text::Borrowed(second)));
    placed(DocBuilder::from_doc(place, first?).partial_union(second))
}

/// A text, and a line after it.
#[inline(always)]
pub(crate) fn text_line<'a, D: DocPlace<'a>>(place: &'a D, front: &'a str) -> Built<'a, D> {
    joined(place, text(place, front), line(place))
}

/// A document on a line of its own where it does not fit.
#[inline(always)]
pub(crate) fn on_own_line<'a, D: DocPlace<'a>>(place: &'a D, inner: Built<'a, D>) -> Built<'a, D> {
    joined(place, placed(place.line_()), inner)
}
