//! What `Debug` shows of a document, on one line: its variants by their names, a chain of appended
//! documents as a list, and a choice between broken and flat lines by what it is for.
ghost use Rattle.prettyless_model.specs.Tree.{BreakOrFlat, Group};
ghost use Rattle.prettyless_doc.specs.Shown.{IsBelow};

use crate::doc::{BuildDoc, Doc, DocPtr};
use crate::text::Text;
use prettyless_model::choice::{ChoiceTest, ColumnTest, NestingTest};
use prettyless_model::kind::{Indenting, Pair, Single};
use prettyless_probe::walk::{View, Walk};
use std::fmt;

impl<'a, T: DocPtr<'a>> fmt::Debug for Doc<'a, T> {
    fn fmt<W: fmt::Write>(&self, f: &mut fmt::Formatter<W>) -> fmt::Result {
        show(self, false, f)
    }
}

/// Shows the document, whether its node is allocated or not.
impl<'a, D: DocPtr<'a>> fmt::Debug for BuildDoc<'a, D> {
    fn fmt<W: fmt::Write>(&self, f: &mut fmt::Formatter<W>) -> fmt::Result {
        self.doc().fmt(f)
    }
}

// A node that can be shown. As `Walk`, it knows no lifetime of a document.
trait Shown: Walk {
    // Whether it is a borrowed text of one space, as lines have it.
    fn is_borrowed_space(&self) -> bool;
}

impl<'d, 'a, T: DocPtr<'a>> Shown for &'d Doc<'a, T> {
    fn is_borrowed_space(&self) -> bool {
        matches!(**self, Doc::Text(Text::Borrowed(" ")))
    }
}

// What is shown before one or two documents.
#[derive(Clone, Copy)]
enum Head {
    List,
    Name(&'static str),
    Nest(isize),
    OnColumn(ColumnTest),
    OnNesting(NestingTest),
}

// How a node is shown.
enum DebugShape<'v, N> {
    Name(&'static str),
    Text(&'v str),
    Payload(&'v str),
    One(Head, N),
    Two(Head, N, N),
}

// How the node is shown. Its children are below it.
fn shape_of<N: Shown>(node: &N) -> DebugShape<'_, N>
    ensures { IsBelow N.tree (N.tree node.now) result }
{
    match node.view() {
        View::Nil => DebugShape::Name("Nil"),
        View::Fail => DebugShape::Name("Fail"),
        View::Text(text) | View::TextWithLen(_, text) => DebugShape::Text(text),
        View::MultilineText(text, _) => DebugShape::Payload(text),
        View::WeakSpace => DebugShape::Name("WeakSpace"),
        View::HardLine => DebugShape::Name("HardLine"),
        View::WeakLine => DebugShape::Name("WeakLine"),
        View::ExpandParent => DebugShape::Name("ExpandParent"),
        View::One(Single::LineSuffix, inner) => DebugShape::One(Head::Name("LineSuffix"), inner),
        View::One(Single::Indented(how), inner) => DebugShape::One(head_of_indented(how), inner),
        View::One(Single::Flatten, inner) => DebugShape::One(Head::Name("Flatten"), inner),
        View::One(Single::Group, inner) => shape_of_group(inner),
        View::Two(Pair::BreakOrFlat, broken, flat) => shape_of_choice(broken, flat),
        View::Two(kind, first, second) => DebugShape::Two(head_of_two(kind), first, second),
    }
}

// What is shown before a document whose indent is set.
fn head_of_indented(how: Indenting) -> Head {
    match how {
        Indenting::Nest(offset) => Head::Nest(offset),
        Indenting::DedentToRoot => Head::Name("DedentToRoot"),
        Indenting::Align => Head::Name("Align"),
    }
}

// What is shown before two documents.
fn head_of_two(kind: Pair) -> Head {
    match kind {
        Pair::Append => Head::List,
        Pair::BreakOrFlat => Head::Name("BreakOrFlat"),
        Pair::Union => Head::Name("Union"),
        Pair::PartialUnion => Head::Name("PartialUnion"),
        Pair::Chosen(ChoiceTest::OnColumn(test)) => Head::OnColumn(test),
        Pair::Chosen(ChoiceTest::OnNesting(test)) => Head::OnNesting(test),
    }
}

// How the node of these two is shown.
fn shape_of_choice<N: Shown>(broken: N, flat: N) -> DebugShape<'static, N>
    ensures { IsBelow N.tree (BreakOrFlat (N.tree broken) (N.tree flat)) result }
{
    match line_of(&broken, &flat) {
        Some(FlatLine::Space) => DebugShape::Name("LineOrSpace"),
        Some(FlatLine::Nil) => DebugShape::Name("LineOrNil"),
        None if matches!(flat.view(), View::Nil) => DebugShape::One(
            Head::Name("WhenBreak"),
            broken,
        ),
        None if matches!(broken.view(), View::Nil) => DebugShape::One(Head::Name("WhenFlat"), flat),
        None => DebugShape::Two(Head::Name("FlatOrBreak"), flat, broken),
    }
}

// How a group of the node is shown.
fn shape_of_group<N: Shown>(inner: N) -> DebugShape<'static, N>
    ensures { IsBelow N.tree (Group (N.tree inner)) result }
{
    let line = match inner.view() {
        View::Two(Pair::BreakOrFlat, broken, flat) => line_of(&broken, &flat),
        _ => None,
    };
    match line {
        Some(FlatLine::Space) => DebugShape::Name("SoftLineOrSpace"),
        Some(FlatLine::Nil) => DebugShape::Name("SoftLineOrNil"),
        None => DebugShape::One(Head::Name("Group"), inner),
    }
}

// What a line break is where lines are flat.
enum FlatLine {
    Space,
    Nil,
}

// The line that these two are, if they are one.
fn line_of<N: Shown>(broken: &N, flat: &N) -> Option<FlatLine> {
    if !matches!(broken.view(), View::HardLine) {
        None
    } else if flat.is_borrowed_space() {
        Some(FlatLine::Space)
    } else if matches!(flat.view(), View::Nil) {
        Some(FlatLine::Nil)
    } else {
        None
    }
}

impl Head {
    // Shows what opens it: nothing where it is a list and an item of one, since a chain is shown as a single list.
    fn begin<W: fmt::Write>(self, is_item: bool, f: &mut fmt::Formatter<W>) -> fmt::Result {
        match self {
            Head::List => f.write_str(if is_item { "" } else { "[" }),
            Head::Name(name) => write!(f, "{name}("),
            Head::Nest(offset) => write!(f, "Nest({offset}, "),
            Head::OnColumn(test) => write!(f, "OnColumn({test:?}, "),
            Head::OnNesting(test) => write!(f, "OnNesting({test:?}, "),
        }
    }

    // What closes it, likewise.
    fn end(self, is_item: bool) -> &'static str {
        match self {
            Head::List if is_item => "",
            Head::List => "]",
            _ => ")",
        }
    }
}

// Shows the node, and all below it. An item is in the list of the chain that it is part of.
fn show<N: Shown, W: fmt::Write>(node: N, is_item: bool, f: &mut fmt::Formatter<W>) -> fmt::Result {
    match shape_of(&node) {
        DebugShape::Name(name) => f.write_str(name),
        DebugShape::Text(text) => fmt::Debug::fmt(text, f),
        DebugShape::Payload(text) => write!(f, "MultilineText({text:?})"),
        DebugShape::One(head, inner) => {
            head.begin(false, f)?;
            show(inner, false, f)?;
            f.write_str(head.end(false))
        }
        DebugShape::Two(head, first, second) => {
            let are_items = matches!(head, Head::List);
            head.begin(is_item, f)?;
            show(first, are_items, f)?;
            f.write_str(", ")?;
            show(second, are_items, f)?;
            f.write_str(head.end(is_item))
        }
    }
}
