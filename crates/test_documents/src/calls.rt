//! Each call of a place of nodes once, with ample memory.
use crate::expected::{built, check};
use prettyless::prelude::*;
use prettyless::text::{BuildError, CowStr};
use prettyless::{ColumnTest, Doc, DocBuilder, DocPtr, NestingTest};
use std::process::Abort;
use test_expectations::{failing, refuses, rows, shows};

pub(crate) fn leaves<'a, D: DocPlace<'a>>(rt: &impl Abort, place: &'a D) {
    rows! { shows, rt, place;
        place.nil() => "Nil";
        place.fail() => "Fail";
        place.hard_line() => "HardLine";
        place.hardline() => "HardLine";
        place.weak_line() => "WeakLine";
        place.space() => "\" \"";
        place.spaces(3) => "\"   \"";
        place.weak_space() => "WeakSpace";
        place.expand_parent() => "ExpandParent";
        place.line() => "LineOrSpace";
        place.line_() => "LineOrNil";
        place.softline() => "SoftLineOrSpace";
        place.softline_() => "SoftLineOrNil";
    }
}

pub(crate) fn texts<'a, D: DocPlace<'a>>(rt: &impl Abort, place: &'a D) {
    let line = text(rt, place, "-");
    rows! { shows, rt, place;
        place.separate(marked(rt, place), line) => "[\"a\", \",\", \"-\", \"b\"]";
        place.bracketed("[", marked(rt, place), "]", 2)
            => "Group([\"[\", Nest(2, [LineOrNil, \"a\", \",\", LineOrSpace, \"b\"]), LineOrNil, \"]\"])";
        place.text(CowStr::Borrowed("ab")) => "\"ab\"";
        place.text(CowStr::Borrowed("")) => "Nil";
        place.ascii_text(CowStr::Borrowed("")) => "\"\"";
        place.text_with_width(CowStr::Borrowed("ab"), 1) => "\"ab\"";
        place.text_with_width(CowStr::Borrowed(""), 1) => "\"\"";
        place.as_string(16) => "\"16\"";
        place.multiline_text(CowStr::Borrowed("a\nb")) => "MultilineText(\"a\\nb\")";
        place.reflow("a  b") => "[\"a\", SoftLineOrSpace, SoftLineOrSpace, \"b\"]";
        place.reflow(" a") => "[SoftLineOrSpace, \"a\"]";
        place.reflow("") => "Nil";
    }
    check(rt, refuses(place.as_string(failing())), "no text");
}

// How many bytes a text has.
fn bytes_of<'a, T: DocPtr<'a>>(node: &Doc<'a, T>) -> usize {
    match node {
        Doc::Text(text) => text.as_str().len(),
        _ => 0,
    }
}

// How many bytes three texts have, of which the first two are appended first.
fn bytes_of_three<'a, T: DocPtr<'a>>(node: &Doc<'a, T>) -> Option<(usize, usize, usize)> {
    let Doc::Append(front, third) = node else {
        return None;
    };
    let Doc::Append(first, second) = front.doc() else {
        return None;
    };
    let last = bytes_of(third.doc());
    Some((bytes_of(first.doc()), bytes_of(second.doc()), last))
}

// A text has at most 100 spaces.
pub(crate) fn many_spaces<'a, D: DocPlace<'a>>(rt: &impl Abort, place: &'a D) {
    let none = built(rt, place.spaces(0));
    assert!(rt; none.doc().is_nil());
    let one = built(rt, place.spaces(100));
    assert!(rt; bytes_of(one.doc()) == 100);
    let three = built(rt, place.spaces(205));
    assert!(rt; bytes_of_three(three.doc()) == Some((100, 100, 5)));
}

fn text<'a, D: DocPlace<'a>>(rt: &impl Abort, place: &'a D, text: &'a str) -> DocBuilder<'a, D> {
    built(rt, place.text(CowStr::Borrowed(text)))
}

// Placed letters, each but the last with a comma.
fn marked<'a, D: DocPlace<'a>>(rt: &impl Abort, place: &'a D) -> Vec<D::Doc> {
    let mut docs = Vec::new(place.memory());
    for letter in ["a", "b"] {
        let placed = text(rt, place, letter).into_doc();
        docs.push(placed.expect(rt, "a text was not placed"))
            .expect(rt, "memory was refused");
    }
    place
        .punctuated(docs, text(rt, place, ","))
        .expect(rt, "no marks were placed")
}

fn between<'a, D: DocPlace<'a>, P: Pretty<'a, D> + Copy, S: Pretty<'a, D> + Drop>(
    place: &'a D,
    items: &'a [P],
    separator: S,
) -> Result<DocBuilder<'a, D>, BuildError> {
    place.intersperse(items.iter().copied(), separator)
}

// A separator becomes a document only where there is a gap.
pub(crate) fn operands<'a, D: DocPlace<'a>, P: Pretty<'a, D> + Copy>(
    rt: &impl Abort,
    place: &'a D,
    (a, b): (P, P),
    one: &'a [P],
    two: &'a [P],
) {
    rows! { shows, rt, place;
        place.pretty(a) => "\"a\"";
        place.line_suffix(a) => "LineSuffix(\"a\")";
        place.if_group_flat(a) => "WhenFlat(\"a\")";
        place.if_group_break(a) => "WhenBreak(\"a\")";
        place.if_column(ColumnTest::AtMost(7), a, b) => "OnColumn(AtMost(7), \"a\", \"b\")";
        place.if_nesting(NestingTest::AtLeast(2), a, b) => "OnNesting(AtLeast(2), \"a\", \"b\")";
        place.concat(two.iter().copied()) => "[\"a\", \"b\"]";
        between(place, two, space()) => "[\"a\", \" \", \"b\"]";
        between(place, one, as_string(failing())) => "\"a\"";
    }
    let refused = between(place, two, as_string(failing()));
    check(rt, refuses(refused), "no separator");
}
