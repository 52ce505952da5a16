//! The constructors of pointers, and pointers as operands.
use crate::expected::check;
use prettyless::prelude::*;
use prettyless::text::CowStr;
use prettyless::{BoxDoc, BuildDoc, ColumnTest, Doc, DocBuilder, DocPtr, NestingTest, RcDoc};
use std::fmt;
use std::process::Abort;
use test_expectations::{is_shown, points, rows, shows};

fn line<'a, D: DocPlace<'a>>(rt: &impl Abort, place: &'a D) -> D::Doc {
    place
        .alloc(Doc::WeakLine)
        .expect(rt, "a node was not placed")
}

pub(crate) fn leaves<'a, D: DocPlace<'a, Doc = T>, T: DocPtr<'a> + fmt::Debug>(
    rt: &impl Abort,
    place: &'a D,
) {
    rows! { points, rt, place;
        T::nil(place) => "Nil";
        T::fail(place) => "Fail";
        T::hard_line(place) => "HardLine";
        T::hardline(place) => "HardLine";
        T::weak_line(place) => "WeakLine";
        T::space(place) => "\" \"";
        T::weak_space(place) => "WeakSpace";
        T::expand_parent(place) => "ExpandParent";
        T::line(place) => "LineOrSpace";
        T::line_(place) => "LineOrNil";
        T::softline(place) => "SoftLineOrSpace";
        T::softline_(place) => "SoftLineOrNil";
        T::text(place, CowStr::Borrowed("ab")) => "\"ab\"";
        T::text_with_width(place, CowStr::Borrowed("ab"), 1) => "\"ab\"";
        T::as_string(place, 16) => "\"16\"";
        T::multiline_text(place, CowStr::Borrowed("a\nb")) => "MultilineText(\"a\\nb\")";
        line(rt, place).group(place) => "Group(WeakLine)";
        line(rt, place).nest(place, 2) => "Nest(2, WeakLine)";
        line(rt, place).union(place, BuildDoc::Doc(Doc::Fail)) => "Union(WeakLine, Fail)";
    }
}

pub(crate) fn operands<
    'a,
    D: DocPlace<'a, Doc = T>,
    P: Pretty<'a, D> + Copy,
    T: DocPtr<'a> + fmt::Debug,
>(rt: &impl Abort, place: &'a D, (a, b): (P, P), two: &'a [P]) {
    rows! { points, rt, place;
        line(rt, place).append(place, a) => "[WeakLine, \"a\"]";
        line(rt, place).flat_alt(place, a) => "FlatOrBreak(\"a\", WeakLine)";
        T::if_column(place, ColumnTest::IsNesting, a, b) => "OnColumn(IsNesting, \"a\", \"b\")";
        T::if_nesting(place, NestingTest::AtMost(1), a, b) => "OnNesting(AtMost(1), \"a\", \"b\")";
        T::concat(place, two.iter().copied()) => "[\"a\", \"b\"]";
        T::intersperse(place, two.iter().copied(), space()) => "[\"a\", \" \", \"b\"]";
    }
}

// A pointer that becomes a document.
pub(crate) fn values<'a, D: DocPlace<'a, Doc = T>, T: DocPtr<'a> + Pretty<'a, D>>(
    rt: &impl Abort,
    place: &'a D,
) {
    rows! { shows, rt, place;
        line(rt, place).pretty(place) => "WeakLine";
        DocBuilder::new(place, Doc::Fail).append(line(rt, place)) => "[Fail, WeakLine]";
    }
}

// A builder takes the pointer as it is: the proof of a call that meets the bounds of `values` with counted owners is
// beyond the prover's limits.
pub(crate) fn taken<'a, D: DocPlace<'a>>(rt: &impl Abort, place: &'a D) {
    let pointed = DocBuilder::from_doc(place, line(rt, place));
    check(rt, shows(place, Ok(pointed), "WeakLine"), "WeakLine");
}

#[test]
fn boxes_are_cloned(rt: HostRuntime) {
    let line = BoxDoc::new(rt.alloc(), Doc::HardLine).expect(&rt, "a node was not placed");
    let copy = line.clone(rt.alloc()).expect(&rt, "a node was not copied");
    drop(line);
    check(&rt, is_shown(rt.alloc(), &copy, "HardLine"), "HardLine");
}

#[test]
fn counted_nodes_are_cloned(rt: HostRuntime) {
    let line = RcDoc::new(rt.alloc(), Doc::HardLine).expect(&rt, "a node was not placed");
    let copy = line.clone().expect(&rt, "a node was not copied");
    drop(line);
    check(&rt, is_shown(rt.alloc(), &copy, "HardLine"), "HardLine");
}
