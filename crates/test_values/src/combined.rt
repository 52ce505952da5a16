//! Each combinator once, made into a document; of sequences also a clone.
use crate::expected::check;
use prettyless::prelude::*;
use prettyless::text::CowStr;
use prettyless::{ColumnTest, NestingTest};
use std::process::Abort;
use test_expectations::{rows, shows};

// Whether the documents of a clone and of its value are shown as this text.
fn both_show<'a, D: DocPlace<'a>, T: Pretty<'a, D> + Clone>(
    place: &'a D,
    value: T,
    text: &str,
) -> bool {
    match value.clone() {
        Ok(copy) => {
            shows(place, copy.pretty(place), text) && shows(place, value.pretty(place), text)
        }
        Err(_) => false,
    }
}

pub(crate) fn tokens<'a, D: DocPlace<'a>>(rt: &impl Abort, place: &'a D) {
    rows! { shows, rt, place;
        nil().pretty(place) => "Nil";
        fail().pretty(place) => "Fail";
        hard_line().pretty(place) => "HardLine";
        weak_line().pretty(place) => "WeakLine";
        expand_parent().pretty(place) => "ExpandParent";
        space().pretty(place) => "\" \"";
        spaces(2).pretty(place) => "\"  \"";
        weak_space().pretty(place) => "WeakSpace";
        line_or_nil().pretty(place) => "LineOrNil";
        line_or_space().pretty(place) => "LineOrSpace";
        soft_line_or_nil().pretty(place) => "SoftLineOrNil";
        soft_line_or_space().pretty(place) => "SoftLineOrSpace";
        as_string(16).pretty(place) => "\"16\"";
        text_with_width(CowStr::Borrowed("ab"), 1).pretty(place) => "\"ab\"";
        multiline_text(CowStr::Borrowed("a\nb")).pretty(place) => "MultilineText(\"a\\nb\")";
    }
}

pub(crate) fn wrappers<'a, D: DocPlace<'a>, P: Pretty<'a, D> + Copy>(
    rt: &impl Abort,
    place: &'a D,
    line: P,
) {
    rows! { shows, rt, place;
        nest(-2, line).pretty(place) => "Nest(-2, WeakLine)";
        indent(2, line).pretty(place) => "Nest(2, WeakLine)";
        dedent(2, line).pretty(place) => "Nest(-2, WeakLine)";
        align(line).pretty(place) => "Align(WeakLine)";
        dedent_to_root(line).pretty(place) => "DedentToRoot(WeakLine)";
        group(line).pretty(place) => "Group(WeakLine)";
        flatten(line).pretty(place) => "Flatten(WeakLine)";
        line_suffix(line).pretty(place) => "LineSuffix(WeakLine)";
        repeat(2, line).pretty(place) => "[WeakLine, WeakLine]";
    }
}

pub(crate) fn operands<'a, D: DocPlace<'a>, P: Pretty<'a, D> + Copy>(
    rt: &impl Abort,
    place: &'a D,
    (a, b): (P, P),
    two: &'a [P],
) {
    rows! { shows, rt, place;
        union(a, b).pretty(place) => "Union(\"a\", \"b\")";
        partial_union(a, b).pretty(place) => "PartialUnion(\"a\", \"b\")";
        flat_alt(a, b).pretty(place) => "FlatOrBreak(\"b\", \"a\")";
        if_column(ColumnTest::IsNesting, a, b).pretty(place) => "OnColumn(IsNesting, \"a\", \"b\")";
        if_nesting(NestingTest::AtLeast(2), a, b).pretty(place) => "OnNesting(AtLeast(2), \"a\", \"b\")";
    }
    rows! { both_show, rt, place;
        concat(two.iter().copied()) => "[\"a\", \"b\"]";
        concat(two.iter().copied().rev()) => "[\"b\", \"a\"]";
        intersperse(space(), two.iter().copied()) => "[\"a\", \" \", \"b\"]";
    }
}
