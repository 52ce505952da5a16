//! Tokens are copied, all other combinators are cloned, and all are shown.
use crate::expected::check;
use prettyless::combinators::*;
use prettyless::text::CowStr;
use prettyless::{ColumnTest, NestingTest};
use std::alloc::Global;
use std::fmt;
use test_expectations::{is_shown, rows};

// Whether a value and a copy of it are shown as this text.
fn is_copied<T: Copy + fmt::Debug>(memory: Global, value: T, text: &str) -> bool {
    let copy = value;
    is_shown(memory, &value, text) && is_shown(memory, &copy, text)
}

// Whether a clone is shown as this text.
fn is_cloned<T: Clone + fmt::Debug + Drop>(memory: Global, value: T, text: &str) -> bool {
    match value.clone() {
        Ok(copy) => is_shown(memory, &copy, text),
        Err(_) => false,
    }
}

#[test]
fn tokens_are_copied(rt: HostRuntime) {
    rows! { is_copied, &rt, rt.alloc();
        nil() => "Nil";
        fail() => "Fail";
        hard_line() => "HardLine";
        weak_line() => "WeakLine";
        expand_parent() => "ExpandParent";
        space() => "Space";
        spaces(3) => "Spaces(3)";
        weak_space() => "WeakSpace";
        line_or_nil() => "LineOrNil";
        line_or_space() => "LineOrSpace";
        soft_line_or_nil() => "SoftLineOrNil";
        soft_line_or_space() => "SoftLineOrSpace";
    }
}

#[test]
fn others_are_cloned(rt: HostRuntime) {
    rows! { is_cloned, &rt, rt.alloc();
        as_string(7) => "AsString(7)";
        nest(1, 7) => "Nest(1, 7)";
        group(7) => "Group(7)";
        align(7) => "Align(7)";
        flatten(7) => "Flatten(7)";
        line_suffix(7) => "LineSuffix(7)";
        dedent_to_root(7) => "DedentToRoot(7)";
        repeat(2, 7) => "Repeat(2, 7)";
        union(7, 8) => "Union(7, 8)";
        partial_union(7, 8) => "PartialUnion(7, 8)";
        flat_alt(7, 8) => "FlatAlt(7, 8)";
        if_column(ColumnTest::AtLeast(2), 7, 8) => "IfColumn(AtLeast(2), 7, 8)";
        if_nesting(NestingTest::AtMost(1), 7, 8) => "IfNesting(AtMost(1), 7, 8)";
        multiline_text(CowStr::Borrowed("a")) => "MultilineText(\"a\")";
        text_with_width(CowStr::Borrowed("a"), 1) => "TextWithWidth(\"a\", 1)";
        intersperse(space(), [nil(), nil()]) => "Intersperse(IntoIter([Nil, Nil]), Space)";
        concat([nil(), nil()]) => "Concat(IntoIter([Nil, Nil]))";
    }
}
