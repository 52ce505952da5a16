//! Texts that fill lines, and texts that are lines.

use crate::parts::{Built, joined, line_break, nested, node, placed, put_off, text};
use prettyless::combinators::hard_line;
use prettyless::{Doc, DocAllocator, DocAllocatorBetween, DocPlace};
use std::iter;

const LINE: &str = "a line of text that is as long as it has to be for sixty is.";

/// A word for a number.
pub(crate) fn word<'a>(number: usize) -> &'a str {
    match number % 5 {
        0 => "to",
        1 => "fill",
        2 => "a",
        3 => "line",
        _ => "greedily",
    }
}

/// So many words, and one at least, with breaks only where a line has no room.
pub(crate) fn fill<'a, D: DocPlace<'a>>(place: &'a D, words: usize) -> Built<'a, D> {
    let mut all = text(place, word(0));
    for number in 1..words {
        all = joined(
            place,
            joined(place, all, placed(place.softline())),
            text(place, word(number)),
        );
    }
    all
}

/// So many lines of 60 bytes, each but the first with an indent of 4.
pub(crate) fn lines<'a, D: DocPlace<'a>>(place: &'a D, lines: usize) -> Built<'a, D> {
    let line: &'a str = LINE;
    nested(
        place,
        placed(place.intersperse(iter::repeat_n(line, lines), hard_line())),
        4,
    )
}

// A text, a weak space, a comment put off to the end of the line, and that end.
fn commented<'a, D: DocPlace<'a>>(place: &'a D) -> Built<'a, D> {
    let front = joined(
        place,
        text(place, "a text with a remark"),
        node(place, Doc::WeakSpace),
    );
    let with_comment = joined(place, front, put_off(place, "  # why"));
    joined(place, with_comment, line_break(place))
}

/// So many lines with a weak space and a comment at the end of each.
pub(crate) fn weak_spaces<'a, D: DocPlace<'a>>(place: &'a D, lines: usize) -> Built<'a, D> {
    let mut all = node(place, Doc::Nil);
    for _ in 0..lines {
        all = joined(place, all, commented(place));
    }
    all
}
