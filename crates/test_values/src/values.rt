//! What can become a document.
use crate::expected::check;
use prettyless::docs;
use prettyless::prelude::*;
use prettyless::text::{BuildError, CowStr};
use std::cell::Cell;
use std::process::Abort;
use test_expectations::{failing, refuses, rows, shows};

pub(crate) fn texts<'a, D: DocPlace<'a>>(rt: &impl Abort, place: &'a D) {
    let owned = String::from_str(place.memory(), "owned").expect(rt, "memory was refused");
    rows! { shows, rt, place;
        "a".pretty(place) => "\"a\"";
        CowStr::Borrowed("a").pretty(place) => "\"a\"";
        owned.pretty(place) => "\"owned\"";
    }
}

pub(crate) fn lent<'a, D: DocPlace<'a>>(rt: &impl Abort, place: &'a D, owned: &'a String) {
    check(
        rt,
        shows(place, owned.pretty(place), "\"owned\""),
        "a lent text",
    );
}

pub(crate) fn several<'a, D: DocPlace<'a>, P: Pretty<'a, D> + Copy>(
    rt: &impl Abort,
    place: &'a D,
    (a, b): (P, P),
) {
    // As many fields as a tuple may have.
    let most = (a, b, a, b, a, b, a, b, a, b, a, b, a, b, a, b);
    rows! { shows, rt, place;
        Some(a).pretty(place) => "\"a\"";
        None::<P>.pretty(place) => "Nil";
        ().pretty(place) => "Nil";
        (a, b).pretty(place) => "[\"a\", \"b\"]";
        most.pretty(place) => "[\"a\", \"b\", \"a\", \"b\", \"a\", \"b\", \"a\", \"b\", \
            \"a\", \"b\", \"a\", \"b\", \"a\", \"b\", \"a\", \"b\"]";
    }
}

pub(crate) fn arrays<'a, D: DocPlace<'a>, P: Pretty<'a, D> + Copy>(
    rt: &impl Abort,
    place: &'a D,
    pair: [P; 2],
) {
    let is_shown = shows(place, pair.pretty(place), "[\"a\", \"b\"]");
    check(rt, is_shown, "an array");
}

// The value, and a note that it was asked for.
fn noted<P>(asked: &Cell<bool>, value: P) -> P {
    asked.set(true);
    value
}

// A document before the operand and one after it, which is noted.
fn around<'a, D: DocPlace<'a>, P: Pretty<'a, D> + Copy, Q: Pretty<'a, D> + Drop>(
    place: &'a D,
    a: P,
    operand: Q,
    asked: &Cell<bool>,
) -> Result<DocBuilder<'a, D>, BuildError> {
    docs![place, a, operand, noted(asked, a)]
}

// What comes after a refused document is not evaluated.
pub(crate) fn macros<'a, D: DocPlace<'a>, P: Pretty<'a, D> + Copy>(
    rt: &impl Abort,
    place: &'a D,
    (a, b): (P, P),
) {
    let asked = Cell::new(false);
    let refused = around(place, a, as_string(failing()), &asked);
    check(rt, refuses(refused) && !asked.get(), "a refused operand");
    let is_shown = shows(place, around(place, a, b, &asked), "[\"a\", \"b\", \"a\"]");
    check(rt, is_shown && asked.get(), "operands in order");
}
