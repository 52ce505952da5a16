//! Records in the notation of JSON.

use crate::parts::{Built, grouped, joined, nested, on_own_line, placed, text, text_line};
use crate::words::word;
use prettyless::{DocAllocator, DocPlace};

/// Values between these, nested, on lines of their own where they don't fit the line.
#[inline(always)]
pub(crate) fn bracketed<'a, D: DocPlace<'a>>(
    place: &'a D,
    opening: &'a str,
    values: Built<'a, D>,
    closing: &'a str,
) -> Built<'a, D> {
    let front = joined(
        place,
        text(place, opening),
        nested(place, on_own_line(place, values), 2),
    );
    grouped(
        place,
        joined(place, front, on_own_line(place, text(place, closing))),
    )
}

/// A value, a comma, a line and another value.
#[inline(always)]
pub(crate) fn with_comma<'a, D: DocPlace<'a>>(
    place: &'a D,
    front: Built<'a, D>,
    next: Built<'a, D>,
) -> Built<'a, D> {
    joined(place, joined(place, front, text_line(place, ",")), next)
}

/// A key, and the value after it.
#[inline(always)]
pub(crate) fn field<'a, D: DocPlace<'a>>(
    place: &'a D,
    key: &'a str,
    value: Built<'a, D>,
) -> Built<'a, D> {
    joined(place, text(place, key), value)
}

/// Fields, a comma, a line and another field.
#[inline(always)]
pub(crate) fn with_field<'a, D: DocPlace<'a>>(
    place: &'a D,
    front: Built<'a, D>,
    key: &'a str,
    value: Built<'a, D>,
) -> Built<'a, D> {
    with_comma(place, front, field(place, key, value))
}

/// Three texts in square brackets.
#[inline(always)]
pub(crate) fn triple<'a, D: DocPlace<'a>>(
    place: &'a D,
    first: &'a str,
    second: &'a str,
    third: &'a str,
) -> Built<'a, D> {
    let pair = with_comma(place, text(place, first), text(place, second));
    let values = with_comma(place, pair, text(place, third));
    bracketed(place, "[", values, "]")
}

// A field whose text depends on the number.
#[inline(always)]
fn name<'a, D: DocPlace<'a>>(place: &'a D, number: usize) -> Built<'a, D> {
    let name = field(place, "\"name\": \"", text(place, word(number)));
    joined(place, name, text(place, "\""))
}

// The two fields that depend on the number.
#[inline(always)]
fn numbered_fields<'a, D: DocPlace<'a>>(place: &'a D, number: usize) -> Built<'a, D> {
    let id = field(place, "\"id\": ", placed(place.as_string(number)));
    with_comma(place, id, name(place, number))
}

// These, and two that are the same in each record.
#[inline(always)]
fn record_fields<'a, D: DocPlace<'a>>(place: &'a D, number: usize) -> Built<'a, D> {
    let numbered = numbered_fields(place, number);
    let tags = triple(place, "\"red\"", "\"green\"", "\"blue\"");
    let tagged = with_field(place, numbered, "\"tags\": ", tags);
    let note = "\"note\": \"as wide as makes a record wider than a line\"";
    with_comma(place, tagged, text(place, note))
}

// The fields of a number in braces.
fn record<'a, D: DocPlace<'a>>(place: &'a D, number: usize) -> Built<'a, D> {
    bracketed(place, "{", record_fields(place, number), "}")
}

/// So many records in one list, and one at least.
pub(crate) fn array<'a, D: DocPlace<'a>>(place: &'a D, records: usize) -> Built<'a, D> {
    let mut values = record(place, 0);
    for number in 1..records {
        values = with_comma(place, values, record(place, number));
    }
    bracketed(place, "[", values, "]")
}
