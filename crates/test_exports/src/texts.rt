//! Layouts of JSON and TOML texts into an area of fifteen bytes.
use crate::areas::{CallOutcome, compare_outcomes};
use prettyless_exports::json_texts::json_layout;
use prettyless_exports::toml_texts::toml_layout;
use std::alloc::{AllocError, Global};
use std::process::Abort;
use std::test::Fail;

#[derive(Clone, Copy)]
enum Language {
    Json,
    Toml,
}

// Only JSON is filled, and keeps blank lines.
#[derive(Clone, Copy)]
struct FormatterOptions {
    width: usize,
    indent: u32,
    fill: bool,
    keep_blank_lines: bool,
    limit: usize,
}

#[rattlefmt::skip]
const PLAIN: FormatterOptions = FormatterOptions { width: 80, indent: 2, fill: false, keep_blank_lines: false, limit: 0 };

#[rattlefmt::skip]
const NARROW: FormatterOptions = FormatterOptions { width: 7, indent: 1, ..PLAIN };

// Options, a text, the number of the status, how many bytes are written, what the area holds, and a line and a column.
type Row<'a> = (
    FormatterOptions,
    &'a [u8],
    u32,
    usize,
    &'a str,
    (usize, usize),
);

// The limit is for layouts alone.
#[rattlefmt::skip]
const JSON: &[Row<'static>] = &[
    // Layouts that leave some of the area, fill it, and are longer.
    (PLAIN, b" [1 ,2]", 0, 7, "[1, 2]\n........", (0, 0)),
    (PLAIN, b"[1,2,3,456]", 0, 15, "[1, 2, 3, 456]\n", (0, 0)),
    (PLAIN, b"[1,2,3,4,5]", 1, 16, "[1, 2, 3, 4, 5]", (0, 0)),
    // Each option.
    (NARROW, b"[1,2,3]", 0, 15, "[\n 1,\n 2,\n 3\n]\n", (0, 0)),
    (FormatterOptions { indent: 2, ..NARROW }, b"[1,2,3]", 1, 18, "[\n  1,\n  2,\n  3", (0, 0)),
    (FormatterOptions { fill: true, ..NARROW }, b"[1,2,3]", 0, 14, "[\n 1, 2,\n 3\n]\n.", (0, 0)),
    (FormatterOptions { width: 5, keep_blank_lines: true, ..NARROW }, b"[1,\n\n\n2]", 0, 12, "[\n 1,\n\n 2\n]\n...", (0, 0)),
    (FormatterOptions { limit: 10, ..PLAIN }, b"[1,2,3]", 0, 10, "[1, 2, 3]\n.....", (0, 0)),
    (FormatterOptions { limit: 3, ..PLAIN }, b"[1,2,3]", 4, 3, "[1,............", (0, 0)),
    // What was expected, at a line and a column of characters. A name may be longer than the area.
    (FormatterOptions { limit: 1, ..PLAIN }, b"", 5, 7, "a value........", (1, 1)),
    (PLAIN, b"[\n1 2]", 5, 10, "`,` or `]`.....", (2, 3)),
    (PLAIN, b"{\"\xC3\xA9\",1}", 5, 3, "`:`............", (1, 5)),
    (PLAIN, b"[\"\xFF\"]", 5, 5, "UTF-8..........", (1, 3)),
    (PLAIN, b"1,2", 5, 15, "the end of the ", (1, 2)),
];

#[rattlefmt::skip]
const TOML: &[Row<'static>] = &[
    // Layouts that leave some of the area, fill it, and are longer.
    (PLAIN, b"", 0, 0, "...............", (0, 0)),
    (PLAIN, b"a=[1 ,2]", 0, 11, "a = [1, 2]\n....", (0, 0)),
    (PLAIN, b"ab=[1,2,3]", 0, 15, "ab = [1, 2, 3]\n", (0, 0)),
    (PLAIN, b"abc=[1,2,3]", 1, 16, "abc = [1, 2, 3]", (0, 0)),
    (PLAIN, b"a=1\r\n#b", 0, 11, "a = 1\r\n#b\r\n....", (0, 0)),
    // Each option.
    (FormatterOptions { width: 6, ..NARROW }, b"a=[1]", 0, 12, "a = [\n 1,\n]\n...", (0, 0)),
    (FormatterOptions { width: 6, indent: 2, ..NARROW }, b"a=[1]", 0, 13, "a = [\n  1,\n]\n..", (0, 0)),
    (FormatterOptions { limit: 8, ..PLAIN }, b"a=[1]", 0, 8, "a = [1]\n.......", (0, 0)),
    (FormatterOptions { limit: 3, ..PLAIN }, b"a=[1]", 4, 3, "a =............", (0, 0)),
    // What was expected, at a line and a column of characters. A name may be longer than the area.
    (FormatterOptions { limit: 1, ..PLAIN }, b"a", 6, 10, "`.` or `=`.....", (1, 2)),
    (PLAIN, b"a = 1\n\"\xC3\xA9\" = [1 2]", 6, 10, "`,` or `]`.....", (2, 10)),
    (PLAIN, b"a = 1\n# \xFF", 6, 5, "UTF-8..........", (2, 3)),
    (PLAIN, b"a = 1 2", 6, 15, "the end of the ", (1, 7)),
];

fn compare(
    rt: &impl Abort,
    memory: Global,
    language: Language,
    (options, text, status, written, held, place): Row<'_>,
) {
    let FormatterOptions {
        width,
        indent,
        fill,
        keep_blank_lines,
        limit,
    } = options;
    let mut out = *b"...............";
    let (mut count, mut line, mut column) = (99, 99, 99);
    let found = match language {
        Language::Json => json_layout(
            memory,
            text,
            width,
            indent,
            fill,
            keep_blank_lines,
            limit,
            &mut out,
            &mut count,
            &mut line,
            &mut column,
        ),
        Language::Toml => toml_layout(
            memory,
            text,
            width,
            indent,
            limit,
            &mut out,
            &mut count,
            &mut line,
            &mut column,
        ),
    };
    let answer = CallOutcome::new(found, count, &out, (line, column));
    let wanted = CallOutcome::new(status, written, held.as_bytes(), place);
    compare_outcomes(rt, text, answer, wanted);
}

#[test]
fn layouts_are_put_into_the_area(rt: HostRuntime) {
    for &row in JSON {
        compare(&rt, rt.alloc(), Language::Json, row);
    }
    for &row in TOML {
        compare(&rt, rt.alloc(), Language::Toml, row);
    }
}

fn push_times(out: &mut String, text: &str, times: usize) -> Result<(), AllocError> {
    for _ in 0..times {
        out.push_str(text)?;
    }
    Ok(())
}

// So many arrays, one inside the other.
fn arrays(memory: Global, front: &str, count: usize) -> Result<String, AllocError> {
    let mut text = String::from_str(memory, front)?;
    push_times(&mut text, "[", count)?;
    push_times(&mut text, "]", count)?;
    Ok(text)
}

// Each bracket but the innermost two has a line of its own: the layout of n arrays has 2 * n * n + 1 bytes, for 100,000 of
// them 20 GB.
#[rattlefmt::skip]
const DEEP: &[(usize, usize, u32, usize)] = &[
    (1000, 0, 1, 2_000_001),
    (1000, 2_000_001, 1, 2_000_001),
    (1000, 2_000_000, 4, 15),
    (100_000, 1000, 4, 15),
];

#[test]
fn deep_layouts_are_counted_as_far_as_the_limit(rt: HostRuntime) -> Result<(), Fail> {
    let begun = "[\n  [\n    [\n   ";
    for &(count, limit, status, written) in DEEP {
        let text = arrays(rt.alloc(), "", count)?;
        let options = FormatterOptions { limit, ..PLAIN };
        let row = (options, text.as_bytes(), status, written, begun, (0, 0));
        compare(&rt, rt.alloc(), Language::Json, row);
    }
    Ok(())
}

#[test]
fn toml_that_is_too_deep_is_refused(rt: HostRuntime) -> Result<(), Fail> {
    let text = arrays(rt.alloc(), "a=", 129)?;
    let row = (PLAIN, text.as_bytes(), 6, 15, "at most 128 lev", (1, 131));
    compare(&rt, rt.alloc(), Language::Toml, row);
    Ok(())
}
