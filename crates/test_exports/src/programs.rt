//! Layouts of programs into areas of bytes: each instruction, each option, and each status.
use crate::areas::{CallOutcome, compare_outcomes};
use prettyless::{BoxAllocator, DocPtr};
use prettyless_exports::programs::program_layout;
use prettyless_program::decode;
use std::alloc::Global;
use std::process::Abort;

#[derive(Clone, Copy)]
struct ProgramOptions {
    width: usize,
    crlf: bool,
    deferred: bool,
    limit: usize,
}

#[rattlefmt::skip]
const PLAIN: ProgramOptions = ProgramOptions { width: 80, crlf: false, deferred: false, limit: 0 };

#[rattlefmt::skip]
const CRLF: ProgramOptions = ProgramOptions { crlf: true, ..PLAIN };

#[rattlefmt::skip]
const DEFERRED: ProgramOptions = ProgramOptions { deferred: true, ..PLAIN };

const TEXT: &[u8] = b"\x10\x07\0\0\0abcdefg";

const NEST: &[u8] = b"\x40\x03\x03\x10\x01\0\0\0a\x41\x25\x01\0\0\0\0\0\0\0";

// Options, a program, the number of the status, how many bytes are written, and what the area holds.
type Row<'a> = (ProgramOptions, &'a [u8], u32, usize, &'a str);

#[rattlefmt::skip]
const ROWS: &[Row<'static>] = &[
    // Layouts that leave some of the area, fill it, and are longer.
    (PLAIN, b"", 0, 0, "....."),
    (PLAIN, b"\x10\x02\0\0\0ab", 0, 2, "ab..."),
    (PLAIN, b"\x10\x05\0\0\0abcde", 0, 5, "abcde"),
    (PLAIN, TEXT, 1, 7, "abcde"),
    (CRLF, b"\x03", 0, 2, "\r\n..."),
    (PLAIN, NEST, 0, 5, "\n \n a"),
    (DEFERRED, NEST, 0, 4, "\n\n a."),
    // Limits.
    (ProgramOptions { limit: 7, ..PLAIN }, TEXT, 1, 7, "abcde"),
    (ProgramOptions { limit: 6, ..PLAIN }, TEXT, 4, 5, "abcde"),
    (ProgramOptions { limit: 3, ..PLAIN }, TEXT, 4, 3, "abc.."),
    // Layouts that fail.
    (PLAIN, b"\x10\x02\0\0\0ab\x01\x10\x01\0\0\0b", 3, 2, "ab..."),
    (PLAIN, b"\x10\x07\0\0\0abcdefg\x01", 3, 5, "abcde"),
    (PLAIN, b"\x10\x01\0\0\0a\x13\x03\0\0\0b\nc\x21", 3, 1, "a...."),
    // Bytes beside the codes.
    (PLAIN, b"\x10\x02\0\0\0ab\x08", 16, 0, "....."),
    (PLAIN, b"\x42", 16, 0, "."),
    (PLAIN, b"\xFF", 16, 0, "."),
    // A length, a text and a number that are cut off, and the greatest length, at the end and before some bytes.
    (PLAIN, b"\x10\0\0\0", 17, 0, "....."),
    (PLAIN, b"\x10\x01\0\0\0", 17, 0, "."),
    (PLAIN, b"\x25\0\0\0\0\0\0\0", 17, 0, "."),
    (PLAIN, b"\0\0\0\0\0\x10\xFF\xFF\xFF\xFF", 17, 0, "."),
    (PLAIN, b"\x10\xFF\xFF\xFF\xFFabcde", 17, 0, "."),
    (PLAIN, b"\x10\x01\0\0\0\xFF", 18, 0, "."),
    // No document, one for two, and one that was made before a sequence was opened. Of several faults, the first.
    (PLAIN, b"\x20", 19, 0, "."),
    (PLAIN, b"\0\x30", 19, 0, "."),
    (PLAIN, b"\0\x40\x20", 19, 0, "."),
    (PLAIN, b"\x20\x08", 19, 0, "."),
    // Sequences that are not open, and that stay open.
    (PLAIN, b"\x41", 20, 0, "."),
    (PLAIN, b"\x40", 21, 0, "."),
];

// The example of `docs/BINDINGS.md`.
const NESTED: &[u8] =
    b"\x40\x40\x10\x05\0\0\0begin\x06\x10\x04\0\0\0body\x41\x25\x02\0\0\0\0\0\0\0\x06\x10\x03\0\0\0end\x41\x20";

// A width, a program, and the layout of its document.
#[rattlefmt::skip]
const INSTRUCTIONS: &[(usize, &[u8], &str)] = &[
    // Nothing at all, and nil between texts.
    (80, b"", ""),
    (80, b"\x10\x01\0\0\0a\x00\x10\x01\0\0\0b", "ab"),
    // Weak spaces at both ends and between texts.
    (80, b"\x02\x10\x01\0\0\0a\x02\x10\x01\0\0\0b\x02", "a b"),
    // Weak lines at the beginning and between texts.
    (80, b"\x04\x10\x01\0\0\0a\x04\x10\x01\0\0\0b", "a\nb"),
    // Groups that must break, with a hard line and with a line, and groups that fit and do not.
    (80, b"\x40\x10\x01\0\0\0a\x03\x10\x01\0\0\0b\x41\x20", "a\nb"),
    (80, b"\x40\x06\x05\x41\x20", "\n"),
    (3, b"\x40\x10\x01\0\0\0a\x06\x10\x01\0\0\0b\x41\x20", "a b"),
    (2, b"\x40\x10\x01\0\0\0a\x06\x10\x01\0\0\0b\x41\x20", "a\nb"),
    (2, b"\x40\x10\x01\0\0\0a\x07\x10\x01\0\0\0b\x41\x20", "ab"),
    (1, b"\x40\x10\x01\0\0\0a\x07\x10\x01\0\0\0b\x41\x20", "a\nb"),
    // A character of two bytes, which has one column, two columns, and three.
    (1, b"\x10\x02\0\0\0\xC3\xA9\x10\x01\0\0\0x\x32", "é"),
    (1, b"\x11\x02\0\0\0\xC3\xA9\x10\x01\0\0\0x\x32", "x"),
    (2, b"\x11\x02\0\0\0\xC3\xA9\x10\x01\0\0\0x\x32", "é"),
    (2, b"\x12\x03\0\0\0\0\0\0\0\x02\0\0\0\xC3\xA9\x10\x01\0\0\0x\x32", "x"),
    (3, b"\x12\x03\0\0\0\0\0\0\0\x02\0\0\0\xC3\xA9\x10\x01\0\0\0x\x32", "é"),
    // A payload of two lines that fit, and a text of one line under flatten.
    (2, b"\x13\x04\0\0\0aa\nb\x10\x01\0\0\0x\x32", "aa\nb"),
    (80, b"\x13\x02\0\0\0ab\x21", "ab"),
    // A line that is flat at every width.
    (0, b"\x06\x21", " "),
    // Lines at the column of the text before, at the root, and nested by 3 and by -1.
    (80, b"\x10\x02\0\0\0aa\x40\x03\x10\x01\0\0\0b\x41\x22", "aa\n  b"),
    (80, b"\x40\x03\x10\x01\0\0\0a\x41\x23\x25\x02\0\0\0\0\0\0\0", "\na"),
    (80, b"\x40\x03\x10\x01\0\0\0a\x41\x25\xFF\xFF\xFF\xFF\xFF\xFF\xFF\xFF\x25\x03\0\0\0\0\0\0\0", "\n  a"),
    // A suffix.
    (80, b"\x10\x01\0\0\0b\x24\x10\x01\0\0\0a", "ab"),
    // Broken or flat, where the flat one is two texts.
    (80, b"\x10\x01\0\0\0x\x10\x01\0\0\0a\x10\x01\0\0\0b\x30\x31", "x"),
    (80, b"\x10\x01\0\0\0x\x10\x01\0\0\0a\x10\x01\0\0\0b\x30\x31\x20", "ab"),
    // Alternatives, of which all lines fit or only the first.
    (2, b"\x10\x02\0\0\0ab\x10\x01\0\0\0c\x32", "ab"),
    (1, b"\x10\x02\0\0\0ab\x10\x01\0\0\0c\x32", "c"),
    (1, b"\x40\x10\x01\0\0\0a\x03\x10\x02\0\0\0bb\x41\x10\x01\0\0\0c\x33", "a\nbb"),
    // Where the column is 2.
    (80, b"\x10\x02\0\0\0aa\x10\x01\0\0\0b\x10\x01\0\0\0c\x34\x02\0\0\0\0\0\0\0", "aab"),
    (80, b"\x10\x02\0\0\0aa\x10\x01\0\0\0b\x10\x01\0\0\0c\x34\x01\0\0\0\0\0\0\0", "aac"),
    (80, b"\x10\x02\0\0\0aa\x10\x01\0\0\0b\x10\x01\0\0\0c\x35\x02\0\0\0\0\0\0\0", "aab"),
    (80, b"\x10\x02\0\0\0aa\x10\x01\0\0\0b\x10\x01\0\0\0c\x35\x03\0\0\0\0\0\0\0", "aac"),
    // Where the column is the indent, and is not.
    (80, b"\x40\x03\x10\x01\0\0\0a\x10\x01\0\0\0b\x36\x41\x25\x02\0\0\0\0\0\0\0", "\n  a"),
    (80, b"\x10\x01\0\0\0a\x10\x01\0\0\0b\x10\x01\0\0\0c\x36", "ac"),
    // Where the indent is 2.
    (80, b"\x10\x01\0\0\0a\x10\x01\0\0\0b\x37\x02\0\0\0\0\0\0\0\x25\x02\0\0\0\0\0\0\0", "a"),
    (80, b"\x10\x01\0\0\0a\x10\x01\0\0\0b\x37\x01\0\0\0\0\0\0\0\x25\x02\0\0\0\0\0\0\0", "b"),
    (80, b"\x10\x01\0\0\0a\x10\x01\0\0\0b\x38\x02\0\0\0\0\0\0\0\x25\x02\0\0\0\0\0\0\0", "a"),
    (80, b"\x10\x01\0\0\0a\x10\x01\0\0\0b\x38\x03\0\0\0\0\0\0\0\x25\x02\0\0\0\0\0\0\0", "b"),
    // Sequences in one another. An empty one is a document.
    (14, NESTED, "begin body end"),
    (13, NESTED, "begin\n  body\nend"),
    (80, b"\x10\x01\0\0\0x\x40\x41\x31\x20", ""),
];

// The area is as long as what it holds in the end.
fn compare(rt: &impl Abort, memory: Global, (options, program, status, written, held): Row<'_>) {
    let ProgramOptions {
        width,
        crlf,
        deferred,
        limit,
    } = options;
    let mut out = [b'.'; 32];
    let area = &mut out[..held.len().min(32)];
    let mut count = 9;
    let found = program_layout(
        memory, program, width, crlf, deferred, limit, area, &mut count,
    );
    let answer = CallOutcome::new(found, count, area, (0, 0));
    let wanted = CallOutcome::new(status, written, held.as_bytes(), (0, 0));
    compare_outcomes(rt, program, answer, wanted);
}

#[test]
fn statuses_say_what_the_area_holds(rt: HostRuntime) {
    for &row in ROWS {
        compare(&rt, rt.alloc(), row);
    }
}

#[test]
fn instructions_have_layouts(rt: HostRuntime) {
    for &(width, program, layout) in INSTRUCTIONS {
        let options = ProgramOptions { width, ..PLAIN };
        compare(&rt, rt.alloc(), (options, program, 0, layout.len(), layout));
    }
}

// Programs are read into any place of nodes.
#[test]
fn programs_are_read_into_boxes(rt: HostRuntime) {
    let boxes = BoxAllocator::new(rt.alloc());
    let document = decode(&boxes, NESTED).expect(&rt, "no document");
    let mut out = String::new(rt.alloc());
    let rendered = document.doc().render_fmt(rt.alloc(), 13, &mut out);
    assert!(rt; rendered.is_ok() && out.as_str() == "begin\n  body\nend");
}
