//! Texts, payloads, what values print, and the sentences of errors.
use crate::expected::check;
use arrayvec::ArrayString;
use prettyless::text::{BuildError, CowStr, MultilineTextData, SmallText, Text};
use prettyless::{BoxDoc, Doc, PrettyError, RenderError};
use prettyless_text::measure::measure;
use std::alloc::{AllocError, Global};
use std::fmt;
use std::process::Abort;
use test_expectations::{PrintedPieces, failing, is_shown, refuses, rows};

// As many bytes as a node has room for, and one more.
const ROOM: &str = "1234567890123456789012";

const MORE: &str = "12345678901234567890123";

fn printing(pieces: &'static [&'static str], fails: bool) -> PrintedPieces {
    PrintedPieces { pieces, fails }
}

// Whether a value prints a text that owns its bytes, or one that has them in place.
fn is_owned(memory: Global, value: PrintedPieces, letters: &str) -> bool {
    match Text::from_display(memory, value) {
        Ok(text) => matches!(text, Text::Owned(_)) && text.as_str() == letters,
        Err(_) => false,
    }
}

fn is_small(memory: Global, value: PrintedPieces, letters: &str) -> bool {
    match Text::from_display(memory, value) {
        Ok(text) => matches!(text, Text::Small(_)) && text.as_str() == letters,
        Err(_) => false,
    }
}

#[test]
fn values_print_texts(rt: HostRuntime) {
    rows! { is_small, &rt, rt.alloc();
        printing(&[ROOM], false) => ROOM;
    }
    rows! { is_owned, &rt, rt.alloc();
        printing(&[MORE], false) => MORE;
        printing(&["12345678901234567890", "123"], false) => MORE;
        printing(&[MORE, "c"], false) => "12345678901234567890123c";
    }
    let early = Text::from_display(rt.alloc(), failing());
    check(&rt, refuses(early), "a value that prints nothing");
    let late = Text::from_display(rt.alloc(), printing(&[MORE], true));
    check(&rt, refuses(late), "a value that fails at its end");
}

// Eleven columns, in as many bytes as a node has room for.
#[test]
fn a_value_takes_its_columns(rt: HostRuntime) {
    let printed = Doc::<BoxDoc>::as_string(rt.alloc(), printing(&["ééééééééééé"], false));
    let node = printed.expect(&rt, "a text was not made");
    assert!(rt; matches!(&node, Doc::TextWithLen(11, Text::Small(_))));
}

fn owned(rt: &impl Abort, memory: Global, text: &str) -> CowStr<'static> {
    CowStr::Owned(String::from_str(memory, text).expect(rt, "memory was refused"))
}

// A copy of a text, and one of a payload.
fn copy_of<'a>(memory: Global, text: CowStr<'a>) -> Result<Text<'a>, BuildError> {
    Text::from_cow(memory, text)?.clone(memory)
}

// Whether such a copy is shown as this text. The widest of the later lines of a payload has five columns.
fn is_copied(memory: Global, text: CowStr<'_>, shown: &str) -> bool {
    match copy_of(memory, text) {
        Ok(copy) => is_shown(memory, &copy, shown),
        Err(_) => false,
    }
}

fn is_payload(
    memory: Global,
    payload: Result<MultilineTextData<'_>, BuildError>,
    shown: &str,
) -> bool {
    let Ok(payload) = payload else {
        return false;
    };
    match payload.clone(memory) {
        Ok(copy) => is_shown(memory, &copy, shown) && copy.metrics().rest_width == 5,
        Err(_) => false,
    }
}

#[test]
fn texts_are_copied(rt: HostRuntime) {
    rows! { is_copied, &rt, rt.alloc();
        CowStr::Borrowed("a\tb") => "\"a\\tb\"";
        owned(&rt, rt.alloc(), "a\tb") => "\"a\\tb\"";
    }
    let source = String::from_str(rt.alloc(), "one\n  two").expect(&rt, "memory was refused");
    rows! { is_payload, &rt, rt.alloc();
        MultilineTextData::new(rt.alloc(), CowStr::Owned(source)) => "\"one\\n  two\"";
        MultilineTextData::new(rt.alloc(), CowStr::Borrowed("one\r\n  two")) => "\"one\\r\\n  two\"";
    }
}

// Columns of the first line, of the longest after it, and of the last; and whether the first and the last have text.
#[rattlefmt::skip]
const PAYLOADS: &[(&str, (usize, usize, usize), (bool, bool))] = &[
    ("a\r\n\nb\n", (1, 1, 0), (true, false)),
    ("\u{4f60}\u{597d}\nabc\n\u{e9}", (4, 3, 1), (true, true)),
];

#[test]
fn payloads_are_measured(rt: HostRuntime) {
    for &(payload, columns, texts) in PAYLOADS {
        let found = measure(payload);
        assert!(rt; (found.first_width, found.rest_width, found.last_width) == columns);
        assert!(rt; (found.first_nonempty, found.last_nonempty) == texts);
    }
}

#[test]
fn small_texts_have_22_bytes(rt: HostRuntime) {
    assert!(rt; SmallText::new(MORE).is_none());
    let is_small = is_shown(rt.alloc(), &SmallText::new("a\tb"), "Some(\"a\\tb\")");
    check(&rt, is_small, "a small text");
    let small = SmallText::new(ROOM).expect(&rt, "the text has no room");
    let text: ArrayString<22> = small.into();
    assert!(rt; SmallText::from(text).as_str() == ROOM);
}

// Whether this is what an error says.
fn says<E: fmt::Display + Drop>(memory: Global, error: E, sentence: &str) -> bool {
    match format!(in memory; "{error}") {
        Ok(said) => said.as_str() == sentence,
        Err(_) => false,
    }
}

#[test]
fn errors_say_their_causes(rt: HostRuntime) {
    rows! { says, &rt, rt.alloc();
        BuildError::Memory(AllocError) => "memory was refused while a document was built";
        BuildError::Display => "a value of the document cannot be formatted";
        RenderError::Document("an error") => "the document cannot be laid out";
        RenderError::Sink("the disk is full") => "the layout cannot be written: the disk is full";
        RenderError::Memory::<&str>(AllocError) => "memory was refused while the document was laid out";
        PrettyError::<fmt::Error>::from(BuildError::Display) => "a value of the document cannot be formatted";
        PrettyError::from(RenderError::Document(fmt::Error)) => "the document cannot be laid out";
    }
}
