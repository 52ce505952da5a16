//! Memory that a `Bump` refuses an arena: what the call was given is given up, and all else is as before.
use crate::arena::{CountedPlace, InArena, in_arena};
use crate::expected::check;
use bumpalo::Bump;
use prettyless::text::{BuildError, CowStr, MultilineTextData, Text};
use prettyless::{Doc, DocPlace, DocPtr};
use std::alloc::{AllocError, Global};
use std::process::Abort;
use std::test::Fail;

// More letters than a chunk has room for.
const LETTERS: usize = 10_000;

// The letters and this end, in memory of its own.
fn owned<'a>(memory: Global, end: &str) -> Result<CowStr<'a>, AllocError> {
    let mut text = String::new(memory);
    for _ in 0..LETTERS {
        text.push_str("x")?;
    }
    text.push_str(end)?;
    Ok(CowStr::Owned(text))
}

fn text_of<'a, T: DocPtr<'a>>(memory: Global) -> Result<Doc<'a, T>, BuildError> {
    Ok(Doc::Text(Text::from_cow(memory, owned(memory, ".")?)?))
}

fn payload_of<'a, T: DocPtr<'a>>(memory: Global) -> Result<Doc<'a, T>, BuildError> {
    Doc::multiline_text(memory, owned(memory, "\ny")?)
}

fn layout<'a, T: DocPtr<'a>>(memory: Global, document: &T) -> Result<String, Fail> {
    let mut out = String::new(memory);
    document.doc().render_fmt(memory, 80, &mut out)?;
    Ok(out)
}

fn compare_layout<'a, T: DocPtr<'a>>(
    rt: &impl Abort,
    memory: Global,
    document: &T,
    expected: &str,
) -> Result<(), Fail> {
    let layout = layout(memory, document)?;
    check(rt, layout.as_str() == expected, expected);
    Ok(())
}

fn compare_length<'a, T: DocPtr<'a>>(
    rt: &impl Abort,
    memory: Global,
    document: &T,
    length: usize,
) -> Result<(), Fail> {
    let layout = layout(memory, document)?;
    check(rt, layout.len() == length, "the length of a long text");
    Ok(())
}

fn refuses_a_text<'a, D: DocPlace<'a>>(place: &'a D) -> Result<bool, BuildError> {
    let text = text_of(place.memory())?;
    Ok(matches!(place.alloc(text), Err(BuildError::Memory(_))))
}

fn twice<'a, D: DocPlace<'a>>(place: &'a D, document: &D::Doc) -> Result<D::Doc, BuildError> {
    let first = place.clone_ptr(document)?;
    let second = place.clone_ptr(document)?;
    place.alloc(Doc::Append(first, second))
}

// Where a text finds no room, the nodes that are there stay, and small ones are still placed.
fn refused<'a, D: CountedPlace<'a>>(
    rt: &impl Abort,
    bump: &Bump,
    place: &'a D,
    before: &D::Doc,
) -> Result<D::Doc, Fail> {
    bump.set_allocation_limit(Some(bump.allocated_bytes()));
    let refuses = refuses_a_text(place)?;
    check(rt, refuses, "the answer of a refused text");
    check(rt, place.nodes() == 1, "the nodes of a refused text");
    let after = twice(place, before)?;
    check(rt, place.nodes() == 2, "the nodes of small texts");
    Ok(after)
}

// The text that is given again is placed where the limit is gone.
fn placed_again<'a, D: CountedPlace<'a>>(
    rt: &impl Abort,
    bump: &Bump,
    place: &'a D,
) -> Result<(), Fail> {
    bump.set_allocation_limit(None);
    let placed = place.alloc(text_of(place.memory())?)?;
    check(rt, place.nodes() == 3, "the nodes of a placed text");
    compare_length(rt, place.memory(), &placed, LETTERS + 1)
}

pub(crate) fn texts<'a, D: CountedPlace<'a>>(
    rt: &impl Abort,
    bump: &Bump,
    place: &'a D,
) -> Result<(), Fail> {
    let before = place.alloc(Doc::Text(Text::Borrowed("ab")))?;
    let after = refused(rt, bump, place, &before)?;
    placed_again(rt, bump, place)?;
    compare_layout(rt, place.memory(), &before, "ab")?;
    compare_layout(rt, place.memory(), &after, "abab")
}

#[test]
fn an_owned_text_finds_no_room(rt: HostRuntime) -> Result<(), Fail> {
    in_arena(&rt, rt.alloc(), None, InArena::OwnedTexts)
}

fn compare_measures(rt: &impl Abort, payload: &MultilineTextData<'_>) {
    assert!(rt; !payload.is_owned());
    assert!(rt; payload.metrics().first_width == LETTERS);
    assert!(rt; payload.metrics().last_width == 1);
}

// A payload in the arena has the measures that it had.
pub(crate) fn measures<'a, D: DocPlace<'a>>(rt: &impl Abort, place: &'a D) -> Result<(), Fail> {
    let placed = place.alloc(payload_of(place.memory())?)?;
    if let Doc::MultilineText(payload) = placed.doc() {
        compare_measures(rt, payload);
        return Ok(());
    }
    Err(Fail::new("no payload"))
}

#[test]
fn a_payload_keeps_its_measures(rt: HostRuntime) -> Result<(), Fail> {
    in_arena(&rt, rt.alloc(), None, InArena::Payloads)
}
