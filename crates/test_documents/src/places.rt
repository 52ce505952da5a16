//! All calls in each place of nodes.
use crate::{builders, calls, deep, nodes, pointers};
use bumpalo::Bump;
use prettyless::prelude::*;
use prettyless::text::Text;
use prettyless::{Arena, BoxAllocator, Doc, DocBuilder, DocPtr, IntoRef, RcAllocator};
use std::fmt;
use std::process::Abort;

// A line that owns its space, where the node keeps it.
const OWNED_LINE: &str = "FlatOrBreak(\" \", HardLine)";

// The texts are of any type, since the proof of a call with `&str` takes much longer.
fn each<'a, D: DocPlace<'a>, P: Pretty<'a, D> + Copy>(
    rt: &impl Abort,
    place: &'a D,
    both: (P, P),
    one: &'a [P],
    two: &'a [P],
)
where
    D::Doc: fmt::Debug,
{
    calls::leaves(rt, place);
    calls::texts(rt, place);
    calls::many_spaces(rt, place);
    calls::operands(rt, place, both, one, two);
    builders::wrappers(rt, place);
    builders::joins(rt, place);
    builders::operands(rt, place, both);
    nodes::makings(rt, place);
    nodes::placings(rt, place);
    pointers::leaves(rt, place);
    pointers::operands(rt, place, both, two);
}

fn all<'a, D: DocPlace<'a>>(rt: &impl Abort, place: &'a D)
where
    D::Doc: fmt::Debug,
{
    each(rt, place, ("a", "b"), &["a"], &["a", "b"]);
}

// A place by reference is the same place: nodes are put there, and copied.
fn in_boxes<'a, D: DocPlace<'a, Doc = T>, T: DocPtr<'a> + Pretty<'a, D> + fmt::Debug>(
    rt: &impl Abort,
    place: &'a &'a D,
) {
    all(rt, *place);
    nodes::placings(rt, place);
    nodes::owned_line(rt, *place, OWNED_LINE);
    pointers::values(rt, *place);
    deep::chains(rt, *place);
}

// A test makes one call with its place, since each call with a place of a named type takes long to prove.
#[test]
fn boxes(rt: HostRuntime) {
    let boxes = BoxAllocator::new(rt.alloc());
    in_boxes(&rt, &&boxes);
}

fn in_counted_nodes<'a, D: DocPlace<'a>>(rt: &impl Abort, place: &'a D)
where
    D::Doc: fmt::Debug,
{
    all(rt, place);
    nodes::owned_line(rt, place, OWNED_LINE);
    pointers::taken(rt, place);
    deep::chains(rt, place);
    deep::doubled(rt, place);
}

#[test]
fn counted_nodes(rt: HostRuntime) {
    let nodes = RcAllocator::new(rt.alloc());
    in_counted_nodes(&rt, &nodes);
}

// Answers a text, for the call that only a builder over an arena has.
fn in_any_arena<'a, D: DocPlace<'a, Doc = T>, T: DocPtr<'a> + Pretty<'a, D> + fmt::Debug>(
    rt: &impl Abort,
    place: &'a D,
) -> DocBuilder<'a, D> {
    all(rt, place);
    nodes::owned_line(rt, place, "LineOrSpace");
    pointers::values(rt, place);
    DocBuilder::new(place, Doc::Text(Text::Borrowed("a")))
}

fn in_arena<'a>(rt: &impl Abort, arena: &'a Arena<'a>) {
    assert!(rt; arena.is_empty() && arena.len() == 0);
    let text = in_any_arena(rt, arena);
    let placed = arena.len();
    assert!(rt; text.into_ref().is_ok());
    assert!(rt; arena.len() == placed.saturating_add(1) && !arena.is_empty());
}

#[test]
fn arenas(rt: HostRuntime) {
    let bump = Bump::new(rt.alloc());
    let arena = Arena::new(rt.alloc(), &bump);
    in_arena(&rt, &arena);
}
