//! What becomes a document, in each place of nodes.
use crate::{combined, values};
use bumpalo::Bump;
use prettyless::prelude::*;
use prettyless::{Arena, BoxAllocator, RcAllocator};
use std::process::Abort;

// The texts are of any type, since the proof of a call with `&str` takes much longer.
fn each<'a, D: DocPlace<'a>, P: Pretty<'a, D> + Copy>(
    rt: &impl Abort,
    place: &'a D,
    both: (P, P),
    two: &'a [P],
) {
    combined::tokens(rt, place);
    combined::wrappers(rt, place, weak_line());
    combined::operands(rt, place, both, two);
    values::texts(rt, place);
    values::several(rt, place, both);
    values::macros(rt, place, both);
}

fn all<'a, D: DocPlace<'a>>(rt: &impl Abort, place: &'a D) {
    each(rt, place, ("a", "b"), &["a", "b"]);
    values::arrays(rt, place, ["a", "b"]);
}

// `owned` is lent to the documents.
fn in_boxes<'a, D: DocPlace<'a>>(rt: &impl Abort, place: &'a D, owned: &'a String) {
    all(rt, place);
    values::lent(rt, place, owned);
}

// A test makes one call with its place, since each call with a place of a named type takes long to prove.
#[test]
fn boxes(rt: HostRuntime) {
    let owned = String::from_str(rt.alloc(), "owned").expect(&rt, "memory was refused");
    let boxes = BoxAllocator::new(rt.alloc());
    in_boxes(&rt, &boxes, &owned);
}

#[test]
fn counted_nodes(rt: HostRuntime) {
    let nodes = RcAllocator::new(rt.alloc());
    all(&rt, &nodes);
}

fn in_arena<'a>(rt: &impl Abort, arena: &'a Arena<'a>) {
    all(rt, arena);
}

#[test]
fn arenas(rt: HostRuntime) {
    let bump = Bump::new(rt.alloc());
    let arena = Arena::new(rt.alloc(), &bump);
    in_arena(&rt, &arena);
}
