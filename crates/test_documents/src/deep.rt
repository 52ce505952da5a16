//! Documents deeper by far than the stack has room for calls.
use prettyless::{Doc, DocPlace, DocPtr};
use std::process::Abort;

const DEPTH: u32 = 100_000;

fn placed<'a, D: DocPlace<'a>>(rt: &impl Abort, place: &'a D, doc: Doc<'a, D::Doc>) -> D::Doc {
    place.alloc(doc).expect(rt, "a node was not placed")
}

fn cloned<'a, D: DocPlace<'a>>(rt: &impl Abort, place: &'a D, pointer: &D::Doc) -> D::Doc {
    place
        .clone_ptr(pointer)
        .expect(rt, "a document was not cloned")
}

// Lines appended to the left of one another, or to the right.
fn appended<'a, D: DocPlace<'a>>(rt: &impl Abort, place: &'a D, left: bool) -> D::Doc {
    let mut chain = placed(rt, place, Doc::Nil);
    for _ in 0..DEPTH {
        let line = placed(rt, place, Doc::HardLine);
        chain = if left {
            placed(rt, place, Doc::Append(chain, line))
        } else {
            placed(rt, place, Doc::Append(line, chain))
        };
    }
    chain
}

// The chain in one more node of each kind that holds others.
fn in_each<'a, D: DocPlace<'a>>(rt: &impl Abort, place: &'a D, chain: D::Doc) -> D::Doc {
    let chain = placed(rt, place, Doc::LineSuffix(chain));
    let chain = placed(rt, place, Doc::Nest(-1, chain));
    let chain = placed(rt, place, Doc::DedentToRoot(chain));
    let chain = placed(rt, place, Doc::Align(chain));
    let chain = placed(rt, place, Doc::Flatten(chain));
    let chain = placed(rt, place, Doc::Group(chain));
    let line = placed(rt, place, Doc::WeakLine);
    let chain = placed(rt, place, Doc::BreakOrFlat(chain, line));
    let failure = placed(rt, place, Doc::Fail);
    let chain = placed(rt, place, Doc::Union(failure, chain));
    let nothing = placed(rt, place, Doc::ExpandParent);
    placed(rt, place, Doc::PartialUnion(chain, nothing))
}

fn in_all_kinds<'a, D: DocPlace<'a>>(rt: &impl Abort, place: &'a D) -> D::Doc {
    let mut chain = placed(rt, place, Doc::Nil);
    for _ in 0..DEPTH / 10 {
        chain = in_each(rt, place, chain);
    }
    chain
}

fn clone_and_drop<'a, D: DocPlace<'a>>(rt: &impl Abort, place: &'a D, chain: D::Doc) {
    drop(cloned(rt, place, &chain));
    drop(chain);
}

// Chains that are cloned and dropped.
pub(crate) fn chains<'a, D: DocPlace<'a>>(rt: &impl Abort, place: &'a D) {
    clone_and_drop(rt, place, appended(rt, place, true));
    clone_and_drop(rt, place, appended(rt, place, false));
    clone_and_drop(rt, place, in_all_kinds(rt, place));
}

// Nothing, twice in each node. It would not end if a clone with counted owners placed nodes.
pub(crate) fn doubled<'a, D: DocPlace<'a>>(rt: &impl Abort, place: &'a D) {
    let mut chain = placed(rt, place, Doc::Nil);
    for _ in 0..DEPTH {
        let copy = cloned(rt, place, &chain);
        chain = placed(rt, place, Doc::Append(copy, chain));
    }
    assert!(rt; !chain.doc().is_nil());
}
