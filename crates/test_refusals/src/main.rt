//! Builds documents in each place, copies them, lays them out and counts the visits of one, all over fixed arrays.
//! Where memory is refused it does the same once more, which has to succeed. So it prints the same whichever one request
//! for memory is refused, and `tools/refuse_memory` refuses each in turn. It fails where it cannot go on.
//!
//! `rt try` refuses the request of one number in all runs. So this reads how many requests it makes of its own before the others,
//! and says whether one of its own was refused.
#![tactic(auto)]

mod alternatives;
mod documents;
mod parts;

use arrayvec::ArrayVec;
use documents::{ALL, COPIED, COUNTED, DocumentKind, KEPT};
use prettyless::text::BuildError;
use prettyless::{
    Arena, BoxAllocator, BoxDoc, Bump, DocPlace, DocPtr, IoWrite, RcAllocator, RenderError,
    RenderOptions, Visits,
};
use std::alloc::Global;
use std::io::Read;
use std::process::ExitCode;
use std::str::from_utf8;

// How many requests of its own come after the others, where some come before: enough to reach the one that is refused.
const AFTER: usize = 1_000;

/// A writer that takes no memory, and nothing more once it is full.
type Fixed = ArrayVec<u8, 64>;

/// What a writer was given: all of a layout, or a beginning where memory was refused.
#[derive(Drop)]
enum Written {
    Whole(Fixed),
    Beginning(Fixed),
}

// Builds a document, once more where memory is refused.
fn build<'a, D: DocPlace<'a>>(place: &'a D, kind: DocumentKind) -> Option<D::Doc> {
    match kind.document(place) {
        Err(BuildError::Memory(_)) => kind.document(place).ok(),
        built => built.ok(),
    }
}

// Likewise of a copy.
fn copy<'a>(memory: Global, document: &BoxDoc<'a>) -> Option<BoxDoc<'a>> {
    match document.clone(memory) {
        Err(BuildError::Memory(_)) => document.clone(memory).ok(),
        copied => copied.ok(),
    }
}

// Lays a document out once.
fn laid_out<'a, T: DocPtr<'a>>(memory: Global, document: &T, width: usize) -> Option<Written> {
    let mut out = Fixed::new();
    match document.doc().render(memory, width, &mut out) {
        Ok(()) => Some(Written::Whole(out)),
        Err(RenderError::Memory(_)) => Some(Written::Beginning(out)),
        Err(_) => None,
    }
}

// A whole layout, which has this beginning.
fn whole_after(beginning: &[u8], written: Written) -> Option<Fixed> {
    match written {
        Written::Whole(out) if out.as_slice().starts_with(beginning) => Some(out),
        _ => None,
    }
}

// Lays a document out, once more where memory is refused.
fn lay_out<'a, T: DocPtr<'a>>(memory: Global, document: &T, width: usize) -> Option<Fixed> {
    match laid_out(memory, document, width)? {
        Written::Whole(out) => Some(out),
        Written::Beginning(out) => whole_after(out.as_slice(), laid_out(memory, document, width)?),
    }
}

// Prints the layout of a document below its name.
fn print<'a, R: AllocGlobal + Print, T: DocPtr<'a>>(
    rt: &R,
    place: &str,
    kind: DocumentKind,
    document: &T,
) -> Option<()> {
    let layout = lay_out(rt.alloc(), document, kind.width())?;
    let name = kind.name();
    println!(rt; "-- {place}: {name}").ok()?;
    Print::write_all(rt, layout.as_slice()).ok()?;
    println!(rt).ok()
}

// The visits of a render that counts them.
fn count<'a, T: DocPtr<'a>>(memory: Global, document: &T) -> Option<Visits> {
    let (mut out, mut visits) = (Fixed::new(), Visits::default());
    let mut sink = IoWrite::new(&mut out);
    let options = RenderOptions::default();
    let document = document.doc();
    match document.render_raw_counted_with(memory, options, &mut sink, &mut visits) {
        Ok(()) => Some(visits),
        Err(_) => None,
    }
}

// Prints how many visits the probes of a pair in a group take: one over a table, six where that is refused memory.
fn print_counted<R: AllocGlobal + Print>(rt: &R) -> Option<()> {
    let boxes = BoxAllocator::new(rt.alloc());
    let pair = build(&boxes, COUNTED)?;
    let visits = match count(rt.alloc(), &pair) {
        None => count(rt.alloc(), &pair)?,
        Some(visits) => visits,
    };
    let Visits { printer: 7, probes } = visits else {
        return None;
    };
    if probes != 1 && probes != 6 {
        return None;
    }
    let name = COUNTED.name();
    println!(rt; "-- counted: {name}, visits of probes: {probes}").ok()
}

// Builds each document, and prints its layout. So it does of the one that was built first, after all others.
fn print_each<'a, R: AllocGlobal + Print, D: DocPlace<'a>>(
    rt: &R,
    name: &str,
    place: &'a D,
) -> Option<()> {
    let kept = build(place, KEPT)?;
    for kind in ALL {
        print(rt, name, *kind, &build(place, *kind)?)?;
    }
    print(rt, name, KEPT, &kept)
}

fn print_in_arena<'a, R: AllocGlobal + Print>(rt: &R, arena: &'a Arena<'a>) -> Option<()> {
    print_each(rt, "arena", arena)
}

// Prints the layouts of copies, and of the documents that they are copies of.
fn print_copies<R: AllocGlobal + Print>(rt: &R) -> Option<()> {
    let boxes = BoxAllocator::new(rt.alloc());
    for kind in COPIED {
        let document = build(&boxes, *kind)?;
        print(rt, "copy", *kind, &copy(rt.alloc(), &document)?)?;
        print(rt, "copied", *kind, &document)?;
    }
    Some(())
}

// Prints the layouts of copies with counted owners, which outlive what they are copies of. To copy such a document takes no memory,
// so none is copied once more.
fn print_counted_copies<R: AllocGlobal + Print>(rt: &R) -> Option<()> {
    let nodes = RcAllocator::new(rt.alloc());
    for kind in COPIED {
        let document = build(&nodes, *kind)?;
        let copy = document.clone().ok()?;
        drop(document);
        print(rt, "counted copy", *kind, &copy)?;
    }
    Some(())
}

fn print_all<R: AllocGlobal + Print>(rt: &R) -> Option<()> {
    print_each(rt, "boxes", &BoxAllocator::new(rt.alloc()))?;
    print_each(rt, "counted owners", &RcAllocator::new(rt.alloc()))?;
    let bump = Bump::new(rt.alloc());
    let arena = Arena::new(rt.alloc(), &bump);
    print_in_arena(rt, &arena)?;
    print_copies(rt)?;
    print_counted_copies(rt)?;
    print_counted(rt)
}

// Makes a request, and answers whether it is granted.
fn is_granted(memory: Global) -> bool {
    Box::new(memory, 0u8).is_ok()
}

// Makes so many requests, and answers whether all are granted.
fn are_granted(memory: Global, count: usize) -> bool {
    let mut all = true;
    for _ in 0..count {
        all = is_granted(memory) && all;
    }
    all
}

// How many requests of its own come before the others. Reading it takes no memory.
fn requests_before<R: Input>(rt: &R) -> Option<usize> {
    let mut input = [0; 20];
    let count = rt.reader().read(&mut input).ok()?;
    from_utf8(&input[..count]).ok()?.parse().ok()
}

fn run<R: AllocGlobal + Input + Print>(rt: &R) -> Option<()> {
    let count = requests_before(rt)?;
    let before = are_granted(rt.alloc(), count);
    print_all(rt)?;
    let after = are_granted(rt.alloc(), if count == 0 { 0 } else { AFTER });
    let own = if before && after {
        "granted"
    } else {
        "refused"
    };
    println!(rt; "-- requests of its own: {own}").ok()
}

fn main(rt: HostRuntime) -> ExitCode {
    match run(&rt) {
        Some(()) => ExitCode::SUCCESS,
        None => ExitCode::FAILURE,
    }
}
