//! Building and laying out, and how long it takes.

use crate::checksum::checksum;
use crate::document::document;
use crate::failure::Failure;
use crate::workload::{Shape, Workload};
use bumpalo::Bump;
use prettyless::{Arena, Doc, DocPlace, DocPtr};
use std::alloc::Global;
use std::rt::Clock;
use std::time::{Duration, Instant};

/// How often a document is laid out again. The least time counts.
const RENDERS: usize = 5;

/// A document in an arena, and its layout.
#[derive(Clone, Copy)]
pub(crate) struct LaidDocument {
    /// How many nodes the arena placed.
    pub nodes: usize,
    /// The length of the layout, in bytes.
    pub bytes: usize,
    /// That of the layout's bytes.
    pub checksum: u64,
}

/// How long it took to build a document, and to lay it out.
#[derive(Clone, Copy)]
pub(crate) struct Timed {
    /// How many nodes the arena placed.
    pub nodes: usize,
    /// The length of the layout, in bytes.
    pub bytes: usize,
    /// What building took.
    pub build: Duration,
    /// What the fastest render took.
    pub render: Duration,
}

// The layout of a document within a width.
fn layout<'a, D: DocPlace<'a>>(
    alloc: Global,
    place: &'a D,
    shape: Shape,
    size: usize,
    width: usize,
) -> Result<String, Failure> {
    let root = document(place, shape, size)?;
    let mut out = String::new(alloc);
    root.doc().render_fmt(alloc, width, &mut out)?;
    Ok(out)
}

/// Lays a workload out.
pub(crate) fn lay(alloc: Global, workload: Workload, size: usize) -> Result<LaidDocument, Failure> {
    let bump = Bump::new(alloc);
    let arena = Arena::new(alloc, &bump);
    let out = layout(alloc, &arena, workload.shape, size, workload.width)?;
    Ok(LaidDocument {
        nodes: arena.len(),
        bytes: out.len(),
        checksum: checksum(out.as_bytes()),
    })
}

// Lays a document out, and answers the time that it took.
fn time_render<'a, C: Clock, T: DocPtr<'a>>(
    clock: &C,
    alloc: Global,
    width: usize,
    doc: &Doc<'a, T>,
    out: &mut String,
) -> Result<Duration, Failure> {
    out.clear();
    let start = Instant::now(clock)?;
    doc.render_fmt(alloc, width, out)?;
    Ok(start.elapsed(clock)?)
}

// The least of several times.
fn least_render<'a, C: Clock, T: DocPtr<'a>>(
    clock: &C,
    alloc: Global,
    width: usize,
    doc: &Doc<'a, T>,
    out: &mut String,
) -> Result<Duration, Failure> {
    let mut least = time_render(clock, alloc, width, doc, out)?;
    for _ in 0..RENDERS {
        least = least.min(time_render(clock, alloc, width, doc, out)?);
    }
    Ok(least)
}

fn time_in<'a, C: Clock, D: DocPlace<'a>>(
    clock: &C,
    alloc: Global,
    place: &'a D,
    shape: Shape,
    size: usize,
    width: usize,
) -> Result<(usize, Duration, Duration), Failure> {
    let start = Instant::now(clock)?;
    let root = document(place, shape, size)?;
    let build = start.elapsed(clock)?;
    let mut out = String::new(alloc);
    let render = least_render(clock, alloc, width, root.doc(), &mut out)?;
    Ok((out.len(), build, render))
}

/// Builds a document and lays it out several times within this width.
pub(crate) fn time<C: Clock>(
    clock: &C,
    alloc: Global,
    shape: Shape,
    size: usize,
    width: usize,
) -> Result<Timed, Failure> {
    let bump = Bump::new(alloc);
    let arena = Arena::new(alloc, &bump);
    let (bytes, build, render) = time_in(clock, alloc, &arena, shape, size, width)?;
    Ok(Timed {
        nodes: arena.len(),
        bytes,
        build,
        render,
    })
}
