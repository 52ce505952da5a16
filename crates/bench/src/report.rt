//! The lines that are printed.

use crate::failure::Failure;
use crate::measure::{lay, time};
use crate::peak::{forget_peak, peak};
use crate::workload::{WORKLOADS, Workload};
use prettyless::text::{BuildError, MultilineTextData, Text};
use prettyless::{Arena, BoxDoc, BuildDoc, Doc, DocBuilder, RcDoc, RefDoc};
use std::rt::{Clock, Files};

/// Prints a line for the layout of each workload at its small size.
pub fn compare<R: AllocGlobal + Print>(rt: &R) -> Result<(), Failure> {
    for &workload in WORKLOADS {
        let laid = lay(rt.alloc(), workload, workload.small_size)?;
        let name = workload.name;
        println!(rt;
            "{name} {} {} {:08x}",
            laid.nodes, laid.bytes, laid.checksum
        )?;
    }
    Ok(())
}

// The sizes in bytes of the types that make nodes, and of what the calls of an arena answer.
fn type_sizes() -> [(&'static str, usize); 11] {
    [
        ("Text", size_of::<Text<'_>>()),
        ("MultilineTextData", size_of::<MultilineTextData<'_>>()),
        ("BoxDoc", size_of::<BoxDoc<'_>>()),
        ("RcDoc", size_of::<RcDoc<'_>>()),
        ("RefDoc", size_of::<RefDoc<'_>>()),
        ("Doc<BoxDoc>", size_of::<Doc<'_, BoxDoc<'_>>>()),
        ("Doc<RcDoc>", size_of::<Doc<'_, RcDoc<'_>>>()),
        ("Doc<RefDoc>", size_of::<Doc<'_, RefDoc<'_>>>()),
        ("BuildDoc<RefDoc>", size_of::<BuildDoc<'_, RefDoc<'_>>>()),
        ("DocBuilder<Arena>", size_of::<DocBuilder<'_, Arena<'_>>>()),
        (
            "Result<DocBuilder<Arena>>",
            size_of::<Result<DocBuilder<'_, Arena<'_>>, BuildError>>(),
        ),
    ]
}

/// Prints a line for each of these types.
pub fn sizes<R: Print>(rt: &R) -> Result<(), Failure> {
    for (name, bytes) in type_sizes() {
        println!(rt; "{name:<25} {bytes:>3}")?;
    }
    Ok(())
}

// Prints the greatest memory of a run, where it is known, and ends the line.
fn print_peak<R: AllocGlobal + Files + Print>(rt: &R, counts: bool) -> Result<(), Failure> {
    match peak(rt) {
        Some(figure) if counts => println!(rt; ", peak memory {figure} KiB")?,
        _ => println!(rt; "")?,
    }
    Ok(())
}

// Prints a line for a workload at one size, within one width: nodes, bytes, microseconds of building and of laying out,
// nanoseconds a node, and the peak of memory.
fn time_at<R: AllocGlobal + Clock + Files + Print>(
    rt: &R,
    workload: Workload,
    size: usize,
    width: usize,
) -> Result<(), Failure> {
    let name = workload.name;
    let counts = forget_peak(rt);
    let timed = time(rt, rt.alloc(), workload.shape, size, width)?;
    let nanos = timed.render.as_nanos() / timed.nodes.max(1) as u128;
    print!(rt;
        "{name} {size}: {} nodes, {} bytes, built in {} us, laid out in {} us, {nanos} ns a node",
        timed.nodes,
        timed.bytes,
        timed.build.as_micros(),
        timed.render.as_micros()
    )?;
    print_peak(rt, counts)
}

/// Prints a line for each full size of a workload.
pub fn time_workload<R: AllocGlobal + Clock + Files + Print>(
    rt: &R,
    workload: Workload,
) -> Result<(), Failure> {
    for size in workload.full_sizes {
        time_at(rt, workload, *size, workload.width)?;
    }
    Ok(())
}

/// Prints these lines for layouts within as many columns as the size is.
pub fn time_wide<R: AllocGlobal + Clock + Files + Print>(
    rt: &R,
    workload: Workload,
) -> Result<(), Failure> {
    for size in workload.full_sizes {
        time_at(rt, workload, *size, *size)?;
    }
    Ok(())
}

/// Prints a line for each full size of each workload.
pub fn time_all<R: AllocGlobal + Clock + Files + Print>(rt: &R) -> Result<(), Failure> {
    for &workload in WORKLOADS {
        time_workload(rt, workload)?;
    }
    Ok(())
}
