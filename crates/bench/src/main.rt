//! Measures building and laying out in an arena: `bench` prints what comes of small documents, `bench time [WORKLOAD]` how
//! long large ones take and how much memory, `bench wide WORKLOAD` the same within as many columns as their sizes, and
//! `bench sizes` how large the types are that make a node.
//!
//! A workload is a kind of document, with its sizes and the width that it is laid out within. Small ones are compared by
//! nodes, bytes and a checksum, large ones timed.
#![tactic(auto)]

mod checksum;
mod document;
mod failure;
mod groups;
mod json;
mod levels;
mod lists;
mod measure;
mod objects;
mod parts;
mod peak;
mod report;
mod request;
mod trials;
mod words;
mod workload;

use failure::Failure;
use report::{compare, sizes, time_all, time_wide, time_workload};
use request::{BenchRequest, requested};
use std::env;
use std::process::ExitCode;
use std::rt::{Clock, Env, Files};

fn run<R: AllocGlobal + Clock + Env + Files + Print>(rt: &R) -> Result<(), Failure> {
    let words: Vec<String> = env::args(rt)?.skip(1).collect(rt.alloc())?;
    match requested(&words).ok_or(Failure::Words)? {
        BenchRequest::Compare => compare(rt),
        BenchRequest::Sizes => sizes(rt),
        BenchRequest::TimeAll => time_all(rt),
        BenchRequest::Time(workload) => time_workload(rt, workload),
        BenchRequest::TimeWide(workload) => time_wide(rt, workload),
    }
}

fn main(rt: HostRuntime) -> ExitCode {
    match run(&rt) {
        Ok(()) => ExitCode::SUCCESS,
        Err(failure) => {
            // Where standard error takes no message, the status is what is left.
            let _ = rt.eprintln(failure.message());
            ExitCode::from(failure.status())
        }
    }
}
