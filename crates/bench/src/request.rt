use crate::workload::{Workload, workload_named};

/// What `bench` is asked for.
#[derive(Clone, Copy)]
pub enum BenchRequest {
    /// The layouts of small documents.
    Compare,
    /// The sizes of types.
    Sizes,
    /// The times of all workloads.
    TimeAll,
    /// The times of one.
    Time(Workload),
    /// The times of one within as many columns as its size.
    TimeWide(Workload),
}

// What a word in front of a workload's name asks for: `time` or `wide`.
fn timed(word: &str, workload: Workload) -> Option<BenchRequest> {
    match word {
        "time" => Some(BenchRequest::Time(workload)),
        "wide" => Some(BenchRequest::TimeWide(workload)),
        _ => None,
    }
}

/// What the words of `bench` ask for: nothing, `sizes`, `time`, or `time` or `wide` and a workload's name.
pub fn requested(words: &[String]) -> Option<BenchRequest> {
    match words {
        [] => Some(BenchRequest::Compare),
        [word] if word.as_str() == "sizes" => Some(BenchRequest::Sizes),
        [word] if word.as_str() == "time" => Some(BenchRequest::TimeAll),
        [word, name] => timed(word.as_str(), workload_named(name.as_str())?),
        _ => None,
    }
}
