//! What has to come out of calls that build documents, for crates of tests.
#![tactic(auto)]

mod printed;
mod shown;

pub use printed::{PrintedPieces, failing};
pub use shown::{is_shown, points, refuses, shows};

/// Calls, each with what its answer is shown as: `CALL => SHOWN;`. They are given a place of nodes, or memory. The caller has a
/// function `check`, which ends the test where a call answers otherwise.
#[macro_export]
macro_rules! rows {
    ($compare:ident, $rt:expr, $place:expr; $($answer:expr => $shown:expr;)+) => {
        $(check($rt, $compare($place, $answer, $shown), $shown);)+
    };
}
