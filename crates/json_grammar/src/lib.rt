//! The grammar of JSON, lexeme by lexeme: which of them may come next. Where a text is not JSON, `fault_of` says at which place, and
//! what was expected there.
#![tactic(auto)]

mod depth;
mod expected;
mod fault;
mod laws;
mod next;
mod string;

pub use depth::depth_fault;
pub use expected::Expected;
pub use fault::{Fault, fault_of};
pub use laws::{law_grammar, law_stops};
