//! Documents as bytes: a program, which a builder in any language writes. It has one instruction for each node, after those
//! of the documents below it.
#![tactic(auto)]

mod decoding;
mod fault;
mod instruction;
pub mod laws;
mod making;
mod reader;
mod stack;

pub use decoding::decode;
pub use fault::ProgramFault;
