//! The specification, which the library is proved against: documents as trees, what a probe reads, and the layout of a tree.
//!
//! `specs/` holds the definitions, `proofs/` what holds of them alone. The code here is small: the mode in which a
//! document is laid, the column at which a printer is, and what a choice by column or nesting asks.
#![tactic(auto)]

pub mod choice;
pub mod column;
pub mod count;
pub mod kind;
pub mod laws;
pub mod metrics;
pub mod mode;
pub mod options;
pub mod rows;
pub mod spaces;
