//! The calls of every pointer. Each places what it makes.
#![tactic(auto)]

mod placed;

pub use placed::{PlacedDoc, PlacedDocBetween, PlacedDocOf, PlacedDocOfTwo, PlacedDocOver};
