//! Tests of values: what becomes a document, as combinators, tuples and texts, in each place of nodes; what sinks take and renders
//! count; what errors say; and the laws as a caller names them.
#![tactic(auto)]

#[cfg(test)]
mod combined;
#[cfg(test)]
mod derived;
#[cfg(test)]
mod expected;
#[cfg(test)]
mod laws;
#[cfg(test)]
mod places;
#[cfg(test)]
mod sinks;
#[cfg(test)]
mod texts;
#[cfg(test)]
mod values;
#[cfg(test)]
mod visits;
