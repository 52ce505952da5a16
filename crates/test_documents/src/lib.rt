//! Tests of documents: the calls that build them, each in every place of nodes, the parts that they are made of, and what no case of
//! `replay` can say: the constants of an arena, memory that a `Bump` refuses, and the sizes of nodes.
#![tactic(auto)]

#[cfg(test)]
mod arena;
#[cfg(test)]
mod builders;
#[cfg(test)]
mod calls;
#[cfg(test)]
mod constants;
#[cfg(test)]
mod deep;
#[cfg(test)]
mod expected;
#[cfg(test)]
mod nodes;
#[cfg(test)]
mod own_place;
#[cfg(test)]
mod places;
#[cfg(test)]
mod pointers;
#[cfg(test)]
mod refusals;
#[cfg(test)]
mod sizes;
