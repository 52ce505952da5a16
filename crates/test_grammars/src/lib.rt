//! Tests of what texts are: JSON, TOML, and the words, strings and lexemes of TOML.
#![tactic(auto)]

#[cfg(test)]
mod cuts;
#[cfg(test)]
mod deep;
#[cfg(test)]
mod faults;
#[cfg(test)]
mod strings;
#[cfg(test)]
mod texts;
#[cfg(test)]
mod words;
