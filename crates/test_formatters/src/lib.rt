//! Tests of the guide's formatters: the layouts of entries, read back.
#![tactic(auto)]

#[cfg(test)]
mod entries;
