//! Tests of rewriting.
#![tactic(auto)]

#[cfg(test)]
mod rewriting;
