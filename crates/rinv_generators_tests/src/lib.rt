//! Tests of generators with their proofs, and of what is answered where there are none.
#![tactic(auto)]

#[cfg(test)]
mod generators;
