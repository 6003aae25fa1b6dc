//! Tests of expressions in generators with their proofs.
#![tactic(auto)]

#[cfg(test)]
mod expressing;
