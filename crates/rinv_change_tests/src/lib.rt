//! Tests of the invariance of fractions, and of the cofactors that prove it.
#![tactic(auto)]

#[cfg(test)]
mod invariance;
