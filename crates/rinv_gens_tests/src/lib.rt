//! Tests of the generators of worked systems, and of what is answered where there are none.
#![tactic(auto)]

#[cfg(test)]
mod generators;
