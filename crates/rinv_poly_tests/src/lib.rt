//! Tests of polynomials and of substitutions. They stand in a crate of their own, so that no crate is proved once more with its tests.
#![tactic(auto)]

#[cfg(test)]
mod arithmetic;
#[cfg(test)]
mod polynomials;
#[cfg(test)]
mod substitutions;
#[cfg(test)]
mod tables;
