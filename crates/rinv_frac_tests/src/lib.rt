//! Tests of fractions. They stand in a crate of their own, so that the crate of fractions is not proved once more with its tests.
#![tactic(auto)]

#[cfg(test)]
mod cancelling;
#[cfg(test)]
mod operations;
#[cfg(test)]
mod tables;
#[cfg(test)]
mod values;
