//! Tests of the conditions of certificates. They stand in a crate of their own, so that no crate is proved once more with its tests.
#![tactic(auto)]

#[cfg(test)]
mod conditions;
#[cfg(test)]
mod worked;
