//! Tests of divisions, of bases and of cofactors. They stand in a crate of their own, so that no crate is proved once more with its tests.
#![tactic(auto)]

#[cfg(test)]
mod bases;
#[cfg(test)]
mod divisions;
#[cfg(test)]
mod monic_divisions;
#[cfg(test)]
mod tables;
#[cfg(test)]
mod wide_step;
