//! Tests of the public calls that read and write polynomials and systems as text. They stand in a crate of their own, so that no crate is proved once more with its tests.
#![tactic(auto)]

#[cfg(test)]
mod fractions;
#[cfg(test)]
mod names;
#[cfg(test)]
mod polynomials;
#[cfg(test)]
mod printing;
#[cfg(test)]
mod readings;
#[cfg(test)]
mod systems;
