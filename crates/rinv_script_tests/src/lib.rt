//! Tests of the public calls that read scripts. They stand in a crate of their own, so that no crate is proved once more with its tests.
#![tactic(auto)]

#[cfg(test)]
mod scripts;
