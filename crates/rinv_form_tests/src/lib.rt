//! Tests of the public calls that read a certificate and check it. They stand in a crate of their own, so that no crate is proved once more with its tests.
#![tactic(auto)]

#[cfg(test)]
mod forms;
#[cfg(test)]
mod worked;
