//! Tests of the public calls that read and write certificates. They stand in a crate of their own, so that no crate is proved once more with its tests.
#![tactic(auto)]

#[cfg(test)]
mod hostile;
#[cfg(test)]
mod readings;
#[cfg(test)]
mod refusals;
#[cfg(test)]
mod worked;
#[cfg(test)]
mod written;
