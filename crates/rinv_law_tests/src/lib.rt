//! Tests of the parts of the laws, of the Gröbner basis of a group's ideal, and of the test and the proofs of the laws, on worked systems.
#![tactic(auto)]

#[cfg(test)]
mod faults;
#[cfg(test)]
mod parts;
#[cfg(test)]
mod proofs;
