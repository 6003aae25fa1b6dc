//! Tests of the command that certifies: what it prints is accepted by the checker, or says why there is no certificate.
#![tactic(auto)]

#[cfg(test)]
mod certifying;
