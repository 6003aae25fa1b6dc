//! The answer of `certify`: from the bytes of a system to the text of the certificate of its generators.
#![tactic(auto)]

mod certifying;
mod stopping;
mod text;

pub use certifying::answer;
