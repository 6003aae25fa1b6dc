//! The certificate of generators, which is accepted.
//!
//! - `certify`: of kind `full`, or of kind `sound` where the system has a section
#![tactic(auto)]

mod basis;
mod changes;
mod common;
mod inputs;
mod laws;
mod making;
mod products;
mod raising;
mod relations;
mod stop;
mod tails;
mod terms;
mod ties;

pub use making::certify;
pub use stop::CertifyStop;
