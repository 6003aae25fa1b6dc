//! Generators of the field of invariants, with the proofs of the laws and the cofactors that prove each generator invariant.
//!
//! - `generators`, `generators_on`: from a system to its generators, without a section and with one
//! - `assemble`: the same, of what was found for the system already
//! - `budgets_are_met`: what a halt says of its journal
//! - `kinds::Generators`: the value, whose type keeps what these promise
#![tactic(auto)]

mod assembling;
pub mod counted;
mod finding;
pub mod kinds;
mod making;
mod proving;

pub use assembling::assemble;
pub use finding::{generators, generators_on};
pub use kinds::SectionStop;
