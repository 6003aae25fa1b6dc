//! Generators of the field of invariants.
//!
//! - `pieces`: from a system to the reduced basis of its extended ideal and its generators, with no cofactors
//! - `Findings`, `GenStop`: what was found, or why nothing is
//! - `number_coefficients`: relations whose coefficients are tied to their generators
//! - `budgets_are_met`: what a halt says of its journal
#![tactic(auto)]

mod comparing;
mod constants;
pub mod counted;
mod finding;
mod kinds;
mod numbering;
mod relations;
mod runs;
mod tying;

pub use finding::pieces;
pub use kinds::{Findings, GenStop, Phase, Relation, Symbol};
pub use numbering::{Numbered, number_coefficients};
