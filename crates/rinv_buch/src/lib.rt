//! Gröbner bases: Buchberger's algorithm with a journal and a budget, and the reduced basis.
#![tactic(auto)]

mod buchberger;
mod elements;
mod halting;
pub mod kinds;
mod reducing;
mod run;
mod s_polynomial;
mod settling;
mod spending;

pub use buchberger::{basis, basis_by};
pub use kinds::{Basis, Entry, EntryKind, Halt, Stop, Why};
pub use reducing::{interreduce, kept_places};
pub use s_polynomial::{leading_term, s_polynomial_of};
