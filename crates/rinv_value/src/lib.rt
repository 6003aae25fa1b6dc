//! Values of polynomials at fractions.
#![tactic(auto)]

mod descending;
mod products;
mod sums;
mod values;

pub use values::value_at;
