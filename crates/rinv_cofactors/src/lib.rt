//! The cofactors of a Gröbner basis: of which combination of the polynomials given each element is, made along the journal.
#![tactic(auto)]

mod columns;
mod combining;
mod multipliers;
mod units;

pub use columns::sum_of_products;
pub use combining::combinations;
