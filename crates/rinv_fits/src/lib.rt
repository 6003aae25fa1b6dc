//! Whether products are within the limit on degrees, told by degrees alone: nothing is multiplied.
//!
//! - `greatest_degree`: the greatest degree of some terms
//! - `check_product`: of two polynomials
//! - `check_sums`: of cofactors and generators, place by place
#![tactic(auto)]

mod degrees;
mod products;

pub use degrees::greatest_degree;
pub use products::{check_product, check_sums};
