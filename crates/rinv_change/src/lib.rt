//! The test of a fraction's invariance, and the cofactors that prove it.
//!
//! - `test_invariant`: nothing where the fraction is invariant, and else the normal form of its change
//! - `kept_cofactors`: the cofactors of the group's basis, made once
//! - `invariance_proof`: by them the cofactors of an invariant fraction's change over the group's ideal
//! - `change_ring`, `kept_basis`, `sums_of_products`: what these are made with, for other members of that ideal
#![tactic(auto)]

mod asked;
mod changing;
mod cofactors;
mod kept;
mod testing;

pub use changing::change_ring;
pub use cofactors::{KeptCofactors, invariance_proof, kept_cofactors, sums_of_products};
pub use kept::{KeptBasis, kept_basis};
pub use testing::test_invariant;
