//! Values of polynomials where the moved point stands for Z, and the cofactors that show them to lie in the group's ideal.
//!
//! - `Ground`, `ground_of`: what these are made of, once for a system
//! - `proof_at_graph`: the cofactors of a value
#![tactic(auto)]

mod ground;
mod making;
mod point;
mod proof;

pub use ground::Ground;
pub use making::ground_of;
pub use proof::proof_at_graph;
