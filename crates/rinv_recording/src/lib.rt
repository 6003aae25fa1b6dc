//! The pairs of the basis of the action's ideal as a certificate has them: the entries of its journal, with places from 1, and the
//! quotients of each division once more.
//!
//! - `recorded_pairs`: the entries in their order
#![tactic(auto)]

mod dividing;
mod entries;
mod multiples;
mod padding;
mod pairs;

pub use pairs::recorded_pairs;
