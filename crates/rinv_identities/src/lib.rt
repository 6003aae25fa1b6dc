//! Identities between polynomials over the numbers modulo a prime that are multiplied out. Nothing is divided or searched.
//!
//! - `multiplies_out`: whether a polynomial is the sum of cofactors times generators
//! - `Graph`, `graph_of`, `vanishes_on_graph`: the same of a polynomial's value where the moved point stands for Z
//! - `copied_ideal`: the generators of the group's ideal in copies of its variables
//! - `action_generators`: the generators of the action's ideal
//! - `copied_elements`: the elements of a basis
#![tactic(auto)]

mod elements;
mod generators;
mod graph;
mod ideals;
mod on_graph;
mod sums;

pub use elements::copied_elements;
pub use generators::action_generators;
pub use graph::Graph;
pub use ideals::{copied_ideal, widened_ideal};
pub use on_graph::{graph_of, vanishes_on_graph};
pub use sums::multiplies_out;
