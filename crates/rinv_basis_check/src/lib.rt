//! The conditions on the basis of a full certificate: its pairs, its relations and their leads. Nothing is divided or searched.
//!
//! - `Basis`, `basis_of`: the elements with their leading monomials
//! - `pairs_failure`: the basis is a Gröbner basis, as its pairs show
//! - `relations_failure`, `leads_failure`: the relations hold on the graph, and cover the basis
#![tactic(auto)]

mod basis;
mod elements;
mod entry;
mod leads;
mod listed_pairs;
mod pairs;
mod quotients;
mod relation;
mod relations;
mod rings;
mod tied;

pub use basis::Basis;
pub use elements::basis_of;
pub use leads::leads_failure;
pub use pairs::pairs_failure;
pub use relations::relations_failure;
