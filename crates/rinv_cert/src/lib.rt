//! Certificates of rational invariants as values, read from JSON and written as JSON.
#![tactic(auto)]

mod basis_items;
mod certificate;
mod fault;
mod header;
mod items;
mod keys;
mod laws;
mod members;
mod pair_items;
mod read;
mod relation_items;
mod shape;
mod tuples;
mod write;

pub use certificate::{
    BasisItem, Certificate, CertificateOf, Kind, PairItem, Plain, Polynomial, RelationItem, System,
    TailItem, Term, Tied,
};
pub use fault::{CertFault, CertStop, Part};
pub use items::{Items, Name};
pub use read::from_json;
pub use write::to_json;
