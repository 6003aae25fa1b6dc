//! The conditions under which a certificate of rational invariants is accepted, tested without division or search.
//!
//! - `check`, `Verdict`: accepted, or the first condition that fails, with its place
//! - the second condition (laws), the third and the fourth (basis, inputs) and the last (fractions); `rinv_form` has the first, and
//!   `rinv_basis_check` those on pairs, relations and leads
#![tactic(auto)]

mod basis;
mod invariance;
mod laws;
mod named_system;
mod verdict;

pub use rinv_cert as cert;
pub use verdict::{Verdict, check};
