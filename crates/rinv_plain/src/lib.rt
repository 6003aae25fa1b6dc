//! Stored polynomials in plain lists, as certificates have them.
//!
//! - `plain`, `plain_list`, `plain_lists`: a polynomial as the list of its terms, and lists of them
#![tactic(auto)]

mod lists;

pub use lists::{plain, plain_list, plain_lists};
