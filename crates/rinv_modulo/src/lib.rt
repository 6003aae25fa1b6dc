//! Values of polynomials modulo the ideal of a list of polynomials: powers and products are divided by the list as they are formed.
#![tactic(auto)]

mod reducing;
mod tables;
mod values;

pub use reducing::reduced;
pub use tables::{greatest_exponents, tables_modulo};
pub use values::value_modulo;
