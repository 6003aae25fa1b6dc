//! Names of variables, and polynomials and fractions as text.
#![tactic(auto)]

mod defs;
mod digits;
mod fault;
mod form;
mod formal;
mod fraction;
mod fractions;
pub mod laws;
mod limits;
mod names;
mod operations;
mod parser;
mod partial;
mod parts;
mod polynomial;
mod reading;
mod refusal;
mod settling;
mod size;
mod step;
mod system;
mod terms;
mod token;
mod tokens;
mod value;
mod variables;

pub use defs::{Abbreviation, Defs};
pub use digits::number;
pub use fault::{TextCode, TextFault, TextStop};
pub use form::{has_name_form, is_digit, is_letter};
pub use formal::Formal;
pub use fraction::{write_frac, write_fraction};
pub use fractions::read_frac;
pub use names::Names;
pub use polynomial::{write_poly, written};
pub use reading::{is_expression, read_bytes, read_poly};
pub use system::System;
pub use variables::variable;
