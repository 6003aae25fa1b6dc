//! Scripts: systems, and what is asked of them.
#![tactic(auto)]

mod draft;
mod form;
pub mod laws;
mod line;
mod reading;
mod rests;
mod words;

pub use form::{Form, Query, Script};
pub use reading::read_script;
