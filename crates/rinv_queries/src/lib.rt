//! What `rewrite` and `run` answer to bytes: the queries of a script, one after another.
//!
//! - `commands`: a file a command
//! - `Outcome`: what a query is answered
//! - `Known`, `known_of` and `outcomes`: how it is answered
//! - `write_head` and `write_expression`: pieces of lines
#![tactic(auto)]

mod answering;
pub mod commands;
mod known;
mod lines;
mod needs;
mod outcome;
pub mod outcomes;

pub use known::{Known, known_of};
pub use lines::{write_expression, write_head};
pub use outcome::Outcome;
