//! What each command answers to bytes: a text and how it ends, before anything is written.
#![tactic(auto)]

pub mod commands;
mod generator_lines;
mod incomplete;
mod law_lines;

pub use generator_lines::{complete_line, generator_text, missed_line, write_generators};
pub use incomplete::{Cause, Phase, cause_of, incomplete_line};
pub use law_lines::{fault_line, hold_line, refused_line};
