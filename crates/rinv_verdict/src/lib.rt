//! What `check` answers to bytes: a text and how it ends, before anything is written.
#![tactic(auto)]

mod checking;
mod fraction;

pub use checking::answer;
