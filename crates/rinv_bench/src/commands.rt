//! What the command answers.

pub mod bench;
