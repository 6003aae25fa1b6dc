//! What each command answers, a file a command.

pub mod generators;
pub mod laws;
