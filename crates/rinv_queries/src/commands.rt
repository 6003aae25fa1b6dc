//! What each command answers, a file a command.

pub mod rewrite;
pub mod run;
