//! What `bench` answers: the queries of the workload are answered as `run` does, and a summary is printed in place of their lines.
#![tactic(auto)]

mod answering;
pub mod commands;
mod counting;
mod summary;
