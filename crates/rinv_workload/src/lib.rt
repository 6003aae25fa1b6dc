//! The workload of `bench`: the text of a script, made from a number.
#![tactic(auto)]

mod text;

pub use text::bench_text;
