//! Terms of many runs in one region of slots: a term is added or taken without taking memory.
#![tactic(auto)]

mod pool;
mod slots;
#[cfg(test)]
mod tests;

pub use pool::{Run, TermPool};
