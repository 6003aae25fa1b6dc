//! Rational expressions of invariants in generators that come with their proofs.
//!
//! - `rewrite`: for generators without a section
//! - `rewrite_on`: for generators on a section as well, where a denominator may vanish
#![tactic(auto)]

mod expressing;
mod stop;

pub use expressing::{rewrite, rewrite_on};
pub use stop::OnStop;
