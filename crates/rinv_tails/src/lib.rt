//! Relations over fractions, and the reduction of their tails by exact steps.
//!
//! - `FracRelation`, `Monic`: a relation, and relations with ascending leads
//! - `reduced_tails`: each tail reduced by the relations before it
#![tactic(auto)]

mod adding;
mod reducing;
mod relations;

pub use reducing::reduced_tails;
pub use relations::{FracRelation, Monic, Tail};
