//! Rational expressions of invariants in the generators.
//!
//! - `prepared`: the relations with symbols, made ready for division once for all fractions
//! - `rewritten`: by them the expression of an invariant, or the rest that shows that there is none
//! - `prepared_for`, `rewritten_by`: the same over the parts, for who has them otherwise
#![tactic(auto)]

mod basis;
mod choosing;
mod coefficients;
mod dividing;
mod expression;
mod relations;
mod rewriting;
mod stop;
mod symbols;

pub use basis::{SymbolBasis, prepared, prepared_for};
pub use expression::Expression;
pub use rewriting::{rewritten, rewritten_by};
pub use stop::RewriteStop;
