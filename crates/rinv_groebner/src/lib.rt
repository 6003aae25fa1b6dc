//! The theory of Gröbner bases: `specs/` has the definitions, `proofs/` Buchberger's criterion and division over any ring of polynomials.
//! The functions do nothing: each contract is a law of the definitions, over any field and in any order of monomials.
#![tactic(auto)]

pub mod copies;
pub mod laws;
pub mod reduced;
