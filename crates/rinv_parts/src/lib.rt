//! The parts of the laws of a group and of its action, made one at a time. Nothing is divided here.
//!
//! - `LawName`: the laws by their names
//! - `parts_of`: the ring of a law, and the points at which its parts take the system's polynomials
//! - `law_polynomials`, `polynomial_variables`: the polynomials of which a law speaks, and how many variables they have
//! - `part_count`, `part_at`: how many parts there are, and the part at a place
//! - `variables_of`: how many variables the parts of a law have
#![tactic(auto)]

mod coordinates;
mod law;
mod law_points;
mod parts;
mod taken;

pub use law::LawName;
pub use law_points::LawPoints;
pub use parts::{
    LawParts, law_polynomials, part_at, part_count, parts_of, polynomial_variables, variables_of,
};
