//! Why there is no expression.

use rinv_poly::KPoly;

/// Why a fraction has no expression in the generators.
#[derive(Drop)]
pub enum RewriteStop {
    /// It is not invariant: the normal form of its change, in the group's and then the space's variables.
    NotInvariant { rest: KPoly },
    /// Two monomials of these degrees, which add up to more than the limit, were to be multiplied.
    Degree { left: u32, right: u32 },
    NoMemory,
}
