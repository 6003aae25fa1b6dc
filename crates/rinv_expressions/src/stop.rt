//! Why there is no expression in generators on a section.

use rinv_poly::KPoly;

/// Why a fraction has no expression in generators on a section.
#[derive(Drop)]
pub enum OnStop {
    /// It is not invariant: the normal form of its change, in the group's and then the space's variables.
    NotInvariant { rest: KPoly },
    /// It is invariant, and its denominator vanishes on the section.
    VanishingDenominator,
    /// Two monomials of these degrees, which add up to more than the limit, were to be multiplied.
    Degree { left: u32, right: u32 },
    NoMemory,
}
