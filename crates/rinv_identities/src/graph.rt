//! The graph of the action: the rings and the point by which a polynomial takes its value where the moved point stands for Z.

ghost use Rattle.std.specs.Prelude.{◌≡◌, length};
ghost use Rattle.rinv_parts.specs.Points.{ArePolynomials};

use rinv_poly::{KPoly, PolyRing};
use rinv_ring::Gf;

/// What a value on the graph is taken by.
#[derive(Drop)]
pub struct Graph {
    /// The ring of the group's variables, Z and the space's.
    pub ring: PolyRing<Gf>,
    /// The ring of the group's variables and the space's.
    pub whole: PolyRing<Gf>,
    /// What stands for the variables of `ring`: they themselves, and the moved point for Z.
    pub point: Vec<KPoly>,
    /// The generators of the group's ideal.
    pub ideal: Vec<KPoly>,
    ghost field: { ring.coeffs ≡ whole.coeffs },
    ghost many: { length point.items ≡ ring.vars },
    ghost coordinates: { ArePolynomials whole.coeffs whole.vars point.items },
    ghost generators: { ArePolynomials whole.coeffs whole.vars ideal.items },
}
