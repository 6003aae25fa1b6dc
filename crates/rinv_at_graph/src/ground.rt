//! What the cofactors of values at Z = g are made of.

use rinv_change::{KeptBasis, KeptCofactors};
use rinv_poly::{KPoly, PolyRing};
use rinv_ring::Gf;

/// The ring in all variables, and that in the group's and the space's; what stands for the variables of the first in the second; there the
/// group's ideal, and the kept elements of its basis with their cofactors.
#[derive(Drop)]
pub struct Ground {
    pub ring: PolyRing<Gf>,
    pub whole: PolyRing<Gf>,
    pub point: Vec<KPoly>,
    pub ideal: Vec<KPoly>,
    pub basis: KeptBasis,
    pub cofactors: KeptCofactors,
}
