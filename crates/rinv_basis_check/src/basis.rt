//! A basis: its elements with their leading monomials.

ghost use Rattle.std.specs.Prelude.{◌≡◌, map, All, false};
ghost use Rattle.rinv_algebra.specs.Residue.{residue_ops};
ghost use Rattle.rinv_algebra.specs.Polynomial.{is_zero};
ghost use Rattle.rinv_algebra.specs.Leading.{leading_monomial};
ghost use Rattle.rinv_algebra.specs.BlockEnds.{sizes_from, last_from};
ghost use Rattle.rinv_algebra.specs.Order.{block_order};
ghost use Rattle.rinv_parts.specs.Points.{ArePolynomials};

use rinv_mono::{Blocks, Mono};
use rinv_poly::{KPoly, PolyRing};
use rinv_ring::Gf;

/// The elements of a basis in one ring, their leading monomials, and the order in which these lead.
#[derive(Drop)]
pub struct Basis {
    pub ring: PolyRing<Gf>,
    pub order: Blocks,
    pub elements: Vec<KPoly>,
    pub leads: Vec<Mono>,
    ghost polynomials: { ArePolynomials ring.coeffs ring.vars elements.items },
    ghost nonzero: { All (λ f. is_zero (residue_ops ring.coeffs) f ≡ false) elements.items },
    ghost suits: { ring.vars ≡ last_from 0 order },
    ghost leading: { leads.items ≡ map (leading_monomial (residue_ops ring.coeffs) (block_order (sizes_from 0 order))) elements.items },
}
