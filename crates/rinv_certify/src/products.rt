//! Products of polynomials over the numbers modulo a prime, with the degrees that they meet.

ghost use Rattle.std.specs.Prelude.{◌≡◌, true, IfOk, IfErr, OnOk};
ghost use Rattle.rinv_algebra.specs.Residue.{residue_ops};
ghost use Rattle.rinv_algebra.specs.Fits.{product_fits};
ghost use Rattle.rinv_ring.specs.Fault.{DegreesMeet};
ghost use Rattle.rinv_poly.specs.Faults.{MonomialsMeet};
ghost use Rattle.rinv_certify.specs.InSpace.{IsProduct};
ghost use Rattle.rinv_frac.specs.Fractions.{IsPart};

use rinv_fits::check_product;
use rinv_poly::{KPoly, PolyRing};
use rinv_ring::{Gf, Ring, RingFault};
use std::alloc::Global;

/// The product. Degree tells two monomials whose product is over the limit.
pub(crate) fn product_of_two(
    alloc: Global,
    ring: &PolyRing<Gf>,
    f: &KPoly,
    g: &KPoly,
) -> Result<KPoly, RingFault>
    requires left { IsPart ring.now.coeffs ring.now.vars f.now }
    requires right { IsPart ring.now.coeffs ring.now.vars g.now }
    ensures normal { IfOk result (IsPart ring.now.coeffs ring.now.vars) }
    ensures value { IfOk result (IsProduct ring.now.coeffs f.now g.now) }
    ensures fits { OnOk result (product_fits (residue_ops ring.now.coeffs) f.now g.now ≡ true) }
    ensures degree { IfErr result (DegreesMeet (MonomialsMeet (residue_ops ring.now.coeffs) f.now g.now)) }
{
    check_product(ring, f, g)?;
    let product = ring.mul(alloc, f, g)?;
    Ok(product)
}
