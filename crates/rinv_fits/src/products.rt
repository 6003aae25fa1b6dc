//! Products of polynomials.

ghost use Rattle.std.specs.Prelude.{◌≡◌, length, true, nat_lt, All, IfErr, OnOk};
ghost use Rattle.rinv_algebra.specs.Residue.{residue_ops};
ghost use Rattle.rinv_algebra.specs.Normal.{IsNormal};
ghost use Rattle.rinv_algebra.specs.Fits.{combination_fits, product_fits};
ghost use Rattle.rinv_ring.specs.Fault.{DegreesMeet};
ghost use Rattle.rinv_poly.specs.Faults.{MonomialsMeet};
ghost use Rattle.rinv_fits.specs.Sums.{SumsMeet};

use crate::degrees::greatest_degree;
use rinv_mono::MAX_DEGREE;
use rinv_poly::{KPoly, PolyRing};
use rinv_ring::{Gf, RingFault};

/// Fine exactly where each product of a monomial of the one and a monomial of the other is within the limit. Degree tells two that are not.
pub fn check_product(ring: &PolyRing<Gf>, f: &KPoly, g: &KPoly) -> Result<(), RingFault>
    requires left { IsNormal (residue_ops ring.now.coeffs) (λ c. nat_lt c ring.now.coeffs) ring.now.vars f.now }
    requires right { IsNormal (residue_ops ring.now.coeffs) (λ c. nat_lt c ring.now.coeffs) ring.now.vars g.now }
    ensures fits { OnOk result (product_fits (residue_ops ring.now.coeffs) f.now g.now ≡ true) }
    ensures degree { IfErr result (DegreesMeet (MonomialsMeet (residue_ops ring.now.coeffs) f.now g.now)) }
{
    let (first, second) = (f.terms(), g.terms());
    if first.is_empty() || second.is_empty() {
        return Ok(());
    }
    let left = greatest_degree(first);
    let right = greatest_degree(second);
    if left + right > MAX_DEGREE {
        return Err(RingFault::Degree { left, right });
    }
    Ok(())
}

/// Fine exactly where so is each product of a cofactor and its generator. Degree tells two monomials of one that is not.
pub fn check_sums(
    ring: &PolyRing<Gf>,
    cofactors: &[KPoly],
    generators: &[KPoly],
) -> Result<(), RingFault>
    requires many { length cofactors.now ≡ length generators.now }
    requires cofactors { All (IsNormal (residue_ops ring.now.coeffs) (λ c. nat_lt c ring.now.coeffs) ring.now.vars) cofactors.now }
    requires generators { All (IsNormal (residue_ops ring.now.coeffs) (λ c. nat_lt c ring.now.coeffs) ring.now.vars) generators.now }
    ensures fits { OnOk result (combination_fits (residue_ops ring.now.coeffs) cofactors.now generators.now ≡ true) }
    ensures degree { IfErr result (DegreesMeet (SumsMeet ring.now.coeffs ring.now.vars cofactors.now generators.now)) }
{
    'products: for k in 0..cofactors.len() {
        check_product(ring, &cofactors[k], &generators[k])?;
    }
    Ok(())
}
