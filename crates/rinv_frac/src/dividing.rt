//! One part of a fraction is divided by the other, where that can be done.

ghost use Rattle.std.specs.Prelude.{◌≡◌, false, IsFalse, IfOk, IfSome, IfNone};
ghost use Rattle.rinv_algebra.specs.Ring.{IsSame};
ghost use Rattle.rinv_algebra.specs.Residue.{residue_ops};
ghost use Rattle.rinv_algebra.specs.Polynomial.{poly_ops, product, is_zero};
ghost use Rattle.rinv_frac.specs.Fractions.{IsPart, IsStored};
ghost use Rattle.rinv_frac.specs.Cancelling.{HasQuotient, IsDividedTo};

use crate::fraction::Frac;
use crate::parts::{one_over, over_one};
use rinv_poly::{KPoly, PolyRing};
use rinv_ring::{Gf, NoMemory};
use std::alloc::Global;

/// The quotient over one, where the denominator divides the numerator, which is not zero; otherwise one over the quotient, where the
/// numerator divides the denominator; otherwise the fraction itself.
pub fn divided(ring: &PolyRing<Gf>, alloc: Global, f: Frac) -> Result<Frac, NoMemory>
    requires fraction { IsStored ring.now.coeffs ring.now.vars f }
    requires nonzero { IsFalse (is_zero (residue_ops ring.now.coeffs) f.0) }
    ensures element { IfOk result (IsStored ring.now.coeffs ring.now.vars) }
    ensures divided { IfOk result (IsDividedTo (residue_ops ring.now.coeffs) f) }
{
    if let Some(whole) = quotient(ring, alloc, &f.num, &f.den)? {
        let divided = over_one(ring, alloc, whole)?;
        return Ok(divided);
    }
    match quotient(ring, alloc, &f.den, &f.num)? {
        Some(whole) => {
            let divided = one_over(ring, alloc, whole)?;
            Ok(divided)
        }
        None => Ok(f),
    }
}

// The quotient of `f` by `d`; None exactly where `d` does not divide it.
fn quotient(
    ring: &PolyRing<Gf>,
    alloc: Global,
    f: &KPoly,
    d: &KPoly,
) -> Result<Option<KPoly>, NoMemory>
    requires dividend { IsPart ring.now.coeffs ring.now.vars f.now }
    requires divisor { IsPart ring.now.coeffs ring.now.vars d.now }
    requires nonzero { IsFalse (is_zero (residue_ops ring.now.coeffs) d.now) }
    ensures element { IfOk result (λ o. IfSome o (IsPart ring.now.coeffs ring.now.vars)) }
    ensures value { IfOk result (λ o. IfSome o (λ q. IsSame (poly_ops (residue_ops ring.now.coeffs)) f.now (product (residue_ops ring.now.coeffs) q d.now))) }
    ensures none { IfOk result (λ o. IfNone o (¬ (HasQuotient (residue_ops ring.now.coeffs) f.now d.now))) }
{
    if !may_divide(ring, d, f) {
        return Ok(None); // nothing was copied
    }
    let quotient = ring.quotient(alloc, f, d)?;
    Ok(quotient)
}

// Whether the first monomial of `d` divides that of `f`, as that of a factor does.
fn may_divide(ring: &PolyRing<Gf>, d: &KPoly, f: &KPoly) -> bool
    requires divisor { IsPart ring.now.coeffs ring.now.vars d.now }
    requires dividend { IsPart ring.now.coeffs ring.now.vars f.now }
    ensures { result ≡ false → ¬ (HasQuotient (residue_ops ring.now.coeffs) f.now d.now) }
{
    match (d.terms().split_first(), f.terms().split_first()) {
        (Some(((lead, _), _)), Some(((mono, _), _))) => lead.divides(mono),
        _ => true,
    }
}
