//! Calls on numerators and denominators. Numbers modulo a prime meet no degree, so only a product of parts may.

ghost use Rattle.std.specs.Prelude.{◌≡◌, ◌≤◌, ◌+◌, ◌++◌, ◌∷◌, [], ℕ, max, false, length, nat_lt, IsTrue, IsFalse, IfOk, IfErr};
ghost use Rattle.rinv_algebra.specs.Ring.{IsSame};
ghost use Rattle.rinv_algebra.specs.Residue.{residue_ops};
ghost use Rattle.rinv_algebra.specs.Polynomial.{poly_ops, constant, product, difference, scale, same, is_zero, degree};
ghost use Rattle.rinv_algebra.specs.Fraction.{over_one};
ghost use Rattle.rinv_ring.specs.Fault.{DegreesMeet};
ghost use Rattle.rinv_poly.specs.Faults.{MonomialsMeet};
ghost use Rattle.rinv_frac.specs.Fractions.{IsPart, IsStored};
ghost use Rattle.rinv_frac.specs.Cancelling.{IsSamePair, HasQuotient};

use crate::fraction::Frac;
use rinv_mono::Mono;
use rinv_poly::{KPoly, PolyRing};
use rinv_ring::{Gf, NoMemory, Ring, RingFault};
use std::alloc::Global;

// What a fault without degrees is.
fn want_of_memory(fault: RingFault) -> NoMemory
    requires { DegreesMeet (λ _ _. ⊥) fault }
{
    match fault {
        RingFault::NoMemory => NoMemory,
        RingFault::Degree { .. } => unreachable!(),
    }
}

/// The product of two polynomials.
pub fn times(ring: &PolyRing<Gf>, alloc: Global, a: &KPoly, b: &KPoly) -> Result<KPoly, RingFault>
    requires left { IsPart ring.now.coeffs ring.now.vars a.now }
    requires right { IsPart ring.now.coeffs ring.now.vars b.now }
    ensures element { IfOk result (IsPart ring.now.coeffs ring.now.vars) }
    ensures value { IfOk result (λ r. IsSame (poly_ops (residue_ops ring.now.coeffs)) r (product (residue_ops ring.now.coeffs) a.now b.now)) }
    ensures low { IfOk result (λ r. degree (residue_ops ring.now.coeffs) r ≤ degree (residue_ops ring.now.coeffs) a.now + degree (residue_ops ring.now.coeffs) b.now) }
    ensures degree { IfErr result (DegreesMeet (MonomialsMeet (residue_ops ring.now.coeffs) a.now b.now)) }
{
    let product = ring.mul(alloc, a, b)?;
    Ok(product)
}

/// The sum of two polynomials.
pub fn plus(ring: &PolyRing<Gf>, alloc: Global, a: &KPoly, b: &KPoly) -> Result<KPoly, NoMemory>
    requires left { IsPart ring.now.coeffs ring.now.vars a.now }
    requires right { IsPart ring.now.coeffs ring.now.vars b.now }
    ensures element { IfOk result (IsPart ring.now.coeffs ring.now.vars) }
    ensures value { IfOk result (λ r. IsSame (poly_ops (residue_ops ring.now.coeffs)) r (a.now ++ b.now)) }
    ensures low { IfOk result (λ r. degree (residue_ops ring.now.coeffs) r ≤ max (degree (residue_ops ring.now.coeffs) a.now) (degree (residue_ops ring.now.coeffs) b.now)) }
{
    match ring.add(alloc, a, b) {
        Ok(sum) => Ok(sum),
        Err(fault) => Err(want_of_memory(fault)),
    }
}

/// The difference of two polynomials.
pub fn minus(ring: &PolyRing<Gf>, alloc: Global, a: &KPoly, b: &KPoly) -> Result<KPoly, NoMemory>
    requires left { IsPart ring.now.coeffs ring.now.vars a.now }
    requires right { IsPart ring.now.coeffs ring.now.vars b.now }
    ensures element { IfOk result (IsPart ring.now.coeffs ring.now.vars) }
    ensures value { IfOk result (λ r. IsSame (poly_ops (residue_ops ring.now.coeffs)) r (difference (residue_ops ring.now.coeffs) a.now b.now)) }
    ensures low { IfOk result (λ r. degree (residue_ops ring.now.coeffs) r ≤ max (degree (residue_ops ring.now.coeffs) a.now) (degree (residue_ops ring.now.coeffs) b.now)) }
{
    match ring.sub(alloc, a, b) {
        Ok(difference) => Ok(difference),
        Err(fault) => Err(want_of_memory(fault)),
    }
}

/// Whether two polynomials are the same.
pub fn are_same(ring: &PolyRing<Gf>, alloc: Global, a: &KPoly, b: &KPoly) -> Result<bool, NoMemory>
    requires left { IsPart ring.now.coeffs ring.now.vars a.now }
    requires right { IsPart ring.now.coeffs ring.now.vars b.now }
    ensures { IfOk result (λ r. r ≡ same (residue_ops ring.now.coeffs) a.now b.now) }
{
    match ring.same(alloc, a, b) {
        Ok(same) => Ok(same),
        Err(fault) => Err(want_of_memory(fault)),
    }
}

/// The number times the polynomial.
pub fn multiple(ring: &PolyRing<Gf>, alloc: Global, c: u32, f: &KPoly) -> Result<KPoly, NoMemory>
    requires factor { IsTrue (nat_lt c ring.now.coeffs) }
    requires polynomial { IsPart ring.now.coeffs ring.now.vars f.now }
    ensures element { IfOk result (IsPart ring.now.coeffs ring.now.vars) }
    ensures value { IfOk result (λ r. IsSame (poly_ops (residue_ops ring.now.coeffs)) r (scale (residue_ops ring.now.coeffs) c f.now)) }
{
    match ring.scale(alloc, &c, f) {
        Ok(multiple) => Ok(multiple),
        Err(fault) => Err(want_of_memory(fault)),
    }
}

/// The monomial as a polynomial.
pub fn one_term(ring: &PolyRing<Gf>, alloc: Global, mono: Mono) -> Result<KPoly, NoMemory>
    requires { length mono ≡ ring.now.vars }
    ensures element { IfOk result (IsPart ring.now.coeffs ring.now.vars) }
    ensures value { IfOk result (λ r. IsSame (poly_ops (residue_ops ring.now.coeffs)) r ((mono, 1) ∷ [])) }
{
    let _least = ring.coeffs().modulus(); // 1 is a residue
    let mut terms = Vec::new(alloc);
    terms.push((mono, 1))?;
    match ring.from_terms(alloc, terms) {
        Ok(term) => Ok(term),
        Err(fault) => Err(want_of_memory(fault)),
    }
}

/// The quotient by a divisor.
pub fn exact_quotient(
    ring: &PolyRing<Gf>,
    alloc: Global,
    f: &KPoly,
    d: &KPoly,
) -> Result<KPoly, NoMemory>
    requires dividend { IsPart ring.now.coeffs ring.now.vars f.now }
    requires divisor { IsPart ring.now.coeffs ring.now.vars d.now }
    requires nonzero { IsFalse (is_zero (residue_ops ring.now.coeffs) d.now) }
    requires divides { HasQuotient (residue_ops ring.now.coeffs) f.now d.now }
    ensures element { IfOk result (IsPart ring.now.coeffs ring.now.vars) }
    ensures value { IfOk result (λ q. IsSame (poly_ops (residue_ops ring.now.coeffs)) f.now (product (residue_ops ring.now.coeffs) q d.now)) }
{
    match ring.quotient(alloc, f, d)? {
        Some(quotient) => Ok(quotient),
        None => unreachable!(),
    }
}

/// The polynomial over one.
pub fn over_one(ring: &PolyRing<Gf>, alloc: Global, num: KPoly) -> Result<Frac, NoMemory>
    requires { IsPart ring.now.coeffs ring.now.vars num }
    ensures element { IfOk result (IsStored ring.now.coeffs ring.now.vars) }
    ensures value { IfOk result (λ r. IsSamePair (residue_ops ring.now.coeffs) r (over_one (residue_ops ring.now.coeffs) num)) }
{
    let den = ring.one(alloc)?;
    Ok(Frac { num, den })
}

/// One over the polynomial.
pub fn one_over(ring: &PolyRing<Gf>, alloc: Global, den: KPoly) -> Result<Frac, NoMemory>
    requires denominator { IsPart ring.now.coeffs ring.now.vars den }
    requires nonzero { IsFalse (is_zero (residue_ops ring.now.coeffs) den) }
    ensures element { IfOk result (IsStored ring.now.coeffs ring.now.vars) }
    ensures value { IfOk result (λ r. IsSamePair (residue_ops ring.now.coeffs) r (constant (residue_ops ring.now.coeffs) 1, den)) }
{
    let num = ring.one(alloc)?;
    Ok(Frac { num, den })
}
