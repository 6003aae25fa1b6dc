//! Sums, differences and products of fractions before they are cancelled.

ghost use Rattle.std.specs.Prelude.{◌≡◌, ◌≤◌, ◌+◌, ℕ, max, false, IsFalse, IfOk, IfErr};
ghost use Rattle.rinv_algebra.specs.Ring.{IsSame};
ghost use Rattle.rinv_algebra.specs.Residue.{residue_ops};
ghost use Rattle.rinv_algebra.specs.Polynomial.{poly_ops, is_zero, degree};
ghost use Rattle.rinv_algebra.specs.Fraction.{Fraction, fraction_product};
ghost use Rattle.rinv_ring.specs.Fault.{DegreesMeet};
ghost use Rattle.rinv_poly.specs.Faults.{MonomialsMeet};
ghost use Rattle.rinv_frac.specs.Fractions.{IsPart, IsStored, height};
ghost use Rattle.rinv_frac.specs.Arithmetic.{joined, uncancelled};
ghost use Rattle.rinv_frac.specs.Faults.{CrossedMeets, SumMeets, ProductMeets};
ghost use Rattle.rinv_frac.specs.Crossing.{IsBoundedProduct, IsUncancelled};

use crate::fraction::Frac;
use crate::parts::{are_same, minus, plus, times};
use rinv_poly::{KPoly, PolyRing};
use rinv_ring::{Gf, NoMemory, Ring, RingFault};
use std::alloc::Global;

/// How numerators over one denominator are joined.
#[derive(Clone, Copy, Debug, PartialEq, Eq)]
pub enum Joining {
    Sum,
    Difference,
}

// The sum or the difference.
fn joined(
    ring: &PolyRing<Gf>,
    alloc: Global,
    how: Joining,
    a: &KPoly,
    b: &KPoly,
) -> Result<KPoly, NoMemory>
    requires left { IsPart ring.now.coeffs ring.now.vars a.now }
    requires right { IsPart ring.now.coeffs ring.now.vars b.now }
    ensures element { IfOk result (IsPart ring.now.coeffs ring.now.vars) }
    ensures value { IfOk result (λ r. IsSame (poly_ops (residue_ops ring.now.coeffs)) r (joined (residue_ops ring.now.coeffs) how a.now b.now)) }
    ensures low { IfOk result (λ r. degree (residue_ops ring.now.coeffs) r ≤ max (degree (residue_ops ring.now.coeffs) a.now) (degree (residue_ops ring.now.coeffs) b.now)) }
{
    match how {
        Joining::Sum => plus(ring, alloc, a, b),
        Joining::Difference => minus(ring, alloc, a, b),
    }
}

// The product of a part of one fraction and a part of another.
fn part_product(
    ring: &PolyRing<Gf>,
    alloc: Global,
    f: &KPoly,
    g: &KPoly,
) -> Result<KPoly, RingFault>
    requires left { IsPart ring.now.coeffs ring.now.vars f.now }
    requires right { IsPart ring.now.coeffs ring.now.vars g.now }
    ensures value { (a b : Fraction ℕ) → degree (residue_ops ring.now.coeffs) f.now ≤ height (residue_ops ring.now.coeffs) a → degree (residue_ops ring.now.coeffs) g.now ≤ height (residue_ops ring.now.coeffs) b → IfOk result (IsBoundedProduct ring.now.coeffs ring.now.vars a b f.now g.now) }
    ensures degree { IfErr result (DegreesMeet (MonomialsMeet (residue_ops ring.now.coeffs) f.now g.now)) }
{
    let product = times(ring, alloc, f, g)?;
    Ok(product)
}

/// The two crossed products, and that of the denominators.
#[derive(Drop)]
pub struct Crossed {
    pub left: KPoly,
    pub right: KPoly,
    pub den: KPoly,
}

// The products of the one numerator and the other denominator, both ways, and of the denominators.
pub fn cross(ring: &PolyRing<Gf>, alloc: Global, a: &Frac, b: &Frac) -> Result<Crossed, RingFault>
    requires left { IsStored ring.now.coeffs ring.now.vars a.now }
    requires right { IsStored ring.now.coeffs ring.now.vars b.now }
    ensures left { IfOk result (λ c. IsBoundedProduct ring.now.coeffs ring.now.vars a.now b.now a.now.0 b.now.1 c.left) }
    ensures right { IfOk result (λ c. IsBoundedProduct ring.now.coeffs ring.now.vars a.now b.now b.now.0 a.now.1 c.right) }
    ensures den { IfOk result (λ c. IsBoundedProduct ring.now.coeffs ring.now.vars a.now b.now a.now.1 b.now.1 c.den) }
    ensures degree { IfErr result (DegreesMeet (CrossedMeets (residue_ops ring.now.coeffs) a.now b.now)) }
{
    let left = part_product(ring, alloc, &a.num, &b.den)?;
    let right = part_product(ring, alloc, &b.num, &a.den)?;
    let den = part_product(ring, alloc, &a.den, &b.den)?;
    Ok(Crossed { left, right, den })
}

// The fraction of two parts over one denominator.
fn over_one_denominator(
    ring: &PolyRing<Gf>,
    alloc: Global,
    num: KPoly,
    den: &KPoly,
) -> Result<Frac, NoMemory>
    requires { IsPart ring.now.coeffs ring.now.vars den.now }
    ensures { IfOk result (λ r. r ≡ (num, den.now)) }
{
    let den = ring.copy(alloc, den)?;
    Ok(Frac { num, den })
}

/// The sum or the difference before it is cancelled.
pub fn uncancelled_sum(
    ring: &PolyRing<Gf>,
    alloc: Global,
    how: Joining,
    a: &Frac,
    b: &Frac,
) -> Result<Frac, RingFault>
    requires left { IsStored ring.now.coeffs ring.now.vars a.now }
    requires right { IsStored ring.now.coeffs ring.now.vars b.now }
    ensures sum { IfOk result (IsUncancelled ring.now.coeffs ring.now.vars a.now b.now (uncancelled (residue_ops ring.now.coeffs) how a.now b.now)) }
    ensures degree { IfErr result (DegreesMeet (SumMeets (residue_ops ring.now.coeffs) a.now b.now)) }
{
    if are_same(ring, alloc, &a.den, &b.den)? {
        let num = joined(ring, alloc, how, &a.num, &b.num)?;
        let sum = over_one_denominator(ring, alloc, num, &a.den)?;
        return Ok(sum);
    }
    let products = cross(ring, alloc, a, b)?;
    let num = joined(ring, alloc, how, &products.left, &products.right)?;
    Ok(Frac {
        num,
        den: products.den,
    })
}

/// The product before it is cancelled.
pub fn uncancelled_product(
    ring: &PolyRing<Gf>,
    alloc: Global,
    a: &Frac,
    b: &Frac,
) -> Result<Frac, RingFault>
    requires left { IsStored ring.now.coeffs ring.now.vars a.now }
    requires right { IsStored ring.now.coeffs ring.now.vars b.now }
    ensures product { IfOk result (IsUncancelled ring.now.coeffs ring.now.vars a.now b.now (fraction_product (residue_ops ring.now.coeffs) a.now b.now)) }
    ensures degree { IfErr result (DegreesMeet (ProductMeets (residue_ops ring.now.coeffs) a.now b.now)) }
{
    let num = part_product(ring, alloc, &a.num, &b.num)?;
    let den = part_product(ring, alloc, &a.den, &b.den)?;
    Ok(Frac { num, den })
}

/// The fraction turned over, before it is cancelled.
pub fn turned_over(ring: &PolyRing<Gf>, alloc: Global, a: &Frac) -> Result<Frac, NoMemory>
    requires fraction { IsStored ring.now.coeffs ring.now.vars a.now }
    requires nonzero { IsFalse (is_zero (residue_ops ring.now.coeffs) a.now.0) }
    ensures element { IfOk result (IsStored ring.now.coeffs ring.now.vars) }
    ensures parts { IfOk result (λ r. r ≡ (a.now.1, a.now.0)) }
{
    let num = ring.copy(alloc, &a.den)?;
    let den = ring.copy(alloc, &a.num)?;
    Ok(Frac { num, den })
}
