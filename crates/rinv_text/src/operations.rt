//! Operations on polynomials that fit, which want of memory alone can stop.

ghost use Rattle.std.specs.Prelude.{◌≡◌, ◌<◌, ◌≤◌, ◌*◌, ◌%◌, ℕ, All, IsTrue, IfOk, IfSome, nat_lt, true};
ghost use Rattle.rinv_algebra.specs.Ring.{IsSame};
ghost use Rattle.rinv_algebra.specs.Residue.{is_listed, residue_ops};
ghost use Rattle.rinv_algebra.specs.Monomial.{max_degree};
ghost use Rattle.rinv_algebra.specs.Polynomial.{Polynomial, poly_ops, product, constant};
ghost use Rattle.rinv_algebra.specs.Fits.{product_fits};
ghost use Rattle.rinv_ring.specs.Fault.{DegreesMeet};
ghost use Rattle.rinv_poly.specs.Sums.{sum_of};
ghost use Rattle.rinv_text.specs.Values.{IsNormalOver, IsLow, IsStored};
ghost use Rattle.rinv_text.specs.Reading.{to_the};

use rinv_poly::{KPoly, PolyRing};
use rinv_ring::{Gf, Ring, RingFault};
use std::alloc::{AllocError as NoMemory, Global};

/// The modulus of the field of the coefficients.
pub fn modulus(ring: &PolyRing<Gf>) -> u32
    ensures value { result ≡ ring.now.coeffs }
    ensures listed { IsTrue (is_listed ring.now.coeffs) }
    ensures least { 2 ≤ ring.now.coeffs }
    ensures greatest { ring.now.coeffs ≤ 32003 }
{
    ring.coeffs().modulus()
}

/// The product of two numbers below the modulus.
pub fn times(ring: &PolyRing<Gf>, a: u32, b: u32) -> u32
    requires left { a < ring.now.coeffs }
    requires right { b < ring.now.coeffs }
    ensures value { result ≡ a * b % ring.now.coeffs }
    ensures element { result < ring.now.coeffs }
{
    ring.coeffs().mul(a, b)
}

/// What a fault without degrees is.
pub fn want_of_memory(fault: RingFault) -> NoMemory
    requires { DegreesMeet (λ _ _. ⊥) fault }
{
    match fault {
        RingFault::NoMemory => NoMemory,
        RingFault::Degree { .. } => unreachable!(),
    }
}

/// The product of two polynomials that fit.
pub fn multiplied(
    ring: &PolyRing<Gf>,
    alloc: Global,
    f: &KPoly,
    g: &KPoly,
) -> Result<KPoly, NoMemory>
    requires left { IsNormalOver ring.now.coeffs ring.now.vars f.now }
    requires right { IsNormalOver ring.now.coeffs ring.now.vars g.now }
    requires fits { product_fits (residue_ops ring.now.coeffs) f.now g.now ≡ true }
    ensures element { IfOk result (IsNormalOver ring.now.coeffs ring.now.vars) }
    ensures value { IfOk result (λ r. IsSame (poly_ops (residue_ops ring.now.coeffs)) r (product (residue_ops ring.now.coeffs) f.now g.now)) }
{
    match ring.product(alloc, f, g) {
        Ok(product) => Ok(product),
        Err(fault) => Err(want_of_memory(fault)),
    }
}

/// The sum of the summands.
pub fn summed(ring: &PolyRing<Gf>, alloc: Global, summands: Vec<KPoly>) -> Result<KPoly, NoMemory>
    requires { All (IsNormalOver ring.now.coeffs ring.now.vars) summands.items }
    ensures element { IfOk result (IsNormalOver ring.now.coeffs ring.now.vars) }
    ensures value { IfOk result (λ r. IsSame (poly_ops (residue_ops ring.now.coeffs)) r (sum_of summands.items)) }
{
    match ring.sum(alloc, summands) {
        Ok(sum) => Ok(sum),
        Err(fault) => Err(want_of_memory(fault)),
    }
}

/// The number times the polynomial.
pub fn scaled(ring: &PolyRing<Gf>, alloc: Global, c: u32, f: KPoly) -> Result<KPoly, NoMemory>
    requires number { c < ring.now.coeffs }
    requires polynomial { IsNormalOver ring.now.coeffs ring.now.vars f }
    ensures element { IfOk result (IsNormalOver ring.now.coeffs ring.now.vars) }
    ensures value { IfOk result (λ r. IsSame (poly_ops (residue_ops ring.now.coeffs)) r (product (residue_ops ring.now.coeffs) (constant (residue_ops ring.now.coeffs) c) f)) }
{
    match ring.scale(alloc, &c, &f) {
        Ok(multiple) => Ok(multiple),
        Err(fault) => Err(want_of_memory(fault)),
    }
}

/// The number that the polynomial is, if it has no variable.
pub fn constant_of(f: &KPoly, ring: &PolyRing<Gf>) -> Option<u32>
    requires { IsNormalOver ring.now.coeffs ring.now.vars f.now }
    ensures element { IfSome result (λ c. c < ring.now.coeffs) }
    ensures value { IfSome result (λ c. IsSame (poly_ops (residue_ops ring.now.coeffs)) f.now (constant (residue_ops ring.now.coeffs) c)) }
{
    let p = modulus(ring);
    match ring.len(f) {
        0 => Some(0),
        1 => {
            if ring.mono(f, 0).degree() > 0 {
                return None;
            }
            let residue = *ring.coeff(f, 0);
            if residue >= p { None } else { Some(residue) }
        }
        _ => None,
    }
}

/// The polynomial to the power.
pub fn raised(
    ring: &PolyRing<Gf>,
    alloc: Global,
    base: &KPoly,
    exponent: u32,
) -> Result<KPoly, NoMemory>
    requires base { IsNormalOver ring.now.coeffs ring.now.vars base.now }
    requires fits { (d : ℕ) × IsLow d base.now × (exponent * d ≤ max_degree) }
    ensures { (d : ℕ) (f : Polynomial ℕ) → IsStored ring.now.coeffs ring.now.vars d f base.now → IfOk result (IsStored ring.now.coeffs ring.now.vars (exponent * d) (to_the (residue_ops ring.now.coeffs) exponent f)) }
{
    let _p = modulus(ring);
    let mut whole = ring.constant(alloc, 1)?;
    'powers: for k in 0..exponent {
        whole = multiplied(ring, alloc, &whole, base)?;
    }
    Ok(whole)
}
