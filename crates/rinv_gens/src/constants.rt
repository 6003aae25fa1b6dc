//! Whether the value of a fraction is a number of the field.

ghost use Rattle.std.specs.Prelude.{◌≡◌, ◌<◌, false, length, nat_lt, IsTrue, IfOk, IfSome, IfNone};
ghost use Rattle.rinv_algebra.specs.Ring.{IsSame};
ghost use Rattle.rinv_algebra.specs.Residue.{residue_ops};
ghost use Rattle.rinv_algebra.specs.Polynomial.{coefficient, poly_ops, scale};
ghost use Rattle.rinv_frac.specs.Fractions.{IsPart, IsStored};
ghost use Rattle.rinv_coefficients.specs.Coefficients.{is_constant};
ghost use Rattle.rinv_gens.specs.Numbering.{IsNumber};

use crate::comparing::are_same;
use rinv_buch::leading_term;
use rinv_frac::{Frac, FracRing};
use rinv_mono::{Grevlex, Mono};
use rinv_poly::{KPoly, PolyRing};
use rinv_ring::{Field, Gf, NoMemory, Ring, RingFault};
use std::alloc::Global;
use std::cmp::Ordering;

/// The number that is the fraction's value, if one is: it can only be the quotient of the coefficients at the denominator's leading
/// monomial.
pub(crate) fn constant_of(
    field: &FracRing,
    alloc: Global,
    c: &Frac,
) -> Result<Option<u32>, NoMemory>
    requires { IsStored field.now.base.coeffs field.now.base.vars c.now }
    ensures element { IfOk result (λ o. IfSome o (λ v. v < field.now.base.coeffs)) }
    ensures value { IfOk result (λ o. IfSome o (IsNumber field.now.base.coeffs c.now)) }
    ensures none { IfOk result (λ o. IfNone o (is_constant field.now.base.coeffs c.now ≡ false)) }
{
    let ring = field.base();
    let (num, den) = (field.num(c), field.den(c));
    let (lead, d) = leading_term(ring, den, &Grevlex);
    let n = coefficient_at(ring, num, lead);
    // Products of numbers modulo a prime are refused for memory alone.
    let Ok(value) = quotient(ring.coeffs(), alloc, &n, d) else {
        return Err(NoMemory);
    };
    let multiple = multiple(ring, alloc, value, den)?;
    let is_value = are_same(ring, alloc, &multiple, num)?;
    if is_value { Ok(Some(value)) } else { Ok(None) }
}

// The coefficient of the polynomial at the monomial.
fn coefficient_at(ring: &PolyRing<Gf>, f: &KPoly, mono: &Mono) -> u32
    requires polynomial { IsPart ring.now.coeffs ring.now.vars f.now }
    requires vars { length mono.now ≡ ring.now.vars }
    ensures element { result < ring.now.coeffs }
    ensures value { IsSame (residue_ops ring.now.coeffs) result (coefficient (residue_ops ring.now.coeffs) f.now mono.now) }
{
    let _p = ring.coeffs().modulus();
    'terms: for k in 0..ring.len(f) {
        if ring.mono(f, k).lex(mono) == Ordering::Equal {
            return *ring.coeff(f, k);
        }
    }
    0
}

// The element by which the second is multiplied to give the first.
fn quotient<F: Field>(
    field: &F,
    alloc: Global,
    n: &F::Elem,
    d: &F::Elem,
) -> Result<F::Elem, RingFault>
    requires dividend { IsTrue (F.is_element field.now n.now) }
    requires divisor { IsTrue (F.is_element field.now d.now) }
    requires nonzero { (F.ops field.now).same d.now (F.ops field.now).zero ≡ false }
    ensures element { IfOk result (λ q. IsTrue (F.is_element field.now q)) }
    ensures value { IfOk result (λ q. IsSame (F.ops field.now) ((F.ops field.now).mul q d.now) n.now) }
{
    let Some(inverse) = field.inverse(alloc, d)? else {
        unreachable!()
    };
    let quotient = field.mul(alloc, n, &inverse)?;
    Ok(quotient)
}

// The number times the polynomial.
fn multiple(ring: &PolyRing<Gf>, alloc: Global, c: u32, f: &KPoly) -> Result<KPoly, NoMemory>
    requires factor { c < ring.now.coeffs }
    requires polynomial { IsPart ring.now.coeffs ring.now.vars f.now }
    ensures element { IfOk result (IsPart ring.now.coeffs ring.now.vars) }
    ensures value { IfOk result (λ r. IsSame (poly_ops (residue_ops ring.now.coeffs)) r (scale (residue_ops ring.now.coeffs) c f.now)) }
{
    let Ok(multiple) = ring.scale(alloc, &c, f) else {
        return Err(NoMemory);
    };
    Ok(multiple)
}
