//! Fractions in the variables x and y over the numbers modulo a prime, from tables.

ghost use Rattle.std.specs.Prelude.{◌≡◌, nat_lt, IfOk, IfSome};
ghost use Rattle.rinv_algebra.specs.Normal.{IsNormal};
ghost use Rattle.rinv_algebra.specs.Residue.{residue_ops};
ghost use Rattle.rinv_frac.specs.Fractions.{IsStored};

use rinv_frac::{Frac, FracRing};
use rinv_mono::Mono;
use rinv_poly::{KPoly, PolyRing};
use rinv_ring::{Gf, RingFault};
use std::alloc::Global;

// The term c*x^a*y^b, as (c, a, b).
pub(crate) type Term = (u32, u32, u32);

// A numerator and a denominator.
pub(crate) type Parts<'a> = (&'a [Term], &'a [Term]);

// The sum of the terms.
fn polynomial(alloc: Global, ring: &PolyRing<Gf>, list: &[Term]) -> Result<KPoly, RingFault>
    requires vars { ring.now.vars ≡ 2 }
    ensures { IfOk result (IsNormal (residue_ops ring.now.coeffs) (λ c. nat_lt c ring.now.coeffs) ring.now.vars) }
{
    let p = ring.coeffs().modulus();
    let mut terms = Vec::new(alloc);
    for (c, a, b) in list {
        if let Some(mono) = Mono::from_exponents(alloc, &[*a, *b])? {
            terms.push((mono, *c % p))?;
        }
    }
    ring.from_terms(alloc, terms)
}

// The fraction with these parts, not cancelled; None where the denominator is zero.
pub(crate) fn fraction(
    alloc: Global,
    field: &FracRing,
    parts: Parts,
) -> Result<Option<Frac>, RingFault>
    requires vars { field.now.base.vars ≡ 2 }
    ensures { IfOk result (λ o. IfSome o (IsStored field.now.base.coeffs field.now.base.vars)) }
{
    let num = polynomial(alloc, field.base(), parts.0)?;
    let den = polynomial(alloc, field.base(), parts.1)?;
    let fraction = field.fraction(num, den)?;
    Ok(fraction)
}

// Whether these are the terms, in this order.
fn is_list(ring: &PolyRing<Gf>, f: &KPoly, list: &[Term]) -> bool {
    if ring.len(f) as usize != list.len() {
        return false;
    }
    for k in 0..ring.len(f) {
        let (c, a, b) = list[k as usize];
        if !has_exponents(ring.mono(f, k), a, b) || *ring.coeff(f, k) != c {
            return false;
        }
    }
    true
}

// Whether these are its exponents.
fn has_exponents(mono: &Mono, a: u32, b: u32) -> bool {
    mono.vars() == 2 && mono.exponent_or_zero(0) == a && mono.exponent_or_zero(1) == b
}

// Whether these are its parts.
pub(crate) fn has_parts(field: &FracRing, f: &Frac, parts: Parts) -> bool {
    is_list(field.base(), field.num(f), parts.0) && is_list(field.base(), field.den(f), parts.1)
}
