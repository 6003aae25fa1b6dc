//! Polynomials in two variables over the numbers modulo a prime, from tables.

ghost use Rattle.std.specs.Prelude.{◌≡◌, false, length, nat_lt, All, IfOk};
ghost use Rattle.rinv_algebra.specs.Polynomial.{is_zero};
ghost use Rattle.rinv_algebra.specs.Normal.{IsNormal};
ghost use Rattle.rinv_algebra.specs.Residue.{residue_ops};

use rinv_mono::Mono;
use rinv_poly::{KPoly, PolyRing};
use rinv_ring::{Gf, Ring, RingFault};
use std::alloc::Global;

// The term c*x^a*y^b, as (c, a, b).
pub(crate) type Term = (u32, u32, u32);

// The sum of the terms.
pub(crate) fn polynomial(
    alloc: Global,
    ring: &PolyRing<Gf>,
    list: &[Term],
) -> Result<KPoly, RingFault>
    requires vars { ring.now.vars ≡ 2 }
    ensures { IfOk result (IsNormal (residue_ops ring.now.coeffs) (λ c. nat_lt c ring.now.coeffs) ring.now.vars) }
{
    let p = ring.coeffs().modulus();
    let mut terms = Vec::new(alloc);
    for (c, a, b) in list {
        if let Some(mono) = Mono::from_exponents(alloc, &[*a, *b])? {
            terms.push((mono, *c % p))?;
        }
    }
    ring.from_terms(alloc, terms)
}

// Both sums, one after the other.
pub(crate) fn pair(
    alloc: Global,
    ring: &PolyRing<Gf>,
    first: &[Term],
    second: &[Term],
) -> Result<Vec<KPoly>, RingFault>
    requires vars { ring.now.vars ≡ 2 }
    ensures elements { IfOk result (λ fs. All (IsNormal (residue_ops ring.now.coeffs) (λ c. nat_lt c ring.now.coeffs) ring.now.vars) fs.items) }
    ensures many { IfOk result (λ fs. length fs.items ≡ 2) }
{
    let mut list = Vec::new(alloc);
    list.push(polynomial(alloc, ring, first)?)?;
    list.push(polynomial(alloc, ring, second)?)?;
    Ok(list)
}

// Those of the polynomials that are not zero.
pub(crate) fn nonzero(
    alloc: Global,
    ring: &PolyRing<Gf>,
    lists: &[&[Term]],
) -> Result<Vec<KPoly>, RingFault>
    requires vars { ring.now.vars ≡ 2 }
    ensures elements { IfOk result (λ hs. All (IsNormal (residue_ops ring.now.coeffs) (λ c. nat_lt c ring.now.coeffs) ring.now.vars) hs.items) }
    ensures nonzero { IfOk result (λ hs. All (λ h. is_zero (residue_ops ring.now.coeffs) h ≡ false) hs.items) }
{
    let mut found = Vec::new(alloc);
    for list in lists {
        let h = polynomial(alloc, ring, list)?;
        if !ring.is_zero(&h) {
            found.push(h)?;
        }
    }
    Ok(found)
}

// Whether these are the terms, in this order.
pub(crate) fn is_list(ring: &PolyRing<Gf>, f: &KPoly, list: &[Term]) -> bool {
    if ring.len(f) as usize != list.len() {
        return false;
    }
    for k in 0..ring.len(f) {
        let (c, a, b) = list[k as usize];
        if !has_exponents(ring.mono(f, k), a, b) || *ring.coeff(f, k) != c {
            return false;
        }
    }
    true
}

// Whether these are its exponents.
fn has_exponents(mono: &Mono, a: u32, b: u32) -> bool {
    mono.vars() == 2 && mono.exponent_or_zero(0) == a && mono.exponent_or_zero(1) == b
}

// Whether these are the terms of the polynomials, one after the other.
pub(crate) fn are_lists(ring: &PolyRing<Gf>, fs: &[KPoly], lists: &[&[Term]]) -> bool {
    if fs.len() != lists.len() {
        return false;
    }
    for k in 0..fs.len() {
        if !is_list(ring, &fs[k], lists[k]) {
            return false;
        }
    }
    true
}
