//! Polynomials in at most three variables over the numbers modulo a prime, from tables.

ghost use Rattle.std.specs.Prelude.{◌≡◌, ◌≤◌, length, nat_lt, All, IfOk, IfSome};
ghost use Rattle.rinv_algebra.specs.Normal.{IsNormal};
ghost use Rattle.rinv_algebra.specs.Residue.{residue_ops};

use rinv_mono::Mono;
use rinv_poly::{KPoly, PolyRing};
use rinv_ring::{Gf, NoMemory, RingFault};
use std::alloc::Global;

// A coefficient, and the exponents of three variables, of which a ring takes the first ones.
pub(crate) type Term = (u32, [u32; 3]);

// The monomial with the first of these exponents.
fn monomial(alloc: Global, vars: u32, exponents: &[u32; 3]) -> Result<Option<Mono>, NoMemory>
    requires { vars ≤ 3 }
    ensures { IfOk result (λ found. IfSome found (λ m. length m ≡ vars)) }
{
    Mono::from_exponents(alloc, &exponents[..vars as usize])
}

// The sum of the terms.
pub(crate) fn polynomial(
    alloc: Global,
    ring: &PolyRing<Gf>,
    list: &[Term],
) -> Result<KPoly, RingFault>
    requires vars { ring.now.vars ≤ 3 }
    ensures { IfOk result (IsNormal (residue_ops ring.now.coeffs) (λ c. nat_lt c ring.now.coeffs) ring.now.vars) }
{
    let p = ring.coeffs().modulus();
    let mut terms = Vec::new(alloc);
    for (c, exponents) in list {
        if let Some(mono) = monomial(alloc, ring.vars(), exponents)? {
            terms.push((mono, *c % p))?;
        }
    }
    ring.from_terms(alloc, terms)
}

// Both sums, one after the other.
pub(crate) fn pair(
    alloc: Global,
    ring: &PolyRing<Gf>,
    first: &[Term],
    second: &[Term],
) -> Result<Vec<KPoly>, RingFault>
    requires vars { ring.now.vars ≤ 3 }
    ensures elements { IfOk result (λ fs. All (IsNormal (residue_ops ring.now.coeffs) (λ c. nat_lt c ring.now.coeffs) ring.now.vars) fs.items) }
    ensures many { IfOk result (λ fs. length fs.items ≡ 2) }
{
    let mut list = Vec::new(alloc);
    list.push(polynomial(alloc, ring, first)?)?;
    list.push(polynomial(alloc, ring, second)?)?;
    Ok(list)
}

// Whether these are the terms, in this order.
pub(crate) fn is_list(ring: &PolyRing<Gf>, f: &KPoly, list: &[Term]) -> bool {
    if ring.len(f) as usize != list.len() {
        return false;
    }
    for k in 0..ring.len(f) {
        let (c, exponents) = list[k as usize];
        if !has_exponents(ring.mono(f, k), exponents) || *ring.coeff(f, k) != c {
            return false;
        }
    }
    true
}

// Whether these are its exponents, which are 0 past its variables.
fn has_exponents(mono: &Mono, [x, y, z]: [u32; 3]) -> bool {
    mono.exponent_or_zero(0) == x && mono.exponent_or_zero(1) == y && mono.exponent_or_zero(2) == z
}
