//! Products row by row: the one times each term of the other, and these rows added up in pairs. Where the rows meet in their monomials, as
//! those of powers do, few terms are left after the first sums.

ghost use Rattle.std.specs.Prelude.{◌≡◌, ℕ, List, All, IsTrue, IfOk, length, ◌∷◌, []};
ghost use Rattle.rinv_poly.specs.Terms.{IsTerm};
ghost use Rattle.rinv_poly.specs.Polynomials.{IsOf, IsProductIn};

use rinv_mono::Mono;
use rinv_poly::{Poly, PolyRing};
use rinv_ring::{Ring, RingFault};
use std::alloc::Global;

/// The product of the polynomial and the sum of the terms.
pub(crate) fn product_by_rows<R: Ring>(
    ring: &PolyRing<R>,
    alloc: Global,
    f: &Poly<R>,
    terms: &[(Mono, R::Elem)],
) -> Result<Poly<R>, RingFault>
    requires polynomial { IsOf R.ops R.is_element ring.now f.now }
    requires terms { All (IsTerm (R.is_element ring.now.coeffs) ring.now.vars) terms.now }
    ensures element { IfOk result (λ r. IsOf R.ops R.is_element ring.now r) }
    ensures value { IfOk result (λ r. IsProductIn R.ops ring.now r f.now terms.now) }
{
    if terms.is_empty() {
        let zero = ring.zero(alloc)?;
        return Ok(zero);
    }
    if terms.len() == 1 {
        let (mono, c) = &terms[0];
        let row = row(ring, alloc, f, mono, c)?;
        return Ok(row);
    }
    let half = terms.len() / 2;
    let lower = product_by_rows(ring, alloc, f, &terms[..half])?;
    let upper = product_by_rows(ring, alloc, f, &terms[half..])?;
    let sum = ring.add(alloc, &lower, &upper)?;
    Ok(sum)
}

// The polynomial times the term.
fn row<R: Ring>(
    ring: &PolyRing<R>,
    alloc: Global,
    f: &Poly<R>,
    mono: &Mono,
    c: &R::Elem,
) -> Result<Poly<R>, RingFault>
    requires polynomial { IsOf R.ops R.is_element ring.now f.now }
    requires vars { length mono.now ≡ ring.now.vars }
    requires element { IsTrue (R.is_element ring.now.coeffs c.now) }
    ensures element { IfOk result (λ r. IsOf R.ops R.is_element ring.now r) }
    ensures value { IfOk result (λ r. IsProductIn R.ops ring.now r f.now ((mono.now, c.now) ∷ [])) }
{
    let copy = ring.coeffs().copy(alloc, c)?;
    let mut terms = Vec::new(alloc);
    terms.push((mono.copy(alloc)?, copy))?;
    let term = ring.from_terms(alloc, terms)?;
    let row = ring.mul(alloc, &term, f)?;
    Ok(row)
}
