//! Calls that know of a ring, of a field or of an order alone: the laws, exact division, and greatest terms.

ghost use Rattle.std.specs.Prelude.{◌≡◌, IsTrue, nat_lt};
ghost use Rattle.rinv_algebra.specs.Normal.{IsNormal};
ghost use Rattle.rinv_algebra.specs.Residue.{residue_ops};

use crate::tables::{Term, is_list, polynomial};
use rinv_mono::{Blocks, Grevlex, Mono, MonoOrder};
use rinv_poly::{Poly, PolyRing};
use rinv_ring::{Field, Gf, Ring, RingFault};
use std::alloc::Global;
use std::test::Fail;

// x^2 - y^2.
const SQUARES: &[Term] = &[(1, [2, 0, 0]), (6, [0, 2, 0])];

// A divisor of the squares, and their quotient by it, where it divides them.
const DIVISORS: &[(&[Term], Option<&[Term]>)] = &[
    (
        &[(1, [1, 0, 0]), (6, [0, 1, 0])],
        Some(&[(1, [1, 0, 0]), (1, [0, 1, 0])]),
    ),
    (
        &[(3, [1, 0, 0]), (3, [0, 1, 0])],
        Some(&[(5, [1, 0, 0]), (2, [0, 1, 0])]),
    ),
    (&[(1, [1, 0, 0]), (1, [0, 0, 0])], None),
    (&[(1, [1, 0, 0]), (1, [0, 9999, 0])], None),
];

// Whether a + b - b is a, and a + b is not.
fn sums_hold<R: Ring>(ring: &R, alloc: Global, a: &R::Elem, b: &R::Elem) -> Result<bool, RingFault>
    requires left { IsTrue (R.is_element ring.now a.now) }
    requires right { IsTrue (R.is_element ring.now b.now) }
{
    let copy = ring.copy(alloc, a)?;
    let sum = ring.add(alloc, &copy, b)?;
    let back = ring.sub(alloc, &sum, b)?;
    let same = ring.same(alloc, &back, a)?;
    let other = ring.same(alloc, &sum, a)?;
    Ok(same && !other)
}

// Whether a times 1 is a, and a times 0 is zero, which 1 is not.
fn products_hold<R: Ring>(ring: &R, alloc: Global, a: &R::Elem) -> Result<bool, RingFault>
    requires { IsTrue (R.is_element ring.now a.now) }
{
    let zero = ring.zero(alloc)?;
    let one = ring.one(alloc)?;
    let product = ring.mul(alloc, a, &one)?;
    let nothing = ring.mul(alloc, &product, &zero)?;
    let same = ring.same(alloc, &product, a)?;
    Ok(same && ring.is_zero(&nothing) && !ring.is_zero(&one))
}

// Whether the laws hold at x + 3*y and 6*x + 1.
fn hold_over_a_field(alloc: Global, ring: &PolyRing<Gf>) -> Result<bool, RingFault>
    requires { ring.now.vars ≡ 2 }
{
    let f = polynomial(alloc, ring, &[(1, [1, 0, 0]), (3, [0, 1, 0])])?;
    let g = polynomial(alloc, ring, &[(6, [1, 0, 0]), (1, [0, 0, 0])])?;
    Ok(sums_hold(ring, alloc, &f, &g)? && products_hold(ring, alloc, &f)?)
}

// Whether they hold at the square of (x + 3*y)*z and at (x + 3*y)*z, polynomials in z over those in x and y.
fn hold_over_polynomials(alloc: Global, inner: PolyRing<Gf>) -> Result<bool, RingFault>
    requires { inner.vars ≡ 2 }
{
    let f = polynomial(alloc, &inner, &[(1, [1, 0, 0]), (3, [0, 1, 0])])?;
    let outer = PolyRing::new(inner, 1);
    let mut terms = Vec::new(alloc);
    if let Some(mono) = Mono::from_exponents(alloc, &[1])? {
        terms.push((mono, f))?;
    }
    let p = outer.from_terms(alloc, terms)?;
    let square = outer.mul(alloc, &p, &p)?;
    Ok(sums_hold(&outer, alloc, &square, &p)? && products_hold(&outer, alloc, &square)?)
}

#[test]
fn laws_hold_over_a_field(rt: HostRuntime) -> Result<(), Fail> {
    let ring = PolyRing::new(Gf::new(7)?, 2);
    assert!(rt; hold_over_a_field(rt.alloc(), &ring).unwrap_or(false));
    Ok(())
}

#[test]
fn laws_hold_over_polynomials(rt: HostRuntime) -> Result<(), Fail> {
    let ring = PolyRing::new(Gf::new(7)?, 2);
    assert!(rt; hold_over_polynomials(rt.alloc(), ring).unwrap_or(false));
    Ok(())
}

// The quotient by the divisor, by a call that knows of a field alone; None for the divisor zero.
fn exact<F: Field>(
    ring: &PolyRing<F>,
    alloc: Global,
    f: &Poly<F>,
    d: &Poly<F>,
) -> Result<Option<Poly<F>>, RingFault>
    requires left { IsNormal (F.ops ring.now.coeffs) (F.is_element ring.now.coeffs) ring.now.vars f.now }
    requires right { IsNormal (F.ops ring.now.coeffs) (F.is_element ring.now.coeffs) ring.now.vars d.now }
{
    if ring.is_zero(d) {
        return Ok(None);
    }
    ring.divide_exact(alloc, f, d)
}

// Whether the squares have this quotient by the divisor, or none.
fn divides_so(
    alloc: Global,
    ring: &PolyRing<Gf>,
    divisor: &[Term],
    expected: Option<&[Term]>,
) -> Result<bool, RingFault>
    requires { ring.now.vars ≡ 2 }
{
    let f = polynomial(alloc, ring, SQUARES)?;
    let d = polynomial(alloc, ring, divisor)?;
    match (exact(ring, alloc, &f, &d)?, expected) {
        (Some(quotient), Some(terms)) => Ok(is_list(ring, &quotient, terms)),
        (None, None) => Ok(true),
        _ => Ok(false),
    }
}

#[test]
fn divides_exactly(rt: HostRuntime) -> Result<(), Fail> {
    let ring = PolyRing::new(Gf::new(7)?, 2);
    for (divisor, expected) in DIVISORS {
        assert!(rt; divides_so(rt.alloc(), &ring, divisor, *expected).unwrap_or(false));
    }
    Ok(())
}

// The place of the greatest term, by a call that knows of a ring and of an order alone.
fn led<R: Ring, O: MonoOrder>(ring: &PolyRing<R>, f: &Poly<R>, order: &O) -> Option<u32>
    requires polynomial { IsNormal (R.ops ring.now.coeffs) (R.is_element ring.now.coeffs) ring.now.vars f.now }
    requires suits { O.fits order.now ring.now.vars }
{
    ring.lead(f, order)
}

// Whether y^2 leads x + y^2 + y in graded order, x in blocks, and no term leads zero.
fn leads(alloc: Global, ring: &PolyRing<Gf>) -> Result<bool, RingFault>
    requires { ring.now.vars ≡ 2 }
{
    let blocks = Blocks::new(vec![in alloc; 1, 2]?);
    let f = polynomial(
        alloc,
        ring,
        &[(1, [1, 0, 0]), (1, [0, 2, 0]), (1, [0, 1, 0])],
    )?;
    let zero = ring.zero(alloc)?;
    Ok(
        led(ring, &f, &Grevlex) == Some(1)
            && led(ring, &f, &blocks) == Some(0)
            && led(ring, &zero, &Grevlex).is_none(),
    )
}

#[test]
fn finds_the_greatest_term(rt: HostRuntime) -> Result<(), Fail> {
    let ring = PolyRing::new(Gf::new(7)?, 2);
    assert!(rt; leads(rt.alloc(), &ring).unwrap_or(false));
    Ok(())
}
