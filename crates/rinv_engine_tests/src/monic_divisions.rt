//! Divisions by a monic polynomial, over a field and over a ring of polynomials.

ghost use Rattle.std.specs.Prelude.{◌≡◌, false, true, All, IsTrue, IfOk, IfSome};
ghost use Rattle.rinv_algebra.specs.Ring.{IsSame};
ghost use Rattle.rinv_algebra.specs.Polynomial.{is_zero};
ghost use Rattle.rinv_algebra.specs.Leading.{leading_coefficient};
ghost use Rattle.rinv_algebra.specs.Normal.{IsNormal};

use crate::tables::polynomial;
use rinv_div::{Division, divide_monic};
use rinv_mono::{Grevlex, Mono, MonoOrder};
use rinv_poly::{Poly, PolyRing};
use rinv_ring::{Gf, Ring, RingFault};
use std::alloc::Global;
use std::test::Fail;

// Whether the polynomial has a leading coefficient, and that is one.
fn is_monic<R: Ring, O: MonoOrder>(
    ring: &PolyRing<R>,
    alloc: Global,
    h: &Poly<R>,
    order: &O,
) -> Result<bool, RingFault>
    requires polynomial { IsNormal (R.ops ring.now.coeffs) (R.is_element ring.now.coeffs) ring.now.vars h.now }
    requires suits { O.fits order.now ring.now.vars }
    ensures nonzero { IfOk result (λ monic. monic ≡ true → is_zero (R.ops ring.now.coeffs) h.now ≡ false) }
    ensures monic { IfOk result (λ monic. monic ≡ true → IsSame (R.ops ring.now.coeffs) (leading_coefficient (R.ops ring.now.coeffs) (O.cmp order.now) h.now) (R.ops ring.now.coeffs).one) }
{
    if ring.is_zero(h) {
        return Ok(false);
    }
    let Some(place) = ring.lead(h, order) else {
        return Ok(false);
    };
    let coeffs = ring.coeffs();
    let one = coeffs.one(alloc)?;
    let same = coeffs.same(alloc, ring.coeff(h, place), &one)?;
    Ok(same)
}

// The division by a polynomial; None where that is not monic.
fn divided_by_monic<R: Ring>(
    ring: &PolyRing<R>,
    alloc: Global,
    f: &Poly<R>,
    h: Poly<R>,
) -> Result<Option<Division<R>>, RingFault>
    requires dividend { IsNormal (R.ops ring.now.coeffs) (R.is_element ring.now.coeffs) ring.now.vars f.now }
    requires divisor { IsNormal (R.ops ring.now.coeffs) (R.is_element ring.now.coeffs) ring.now.vars h }
    ensures quotients { IfOk result (λ found. IfSome found (λ d. All (IsNormal (R.ops ring.now.coeffs) (R.is_element ring.now.coeffs) ring.now.vars) d.quotients.items)) }
    ensures rest { IfOk result (λ found. IfSome found (λ d. IsNormal (R.ops ring.now.coeffs) (R.is_element ring.now.coeffs) ring.now.vars d.rest)) }
{
    if !is_monic(ring, alloc, &h, &Grevlex)? {
        return Ok(None);
    }
    let basis = vec![in alloc; h]?;
    let division = divide_monic(ring, alloc, f, &basis, &Grevlex)?;
    Ok(Some(division))
}

// c*x^k + d.
fn binomial<R: Ring>(
    ring: &PolyRing<R>,
    alloc: Global,
    c: R::Elem,
    k: u32,
    d: R::Elem,
) -> Result<Poly<R>, RingFault>
    requires count { ring.now.vars ≡ 1 }
    requires first { IsTrue (R.is_element ring.now.coeffs c) }
    requires last { IsTrue (R.is_element ring.now.coeffs d) }
    ensures { IfOk result (λ f. IsNormal (R.ops ring.now.coeffs) (R.is_element ring.now.coeffs) ring.now.vars f) }
{
    let mut terms = Vec::new(alloc);
    if let Some(mono) = Mono::from_exponents(alloc, &[k])? {
        terms.push((mono, c))?;
    }
    if let Some(mono) = Mono::from_exponents(alloc, &[0])? {
        terms.push((mono, d))?;
    }
    ring.from_terms(alloc, terms)
}

// Whether x^2 by x + a has the quotient x - a and the rest a^2.
fn leaves_the_square<R: Ring>(
    ring: &PolyRing<R>,
    alloc: Global,
    a: &R::Elem,
) -> Result<bool, RingFault>
    requires count { ring.now.vars ≡ 1 }
    requires element { IsTrue (R.is_element ring.now.coeffs a.now) }
{
    let coeffs = ring.coeffs();
    let square = binomial(ring, alloc, coeffs.one(alloc)?, 2, coeffs.zero(alloc)?)?;
    let divisor = binomial(ring, alloc, coeffs.one(alloc)?, 1, coeffs.copy(alloc, a)?)?;
    let Some(division) = divided_by_monic(ring, alloc, &square, divisor)? else {
        return Ok(false);
    };
    let opposite = coeffs.sub(alloc, &coeffs.zero(alloc)?, a)?;
    let quotient = binomial(ring, alloc, coeffs.one(alloc)?, 1, opposite)?;
    let rest = binomial(
        ring,
        alloc,
        coeffs.zero(alloc)?,
        1,
        coeffs.mul(alloc, a, a)?,
    )?;
    match division.quotients.first() {
        Some(found) => {
            Ok(ring.same(alloc, found, &quotient)? && ring.same(alloc, &division.rest, &rest)?)
        }
        None => Ok(false),
    }
}

#[test]
fn divides_by_a_monic_polynomial(rt: HostRuntime) -> Result<(), Fail> {
    let alloc = rt.alloc();
    let numbers = PolyRing::new(Gf::new(7)?, 1);
    assert!(rt; leaves_the_square(&numbers, alloc, &3)?, "x^2 by x + 3");
    let inner = PolyRing::new(Gf::new(7)?, 2);
    let a = polynomial(alloc, &inner, &[(1, 1, 0)])?;
    let outer = PolyRing::new(inner, 1);
    assert!(rt; leaves_the_square(&outer, alloc, &a)?, "x^2 by x + a");
    Ok(())
}
