//! The S-polynomial of two polynomials: multiples whose leading terms cancel.

ghost use Rattle.std.specs.Prelude.{◌≡◌, length, false, IsTrue, IfOk, IfErr};
ghost use Rattle.rinv_algebra.specs.Polynomial.{is_zero};
ghost use Rattle.rinv_buch.specs.SPolynomials.{IsLead, IsLeadCoefficient, IsLowLcm, IsMultiple, IsNonzero, IsSPolynomial, ProductTooHigh, SPolynomialTooHigh};
ghost use Rattle.rinv_poly.specs.Polynomials.{IsOf};

use rinv_mono::{Mono, MonoFault, MonoOrder};
use rinv_poly::{Poly, PolyRing};
use rinv_ring::{Field, NoMemory, Ring, RingFault};
use std::alloc::Global;

/// The S-polynomial of two polynomials that are not zero, where the least common multiple of their leading monomials is within the limit
/// on degrees. Degree comes only where these degrees are met in a multiple of one of them, or in the difference.
pub fn s_polynomial_of<F: Field, O: MonoOrder>(
    ring: &PolyRing<F>,
    alloc: Global,
    f: &Poly<F>,
    g: &Poly<F>,
    order: &O,
) -> Result<Poly<F>, RingFault>
    requires first { IsOf F.ops F.is_element ring.now f.now }
    requires second { IsOf F.ops F.is_element ring.now g.now }
    requires first_nonzero { is_zero (F.ops ring.now.coeffs) f.now ≡ false }
    requires second_nonzero { is_zero (F.ops ring.now.coeffs) g.now ≡ false }
    requires suits { O.fits order.now ring.now.vars }
    requires low { IsLowLcm F.ops O.cmp ring.now order.now f.now g.now }
    ensures element { IfOk result (IsOf F.ops F.is_element ring.now) }
    ensures value { IfOk result (IsSPolynomial F.ops O.cmp ring.now order.now f.now g.now) }
    ensures degree { IfErr result (SPolynomialTooHigh F.ops F.is_element F.too_high O.cmp ring.now order.now f.now g.now) }
{
    let (f_lead, f_coefficient) = leading_term(ring, f, order);
    let (g_lead, g_coefficient) = leading_term(ring, g, order);
    let common = match f_lead.lcm(alloc, g_lead) {
        Ok(common) => common,
        Err(MonoFault::NoMemory) => return Err(RingFault::NoMemory),
        Err(MonoFault::Degree { .. }) => unreachable!(),
    };
    let f_multiplier = common.quotient(alloc, f_lead)?;
    let left = multiple(ring, alloc, f_multiplier, g_coefficient, f)?;
    let g_multiplier = common.quotient(alloc, g_lead)?;
    let right = multiple(ring, alloc, g_multiplier, f_coefficient, g)?;
    let difference = ring.sub(alloc, &left, &right)?;
    Ok(difference)
}

// The leading term of a polynomial that is not zero.
pub fn leading_term<'a, F: Field, O: MonoOrder>(
    ring: &PolyRing<F>,
    f: &'a Poly<F>,
    order: &O,
) -> (&'a Mono, &'a F::Elem)
    requires polynomial { IsOf F.ops F.is_element ring.now f.now }
    requires nonzero { is_zero (F.ops ring.now.coeffs) f.now ≡ false }
    requires suits { O.fits order.now ring.now.vars }
    ensures monomial { IsLead F.ops O.cmp ring.now order.now f.now result.0.now }
    ensures vars { length result.0.now ≡ ring.now.vars }
    ensures element { IsTrue (F.is_element ring.now.coeffs result.1.now) }
    ensures nonzero { IsNonzero F.ops ring.now result.1.now }
    ensures coefficient { IsLeadCoefficient F.ops O.cmp ring.now order.now f.now result.1.now }
{
    let Some(place) = ring.lead(f, order) else {
        unreachable!()
    };
    (ring.mono(f, place), ring.coeff(f, place))
}

// The multiple of the polynomial by a term.
fn multiple<F: Field>(
    ring: &PolyRing<F>,
    alloc: Global,
    mono: Mono,
    c: &F::Elem,
    f: &Poly<F>,
) -> Result<Poly<F>, RingFault>
    requires vars { length mono ≡ ring.now.vars }
    requires element { IsTrue (F.is_element ring.now.coeffs c.now) }
    requires nonzero { IsNonzero F.ops ring.now c.now }
    requires polynomial { IsOf F.ops F.is_element ring.now f.now }
    ensures element { IfOk result (IsOf F.ops F.is_element ring.now) }
    ensures value { IfOk result (IsMultiple F.ops ring.now mono c.now f.now) }
    ensures degree { IfErr result (ProductTooHigh F.ops F.is_element F.too_high ring.now mono c.now f.now) }
{
    let mut terms = Vec::with_capacity(alloc, 1)?;
    let _degree = mono.degree();
    let copy = ring.coeffs().copy(alloc, c)?;
    terms.push((mono, copy))?;
    let term = ring.from_distinct(terms)?;
    let product = ring.mul(alloc, &term, f)?;
    Ok(product)
}
