//! The multiplier of a polynomial in the S-polynomial of two.

ghost use Rattle.std.specs.Prelude.{◌≡◌, ◌≤◌, length, false, IfOk, IfErr, OnOk};
ghost use Rattle.rinv_algebra.specs.Monomial.{quotient, lcm, total_degree, max_degree};
ghost use Rattle.rinv_algebra.specs.Polynomial.{is_zero};
ghost use Rattle.rinv_buch.specs.SPolynomials.{IsLowLcm};
ghost use Rattle.rinv_cofactors.specs.Lists.{IsMultiplier, MultiplierTooHigh};
ghost use Rattle.rinv_poly.specs.Polynomials.{IsOf};

use rinv_buch::leading_term;
use rinv_mono::{Mono, MonoFault, MonoOrder};
use rinv_poly::{Poly, PolyRing};
use rinv_ring::{Field, NoMemory, Ring, RingFault};
use std::alloc::Global;

// The multiplier of the first polynomial in the S-polynomial of two.
pub fn multiplier_of<F: Field, O: MonoOrder>(
    ring: &PolyRing<F>,
    alloc: Global,
    f: &Poly<F>,
    g: &Poly<F>,
    order: &O,
) -> Result<Poly<F>, RingFault>
    requires first { IsOf F.ops F.is_element ring.now f.now }
    requires second { IsOf F.ops F.is_element ring.now g.now }
    requires first_nonzero { is_zero (F.ops ring.now.coeffs) f.now ≡ false }
    requires second_nonzero { is_zero (F.ops ring.now.coeffs) g.now ≡ false }
    requires suits { O.fits order.now ring.now.vars }
    ensures element { IfOk result (IsOf F.ops F.is_element ring.now) }
    ensures value { IfOk result (IsMultiplier F.ops O.cmp ring.now order.now f.now g.now) }
    ensures low { OnOk result (IsLowLcm F.ops O.cmp ring.now order.now f.now g.now) }
    ensures degree { IfErr result (MultiplierTooHigh F.ops F.is_element F.too_high O.cmp ring.now order.now f.now g.now) }
{
    let (f_lead, _) = leading_term(ring, f, order);
    let (g_lead, g_coefficient) = leading_term(ring, g, order);
    let common = match f_lead.lcm(alloc, g_lead) {
        Ok(common) => common,
        Err(MonoFault::NoMemory) => return Err(RingFault::NoMemory),
        Err(MonoFault::Degree { .. }) => {
            let (left, right) = (degree_beyond(f_lead, g_lead), f_lead.degree());
            return Err(RingFault::Degree { left, right });
        }
    };
    let mono = common.quotient(alloc, f_lead)?;
    let _degree = mono.degree();
    let c = ring.coeffs().copy(alloc, g_coefficient)?;
    let mut terms = Vec::with_capacity(alloc, 1)?;
    terms.push((mono, c))?;
    let term = ring.from_distinct(terms)?;
    Ok(term)
}

// The degree of the least common multiple of two monomials, divided by the first.
fn degree_beyond(mono: &Mono, other: &Mono) -> u32
    requires { length mono.now ≡ length other.now }
    ensures degree { result ≡ total_degree (quotient (lcm mono.now other.now) mono.now) }
    ensures low { result ≤ max_degree }
{
    let _limit = other.degree();
    let mut degree = 0;
    'variables: for k in 0..mono.vars() {
        degree += other.exponent(k).saturating_sub(mono.exponent(k));
    }
    degree
}
