//! The quotients of a pair's S-polynomial.

ghost use Rattle.std.specs.Prelude.{◌≡◌, ◌<◌, [], length, get_or, nat_lt, All, IfOk, IfErr, OnOk};
ghost use Rattle.rinv_algebra.specs.Residue.{residue_ops};
ghost use Rattle.rinv_algebra.specs.Normal.{IsNormal};
ghost use Rattle.rinv_ring.specs.Fault.{DegreesMeet};
ghost use Rattle.rinv_parts.specs.Points.{ArePolynomials};
ghost use Rattle.rinv_recording.specs.Recorded.{MultiplesMeet, QuotientsMeet};
ghost use Rattle.rinv_recording.specs.Settings.{MultiplesFit};
ghost use Rattle.rinv_recording.specs.Entries.{AreDivisorsIn, AreQuotientsIn, IsSAt};

use crate::multiples::check_multiple;
use rinv_buch::s_polynomial_of;
use rinv_div::{Division, Divisors, divide_wholly};
use rinv_mono::MonoOrder;
use rinv_poly::{KPoly, PolyRing};
use rinv_ring::{Gf, RingFault};
use std::alloc::Global;

// The S-polynomial of the elements at two places. Degree comes only where one of its multiples meets these degrees.
fn s_polynomial_at<O: MonoOrder>(
    ring: &PolyRing<Gf>,
    alloc: Global,
    polys: &[KPoly],
    divisors: &Divisors<Gf>,
    first: usize,
    second: usize,
    order: &O,
) -> Result<KPoly, RingFault>
    requires polys { ArePolynomials ring.now.coeffs ring.now.vars polys.now }
    requires divisors { AreDivisorsIn ring.now.coeffs ring.now.vars (O.cmp order.now) polys.now divisors.now.list.items }
    requires suits { O.fits order.now ring.now.vars }
    requires ascending { first < second }
    requires inside { second < length polys.now }
    ensures element { IfOk result (IsNormal (residue_ops ring.now.coeffs) (λ c. nat_lt c ring.now.coeffs) ring.now.vars) }
    ensures value { IfOk result (IsSAt ring.now.coeffs (O.cmp order.now) polys.now first second) }
    ensures fits { OnOk result (MultiplesFit ring.now.coeffs (O.cmp order.now) (get_or polys.now first []) (get_or polys.now second [])) }
    ensures degree { IfErr result (DegreesMeet (MultiplesMeet ring.now.coeffs (O.cmp order.now) polys.now first second)) }
{
    let (f, g) = (&polys[first], &polys[second]);
    check_multiple(ring, f, g, order)?;
    check_multiple(ring, g, f, order)?;
    let s = s_polynomial_of(ring, alloc, f, g, order)?;
    Ok(s)
}

/// The quotients of the S-polynomial of the elements at two places. Degree comes only where one of its multiples or its division meets
/// these degrees.
pub(crate) fn quotients_at<O: MonoOrder>(
    ring: &PolyRing<Gf>,
    alloc: Global,
    polys: &[KPoly],
    divisors: &Divisors<Gf>,
    first: usize,
    second: usize,
    order: &O,
) -> Result<Vec<KPoly>, RingFault>
    requires polys { ArePolynomials ring.now.coeffs ring.now.vars polys.now }
    requires divisors { AreDivisorsIn ring.now.coeffs ring.now.vars (O.cmp order.now) polys.now divisors.now.list.items }
    requires suits { O.fits order.now ring.now.vars }
    requires ascending { first < second }
    requires inside { second < length polys.now }
    ensures quotients { IfOk result (λ qs. AreQuotientsIn ring.now.coeffs ring.now.vars (O.cmp order.now) polys.now first second qs.items) }
    ensures fits { OnOk result (MultiplesFit ring.now.coeffs (O.cmp order.now) (get_or polys.now first []) (get_or polys.now second [])) }
    ensures degree { IfErr result (DegreesMeet (QuotientsMeet ring.now.coeffs (O.cmp order.now) polys.now first second)) }
{
    let s = s_polynomial_at(ring, alloc, polys, divisors, first, second, order)?;
    let division = divide_wholly(ring, alloc, &s, polys, divisors, order)?;
    let Division { quotients, .. } = division;
    Ok(quotients)
}
