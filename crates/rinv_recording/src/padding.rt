//! Quotients by the first elements of a list, as quotients by the whole list.

ghost use Rattle.std.specs.Prelude.{◌≡◌, IfOk};
ghost use Rattle.rinv_algebra.specs.Residue.{residue_ops};
ghost use Rattle.rinv_groebner.specs.Division.{AreSame};
ghost use Rattle.rinv_parts.specs.Points.{ArePolynomials};
ghost use Rattle.rinv_recording.specs.Recorded.{padded};
ghost use Rattle.rinv_recording.specs.Entries.{with_unit, with_zeros};

use rinv_poly::{KPoly, PolyRing};
use rinv_ring::{Gf, NoMemory, Ring};
use std::alloc::Global;

// The polynomials, and zeros behind them, so many in all.
fn with_zeros(
    alloc: Global,
    ring: &PolyRing<Gf>,
    begun: Vec<KPoly>,
    count: usize,
) -> Result<Vec<KPoly>, NoMemory>
    requires { ArePolynomials ring.now.coeffs ring.now.vars begun.items }
    ensures normal { IfOk result (λ r. ArePolynomials ring.now.coeffs ring.now.vars r.items) }
    ensures value { IfOk result (λ r. AreSame (residue_ops ring.now.coeffs) r.items (with_zeros begun.items count)) }
{
    let mut list = begun;
    'zeros: while list.len() < count {
        let zero = ring.zero(alloc)?;
        list.push(zero)?;
    }
    Ok(list)
}

// The polynomials, and 1 behind them.
fn with_one(alloc: Global, ring: &PolyRing<Gf>, begun: Vec<KPoly>) -> Result<Vec<KPoly>, NoMemory>
    requires { ArePolynomials ring.now.coeffs ring.now.vars begun.items }
    ensures normal { IfOk result (λ r. ArePolynomials ring.now.coeffs ring.now.vars r.items) }
    ensures value { IfOk result (λ r. AreSame (residue_ops ring.now.coeffs) r.items (with_unit ring.now.coeffs begun.items)) }
{
    let mut list = begun;
    let one = ring.one(alloc)?;
    list.push(one)?;
    Ok(list)
}

/// The quotients, 1 at the place that was added, and zeros at the later places.
pub(crate) fn padded(
    alloc: Global,
    ring: &PolyRing<Gf>,
    quotients: Vec<KPoly>,
    added: Option<u32>,
    count: usize,
) -> Result<Vec<KPoly>, NoMemory>
    requires { ArePolynomials ring.now.coeffs ring.now.vars quotients.items }
    ensures normal { IfOk result (λ r. ArePolynomials ring.now.coeffs ring.now.vars r.items) }
    ensures value { IfOk result (λ r. AreSame (residue_ops ring.now.coeffs) r.items (padded ring.now.coeffs count quotients.items added)) }
{
    match added {
        None => {
            let list = with_zeros(alloc, ring, quotients, count)?;
            Ok(list)
        }
        Some(_place) => {
            let begun = with_one(alloc, ring, quotients)?;
            let list = with_zeros(alloc, ring, begun, count)?;
            Ok(list)
        }
    }
}
