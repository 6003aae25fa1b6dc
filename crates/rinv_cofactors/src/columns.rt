//! Cofactors at one place: sums over a column of the lists.

ghost use Rattle.std.specs.Prelude.{◌≡◌, ◌<◌, length, All, IfOk, IfErr};
ghost use Rattle.rinv_cofactors.specs.Lists.{AreListsOf, ColumnTooHigh, IsCombined, StopsHigh, SumsColumn};
ghost use Rattle.rinv_poly.specs.Polynomials.{AreOf, IsOf};

use rinv_poly::{Poly, PolyRing};
use rinv_ring::{Field, Ring, RingFault};
use std::alloc::Global;

// The cofactor at a place: the multiples of two cofactors by the multipliers, the second taken from the first, less the quotients times the
// cofactors there.
pub fn cofactor_at<F: Field>(
    ring: &PolyRing<F>,
    alloc: Global,
    left: &Poly<F>,
    a: &Poly<F>,
    right: &Poly<F>,
    b: &Poly<F>,
    quotients: &[Poly<F>],
    lists: &[Vec<Poly<F>>],
    place: usize,
) -> Result<Poly<F>, RingFault>
    requires left { IsOf F.ops F.is_element ring.now left.now }
    requires first { IsOf F.ops F.is_element ring.now a.now }
    requires right { IsOf F.ops F.is_element ring.now right.now }
    requires second { IsOf F.ops F.is_element ring.now b.now }
    requires many { length quotients.now ≡ length lists.now }
    requires quotients { AreOf F.ops F.is_element ring.now quotients.now }
    requires lists { AreListsOf F.ops F.is_element ring.now lists.now }
    requires inside { All (λ us. place < length us.items) lists.now }
    ensures element { IfOk result (IsOf F.ops F.is_element ring.now) }
    ensures value { IfOk result (IsCombined F.ops ring.now left.now a.now right.now b.now quotients.now lists.now place) }
    ensures degree { StopsHigh F.ops F.is_element F.too_high ring.now left.now a.now right.now b.now quotients.now lists.now place result }
{
    let first = ring.mul(alloc, left, a)?;
    let second = ring.mul(alloc, right, b)?;
    let of_pair = ring.sub(alloc, &first, &second)?;
    let of_quotients = sum_of_products(ring, alloc, quotients, lists, place)?;
    let cofactor = ring.sub(alloc, &of_pair, &of_quotients)?;
    Ok(cofactor)
}

/// The sum of the quotients times the cofactors that the lists have at a place. Degree comes only where one of the products meets these
/// degrees, or their sum.
pub fn sum_of_products<F: Field>(
    ring: &PolyRing<F>,
    alloc: Global,
    quotients: &[Poly<F>],
    lists: &[Vec<Poly<F>>],
    place: usize,
) -> Result<Poly<F>, RingFault>
    requires many { length quotients.now ≡ length lists.now }
    requires quotients { AreOf F.ops F.is_element ring.now quotients.now }
    requires lists { AreListsOf F.ops F.is_element ring.now lists.now }
    requires inside { All (λ us. place < length us.items) lists.now }
    ensures element { IfOk result (IsOf F.ops F.is_element ring.now) }
    ensures value { IfOk result (SumsColumn F.ops ring.now quotients.now lists.now place) }
    ensures degree { IfErr result (ColumnTooHigh F.ops F.is_element F.too_high ring.now quotients.now lists.now place) }
{
    let mut products = Vec::with_capacity(alloc, quotients.len())?;
    'products: for k in 0..quotients.len() {
        let product = ring.mul(alloc, &quotients[k], &lists[k][place])?;
        products.push(product)?;
    }
    ring.sum(alloc, products)
}
