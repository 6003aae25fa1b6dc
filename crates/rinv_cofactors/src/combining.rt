//! The cofactors of a Gröbner basis over the polynomials given, made along its journal.

ghost use Rattle.std.specs.Prelude.{◌≡◌, ◌<◌, length, All, IfOk, IfErr};
ghost use Rattle.rinv_buch.specs.Kinds.{kind_of};
ghost use Rattle.rinv_cofactors.specs.Combining.{adds};
ghost use Rattle.rinv_cofactors.specs.Lists.{AreListsOf, AreRestCofactors, CombineBy, CombiningTooHigh, RestTooHigh, SumUp};
ghost use Rattle.rinv_poly.specs.Polynomials.{AreOf};
ghost use Rattle.rinv_buch.specs.Bases.{IsMadeFrom};
ghost use Rattle.rinv_div.specs.Divisors.{MadeOf};

use crate::columns::cofactor_at;
use crate::multipliers::multiplier_of;
use crate::units::unit_lists;
use rinv_buch::{Basis, Entry, EntryKind, s_polynomial_of};
use rinv_div::{Divisors, divide_wholly, divisors_of};
use rinv_mono::MonoOrder;
use rinv_poly::{Poly, PolyRing};
use rinv_ring::{Field, Ring, RingFault};
use std::alloc::Global;

/// For each element of the basis its cofactors over the polynomials given, of which it is the combination: the unit list of an element
/// that was given, and for one that was added its two elements' cofactors, combined as its S-polynomial is, less the quotients of its
/// division times the cofactors of the divisors. Degree comes only where making those of an entry's rest meets these degrees.
pub fn combinations<F: Field, O: MonoOrder>(
    ring: &PolyRing<F>,
    alloc: Global,
    given: &[Poly<F>],
    basis: &Basis<F>,
    order: &O,
) -> Result<Vec<Vec<Poly<F>>>, RingFault>
    requires given { AreOf F.ops F.is_element ring.now given.now }
    requires polys { AreOf F.ops F.is_element ring.now basis.now.polys }
    requires suits { O.fits order.now ring.now.vars }
    requires journal { IsMadeFrom F.ops O.cmp ring.now order.now given.now basis.now }
    ensures number { IfOk result (λ ls. length ls.items ≡ length basis.now.polys) }
    ensures lengths { IfOk result (λ ls. All (λ us. length us.items ≡ length given.now) ls.items) }
    ensures normal { IfOk result (λ ls. AreListsOf F.ops F.is_element ring.now ls.items) }
    ensures sums_up { IfOk result (SumUp F.ops ring.now given.now basis.now.polys) }
    ensures rule { IfOk result (CombineBy F.ops O.cmp ring.now order.now given.now basis.now) }
    ensures degree { IfErr result (CombiningTooHigh F.ops F.is_element F.too_high O.cmp ring.now order.now given.now basis.now) }
{
    let mut lists = unit_lists(ring, alloc, given)?;
    let mut divisors = divisors_of(ring, alloc, &basis.polys[..lists.len()], order)?;
    'entries: for entry in &basis.journal {
        if adds(entry) {
            let polys = &basis.polys[..lists.len()];
            let count = given.len();
            let list = rest_cofactors(ring, alloc, polys, &divisors, &lists, count, entry, order)?;
            divisors.push(ring, alloc, &basis.polys[lists.len()], order)?;
            lists.push(list)?;
        }
    }
    Ok(lists)
}

// The cofactors of the rest that the entry adds to the list.
fn rest_cofactors<F: Field, O: MonoOrder>(
    ring: &PolyRing<F>,
    alloc: Global,
    polys: &[Poly<F>],
    divisors: &Divisors<F>,
    lists: &[Vec<Poly<F>>],
    count: usize,
    entry: &Entry,
    order: &O,
) -> Result<Vec<Poly<F>>, RingFault>
    requires polys { AreOf F.ops F.is_element ring.now polys.now }
    requires divisors { MadeOf F.ops F.is_element O.cmp ring.now order.now polys.now divisors.now }
    requires suits { O.fits order.now ring.now.vars }
    requires many { length lists.now ≡ length polys.now }
    requires lists { AreListsOf F.ops F.is_element ring.now lists.now }
    requires lengths { All (λ us. length us.items ≡ count) lists.now }
    requires ascending { entry.now.first < entry.now.second }
    requires inside { entry.now.second < length polys.now }
    ensures normal { IfOk result (λ us. AreOf F.ops F.is_element ring.now us.items) }
    ensures cofactors { IfOk result (AreRestCofactors F.ops O.cmp ring.now order.now count polys.now lists.now entry.now) }
    ensures degree { IfErr result (RestTooHigh F.ops F.is_element F.too_high O.cmp ring.now order.now polys.now lists.now entry.now) }
{
    let (first, second) = (entry.first as usize, entry.second as usize);
    let (f, g) = (&polys[first], &polys[second]);
    let left = multiplier_of(ring, alloc, f, g, order)?;
    let right = multiplier_of(ring, alloc, g, f, order)?;
    let s = s_polynomial_of(ring, alloc, f, g, order)?;
    let division = divide_wholly(ring, alloc, &s, polys, divisors, order)?;
    let mut cofactors = Vec::with_capacity(alloc, count)?;
    'places: for place in 0..count {
        let (a, b) = (&lists[first][place], &lists[second][place]);
        let quotients = &division.quotients;
        let cofactor = cofactor_at(ring, alloc, &left, a, &right, b, quotients, lists, place)?;
        cofactors.push(cofactor)?;
    }
    Ok(cofactors)
}

// Whether the entry adds a rest.
fn adds(entry: &Entry) -> bool
    ensures { result ≡ adds (kind_of entry.now.kind) }
{
    match entry.kind {
        EntryKind::Reduced { added } => added.is_some(),
        _ => false,
    }
}
