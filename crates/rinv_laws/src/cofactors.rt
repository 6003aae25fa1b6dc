//! Cofactors over the copies of some polynomials, from quotients by a basis of theirs and the cofactors of its elements.

ghost use Rattle.std.specs.Prelude.{◌≡◌, ◌+◌, ◌*◌, ◌<◌, ◌≤◌, length, All, IfOk, IfErr};
ghost use Rattle.rinv_parts.specs.Points.{ArePolynomials};
ghost use Rattle.rinv_laws.specs.Lists.{AreLists, AreNested, ArePast, ArePastLists, AreCopiedLists, AreSumsIn, CofactorFaults, AreCopiedSums, CopyFaults};

use crate::copied::{appended, in_copy};
use rinv_cofactors::sum_of_products;
use rinv_poly::{KPoly, PolyRing};
use rinv_ring::{Gf, NoMemory, RingFault};
use std::alloc::Global;

// The polynomials in a copy of their variables.
fn list_in_copy(
    alloc: Global,
    from: &PolyRing<Gf>,
    list: &[KPoly],
    to: &PolyRing<Gf>,
    copy: u32,
) -> Result<Vec<KPoly>, NoMemory>
    requires field { from.now.coeffs ≡ to.now.coeffs }
    requires polynomials { ArePolynomials from.now.coeffs from.now.vars list.now }
    requires inside { copy * from.now.vars + from.now.vars ≤ to.now.vars }
    ensures normal { IfOk result (λ r. ArePolynomials to.now.coeffs to.now.vars r.items) }
    ensures value { IfOk result (ArePast to.now.coeffs (copy * from.now.vars) list.now) }
{
    let mut copies = Vec::with_capacity(alloc, list.len())?;
    'polynomials: for k in 0..list.len() {
        let moved = in_copy(alloc, from, &list[k], to, copy)?;
        copies.push(moved)?;
    }
    Ok(copies)
}

// The lists at the places, in a copy of their variables.
fn lists_in_copy(
    alloc: Global,
    from: &PolyRing<Gf>,
    lists: &[Vec<KPoly>],
    places: &[usize],
    to: &PolyRing<Gf>,
    copy: u32,
) -> Result<Vec<Vec<KPoly>>, NoMemory>
    requires field { from.now.coeffs ≡ to.now.coeffs }
    requires polynomials { AreLists from.now.coeffs from.now.vars lists.now }
    requires places { All (λ k. k < length lists.now) places.now }
    requires inside { copy * from.now.vars + from.now.vars ≤ to.now.vars }
    ensures normal { IfOk result (λ r. AreLists to.now.coeffs to.now.vars r.items) }
    ensures value { IfOk result (ArePastLists to.now.coeffs (copy * from.now.vars) lists.now places.now) }
{
    let mut copies = Vec::with_capacity(alloc, places.len())?;
    'places: for k in 0..places.len() {
        let moved = list_in_copy(alloc, from, &lists[places[k]], to, copy)?;
        copies.push(moved)?;
    }
    Ok(copies)
}

/// The lists at the places, in each of so many copies of their variables.
pub(crate) fn lists_in_copies(
    alloc: Global,
    from: &PolyRing<Gf>,
    lists: &[Vec<KPoly>],
    places: &[usize],
    to: &PolyRing<Gf>,
    copies: u32,
) -> Result<Vec<Vec<Vec<KPoly>>>, NoMemory>
    requires field { from.now.coeffs ≡ to.now.coeffs }
    requires polynomials { AreLists from.now.coeffs from.now.vars lists.now }
    requires places { All (λ k. k < length lists.now) places.now }
    requires inside { copies * from.now.vars ≤ to.now.vars }
    ensures normal { IfOk result (λ r. AreNested to.now.coeffs to.now.vars r.items) }
    ensures value { IfOk result (AreCopiedLists to.now.coeffs from.now.vars copies lists.now places.now) }
{
    let mut all = Vec::new(alloc);
    'copies: for copy in 0..copies {
        let in_this = lists_in_copy(alloc, from, lists, places, to, copy)?;
        all.push(in_this)?;
    }
    Ok(all)
}

// The sums of the quotients times the cofactors at each of so many places of the lists.
fn sums_of_products(
    alloc: Global,
    ring: &PolyRing<Gf>,
    quotients: &[KPoly],
    lists: &[Vec<KPoly>],
    count: usize,
) -> Result<Vec<KPoly>, RingFault>
    requires many { length quotients.now ≡ length lists.now }
    requires quotients { ArePolynomials ring.now.coeffs ring.now.vars quotients.now }
    requires lists { All (λ us. ArePolynomials ring.now.coeffs ring.now.vars us.items) lists.now }
    requires lengths { All (λ us. length us.items ≡ count) lists.now }
    ensures number { IfOk result (λ r. length r.items ≡ count) }
    ensures normal { IfOk result (λ r. ArePolynomials ring.now.coeffs ring.now.vars r.items) }
    ensures rule { IfOk result (AreSumsIn ring.now.coeffs count quotients.now lists.now) }
    ensures degree { IfErr result (CofactorFaults ring.now.coeffs quotients.now lists.now) }
{
    let mut sums = Vec::with_capacity(alloc, count)?;
    'places: for place in 0..count {
        let sum = sum_of_products(ring, alloc, quotients, lists, place)?;
        sums.push(sum)?;
    }
    Ok(sums)
}

/// The cofactors, so many in each copy: the sums of the quotients, of which each copy has as many as it has lists, times the lists there.
pub(crate) fn cofactors_in_copies(
    alloc: Global,
    ring: &PolyRing<Gf>,
    quotients: &[KPoly],
    copies: &[Vec<Vec<KPoly>>],
    kept: usize,
    count: usize,
) -> Result<Vec<KPoly>, RingFault>
    requires many { length quotients.now ≡ length copies.now * kept }
    requires quotients { ArePolynomials ring.now.coeffs ring.now.vars quotients.now }
    requires lists { AreNested ring.now.coeffs ring.now.vars copies.now }
    requires kept { All (λ ls. length ls.items ≡ kept) copies.now }
    requires lengths { All (λ ls. All (λ us. length us.items ≡ count) ls.items) copies.now }
    ensures cofactors { IfOk result (AreCopiedSums ring.now.coeffs ring.now.vars count kept copies.now quotients.now) }
    ensures degree { IfErr result (CopyFaults ring.now.coeffs kept copies.now quotients.now) }
{
    let mut cofactors = Vec::new(alloc);
    'copies: for copy in 0..copies.len() {
        let start = copy * kept;
        let own = &quotients[start..start + kept];
        let sums = sums_of_products(alloc, ring, own, &copies[copy], count)?;
        cofactors = appended(cofactors, sums)?;
    }
    Ok(cofactors)
}
