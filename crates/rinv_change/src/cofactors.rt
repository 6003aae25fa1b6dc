//! The cofactors that prove a fraction invariant.

ghost use Rattle.std.specs.Prelude.{◌≡◌, ◌<◌, ◌≤◌, map, length, All, IfOk, IfErr};
ghost use Rattle.std.specs.Result.{MatchResult};
ghost use Rattle.rinv_algebra.specs.Residue.{residue_ops};
ghost use Rattle.rinv_groebner.specs.Division.{AreSame};
ghost use Rattle.rinv_defs.specs.System.{group_count, space_count};
ghost use Rattle.rinv_defs.specs.SystemForm.{IsSystem};
ghost use Rattle.rinv_defs.specs.Invariant.{IsInvariant};
ghost use Rattle.rinv_ring.specs.Fault.{DegreesMeet};
ghost use Rattle.rinv_frac.specs.Fractions.{IsStored};
ghost use Rattle.rinv_parts.specs.Points.{ArePolynomials};
ghost use Rattle.rinv_laws.specs.Group.{IsGroupBasis};
ghost use Rattle.rinv_laws.specs.Proofs.{BasisMeets, ProductsMeet};
ghost use Rattle.rinv_change.specs.Asked.{IsChangeRing};
ghost use Rattle.rinv_change.specs.Changes.{ChangeMeets, change_count};
ghost use Rattle.rinv_change.specs.Cofactors.{AreQuotientsOf, AreWideCofactors, ProofMeets, ProvesInvariance};
ghost use Rattle.rinv_change.specs.Changing.{AreChosen, AreCombined, KeepChosen};

use crate::asked::asked_of;
use crate::changing::change_ring;
use rinv_buch::kept_places;
use rinv_cofactors::{combinations, sum_of_products};
use rinv_div::{Division, divide_wholly};
use rinv_frac::Frac;
use rinv_laws::GroupBasis;
use rinv_mono::Grevlex;
use rinv_poly::{KPoly, PolyRing};
use rinv_ring::{Gf, NoMemory, RingFault};
use rinv_sub::widened;
use rinv_text::System;
use std::alloc::Global;

/// For each kept element of the group's basis its cofactors over the group's ideal, in the variables of a change.
#[derive(Drop)]
pub struct KeptCofactors {
    pub lists: Vec<Vec<KPoly>>,
}

// The polynomials, in further variables.
fn widened_list(
    alloc: Global,
    from: &PolyRing<Gf>,
    list: &[KPoly],
    to: &PolyRing<Gf>,
) -> Result<Vec<KPoly>, NoMemory>
    requires field { from.now.coeffs ≡ to.now.coeffs }
    requires more { from.now.vars ≤ to.now.vars }
    requires polynomials { ArePolynomials from.now.coeffs from.now.vars list.now }
    ensures normal { IfOk result (λ r. ArePolynomials to.now.coeffs to.now.vars r.items) }
    ensures value { IfOk result (λ r. AreSame (residue_ops to.now.coeffs) r.items list.now) }
{
    let mut wide = Vec::with_capacity(alloc, list.len())?;
    'polynomials: for k in 0..list.len() {
        let moved = widened(from, alloc, &list[k], to)?;
        wide.push(moved)?;
    }
    Ok(wide)
}

// The lists at the places, in further variables.
fn widened_lists(
    alloc: Global,
    from: &PolyRing<Gf>,
    lists: &[Vec<KPoly>],
    places: &[usize],
    to: &PolyRing<Gf>,
) -> Result<Vec<Vec<KPoly>>, NoMemory>
    requires field { from.now.coeffs ≡ to.now.coeffs }
    requires more { from.now.vars ≤ to.now.vars }
    requires polynomials { All (λ us. ArePolynomials from.now.coeffs from.now.vars us.items) lists.now }
    requires places { All (λ k. k < length lists.now) places.now }
    ensures normal { IfOk result (λ r. All (λ us. ArePolynomials to.now.coeffs to.now.vars us.items) r.items) }
    ensures value { IfOk result (λ r. AreChosen to.now.coeffs (map (λ us. us.items) lists.now) places.now (map (λ us. us.items) r.items)) }
{
    let mut wide = Vec::with_capacity(alloc, places.len())?;
    'places: for k in 0..places.len() {
        let moved = widened_list(alloc, from, &lists[places[k]], to)?;
        wide.push(moved)?;
    }
    Ok(wide)
}

// The cofactors of the elements of the group's basis over the group's ideal, and the places of the kept elements.
fn basis_cofactors(
    alloc: Global,
    system: &System,
    group: &GroupBasis,
) -> Result<(Vec<Vec<KPoly>>, Vec<usize>), RingFault>
    requires system { IsSystem system.now.system }
    requires group { IsGroupBasis system.now.system group.now.basis group.now.reduced.items }
    ensures normal { IfOk result (λ r. All (λ us. ArePolynomials system.now.system.p (group_count system.now.system) us.items) r.0.items) }
    ensures inside { IfOk result (λ r. All (λ k. k < length r.0.items) r.1.items) }
    ensures cofactors { IfOk result (λ r. KeepChosen system.now.system group.now.basis (map (λ us. us.items) r.0.items) r.1.items) }
    ensures degree { IfErr result (DegreesMeet (BasisMeets system.now.system group.now.basis)) }
{
    let ring = PolyRing::new(system.field, system.group.len());
    let found = &group.basis;
    let lists = combinations(&ring, alloc, &system.ideal, found, &Grevlex)?;
    let places = kept_places(&ring, alloc, &found.polys, &Grevlex)?;
    Ok((lists, places))
}

/// The cofactors of the kept elements of the group's basis, with which any fraction is proved invariant. Degree comes only where the
/// making of the basis's cofactors meets these degrees.
pub fn kept_cofactors(
    alloc: Global,
    system: &System,
    group: &GroupBasis,
) -> Result<KeptCofactors, RingFault>
    requires system { IsSystem system.now.system }
    requires group { IsGroupBasis system.now.system group.now.basis group.now.reduced.items }
    ensures cofactors { IfOk result (λ r. AreWideCofactors system.now.system group.now.basis (map (λ us. us.items) r.lists.items)) }
    ensures degree { IfErr result (DegreesMeet (BasisMeets system.now.system group.now.basis)) }
{
    let (lists, places) = basis_cofactors(alloc, system, group)?;
    let from = PolyRing::new(system.field, system.group.len());
    let ring = change_ring(system);
    let wide = widened_lists(alloc, &from, &lists, &places, &ring)?;
    Ok(KeptCofactors { lists: wide })
}

// The quotients of the change of an invariant fraction by the kept elements of the group's basis.
fn quotients_of(
    alloc: Global,
    system: &System,
    group: &GroupBasis,
    f: &Frac,
) -> Result<Vec<KPoly>, RingFault>
    requires system { IsSystem system.now.system }
    requires group { IsGroupBasis system.now.system group.now.basis group.now.reduced.items }
    requires fraction { IsStored system.now.system.p (space_count system.now.system) f.now }
    requires invariant { IsInvariant system.now.system f.now }
    ensures quotients { IfOk result (λ qs. AreQuotientsOf system.now.system group.now.basis f.now qs.items) }
    ensures degree { IfErr result (DegreesMeet (ChangeMeets system.now.system group.now.basis f.now)) }
{
    let asked = asked_of(alloc, system, group, f)?;
    let basis = &asked.basis;
    let division = divide_wholly(
        &asked.ring,
        alloc,
        &asked.change,
        &basis.polys,
        &basis.divisors,
        &Grevlex,
    )?;
    let Division { quotients, .. } = division;
    Ok(quotients)
}

/// The sums of the quotients times the cofactors at each of so many places of the lists. Degree comes only where a quotient times a
/// cofactor meets these degrees.
pub fn sums_of_products(
    alloc: Global,
    ring: &PolyRing<Gf>,
    quotients: &[KPoly],
    lists: &[Vec<KPoly>],
    count: usize,
) -> Result<Vec<KPoly>, RingFault>
    requires many { length quotients.now ≡ length lists.now }
    requires quotients { ArePolynomials ring.now.coeffs ring.now.vars quotients.now }
    requires lists { All (λ us. ArePolynomials ring.now.coeffs ring.now.vars us.items) lists.now }
    requires lengths { All (λ us. length us.items ≡ count) lists.now }
    ensures number { IfOk result (λ r. length r.items ≡ count) }
    ensures normal { IfOk result (λ r. ArePolynomials ring.now.coeffs ring.now.vars r.items) }
    ensures rule { IfOk result (λ r. AreCombined ring.now.coeffs (map (λ us. us.items) lists.now) quotients.now count r.items) }
    ensures degree { IfErr result (DegreesMeet (ProductsMeet ring.now.coeffs quotients.now (map (λ us. us.items) lists.now))) }
{
    let mut sums = Vec::with_capacity(alloc, count)?;
    'places: for place in 0..count {
        let sum = sum_of_products(ring, alloc, quotients, lists, place)?;
        sums.push(sum)?;
    }
    Ok(sums)
}

/// The cofactors of an invariant fraction's change over the group's ideal: each is the sum of the quotients of the change times the kept
/// elements' cofactors at its place. Degree comes only where the test of the fraction meets these degrees, or such a product.
pub fn invariance_proof(
    alloc: Global,
    system: &System,
    group: &GroupBasis,
    cofactors: &KeptCofactors,
    f: &Frac,
) -> Result<Vec<KPoly>, RingFault>
    requires system { IsSystem system.now.system }
    requires group { IsGroupBasis system.now.system group.now.basis group.now.reduced.items }
    requires cofactors { AreWideCofactors system.now.system group.now.basis (map (λ us. us.items) cofactors.now.lists.items) }
    requires fraction { IsStored system.now.system.p (space_count system.now.system) f.now }
    requires invariant { IsInvariant system.now.system f.now }
    ensures proof { IfOk result (λ us. ProvesInvariance system.now.system group.now.basis f.now us.items) }
    ensures degree { IfErr result (DegreesMeet (ProofMeets system.now.system group.now.basis f.now)) }
{
    let quotients = quotients_of(alloc, system, group, f)?;
    let ring = change_ring(system);
    let count = system.ideal.len();
    let sums = sums_of_products(alloc, &ring, &quotients, &cofactors.lists, count)?;
    Ok(sums)
}
