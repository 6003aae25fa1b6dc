//! A quick test of the laws: both sides of each part are formed modulo the ideal of the points of which the law speaks, and no long
//! polynomial arises. It finds that laws hold, or finds nothing.

ghost use Rattle.std.specs.Prelude.{◌≡◌, ◌<◌, length, All, IfOk};
ghost use Rattle.rinv_groebner.specs.Reduced.{kept};
ghost use Rattle.rinv_defs.specs.SystemForm.{IsSystem};
ghost use Rattle.rinv_defs.specs.Laws.{AllLawsHold, LawHolds};
ghost use Rattle.rinv_parts.specs.LawNames.{law_of};
ghost use Rattle.rinv_parts.specs.Parts.{ArePartsOf};
ghost use Rattle.rinv_parts.specs.Points.{AreCoordinates, ArePolynomials, IsPoint, vanish, agree, give, give_both};
ghost use Rattle.rinv_laws.specs.Group.{IsGroupBasis};
ghost use Rattle.rinv_poly.specs.Results.{IfHolds};
ghost use Rattle.rinv_laws.specs.Lists.{AreGroupPlaces};
ghost use Rattle.rinv_laws.specs.Ready.{HasDivisors, IsBasisFor, HoldValues, AllVanish, AllAgree, HoldAt, HoldAtBoth, HoldAtStored};

use crate::copied::{CopiedBasis, copied_basis};
use crate::group::GroupBasis;
use crate::testing::LAWS;
use rinv_buch::kept_places;
use rinv_modulo::{greatest_exponents, reduced, tables_modulo, value_modulo};
use rinv_mono::Grevlex;
use rinv_parts::{LawName, LawParts, LawPoints, law_polynomials, parts_of, polynomial_variables};
use rinv_poly::{KPoly, PolyRing};
use rinv_ring::{Gf, NoMemory, Ring, RingFault};
use rinv_text::System;
use std::alloc::Global;

// The values of the polynomials, in so many variables, at the point.
fn values_at(
    alloc: Global,
    ring: &PolyRing<Gf>,
    vars: u32,
    fs: &[KPoly],
    point: &[KPoly],
    basis: &CopiedBasis,
) -> Result<Vec<KPoly>, RingFault>
    requires polynomials { ArePolynomials ring.now.coeffs vars fs.now }
    requires point { IsPoint ring.now.coeffs ring.now.vars vars point.now }
    requires divisors { HasDivisors ring.now.coeffs ring.now.vars basis.now }
    ensures { IfOk result (HoldValues ring.now.coeffs ring.now.vars basis.now point.now fs.now) }
{
    let greatest = greatest_exponents(alloc, fs, vars)?;
    let tables = tables_modulo(ring, alloc, point, &greatest, &basis.polys, &basis.divisors)?;
    let mut values = Vec::new(alloc);
    'polynomials: for k in 0..fs.len() {
        let value = value_modulo(
            ring,
            alloc,
            fs[k].terms(),
            point,
            &tables,
            &basis.polys,
            &basis.divisors,
        )?;
        values.push(value)?;
    }
    Ok(values)
}

// Whether the polynomials are found to lie in the ideal.
fn are_zero(
    alloc: Global,
    ring: &PolyRing<Gf>,
    fs: &[KPoly],
    basis: &CopiedBasis,
) -> Result<bool, RingFault>
    requires polynomials { ArePolynomials ring.now.coeffs ring.now.vars fs.now }
    requires divisors { HasDivisors ring.now.coeffs ring.now.vars basis.now }
    ensures { IfHolds result (AllVanish ring.now.coeffs basis.now fs.now) }
{
    'polynomials: for k in 0..fs.len() {
        let rest = reduced(ring, alloc, &fs[k], &basis.polys, &basis.divisors)?;
        if !ring.is_zero(&rest) {
            return Ok(false);
        }
    }
    Ok(true)
}

// Whether the differences of the polynomials, place by place, are.
fn are_same(
    alloc: Global,
    ring: &PolyRing<Gf>,
    left: &[KPoly],
    right: &[KPoly],
    basis: &CopiedBasis,
) -> Result<bool, RingFault>
    requires many { length left.now ≡ length right.now }
    requires left { ArePolynomials ring.now.coeffs ring.now.vars left.now }
    requires right { ArePolynomials ring.now.coeffs ring.now.vars right.now }
    requires divisors { HasDivisors ring.now.coeffs ring.now.vars basis.now }
    ensures { IfHolds result (AllAgree ring.now.coeffs basis.now left.now right.now) }
{
    'places: for k in 0..left.len() {
        let difference = ring.sub(alloc, &left[k], &right[k])?;
        let rest = reduced(ring, alloc, &difference, &basis.polys, &basis.divisors)?;
        if !ring.is_zero(&rest) {
            return Ok(false);
        }
    }
    Ok(true)
}

// Whether the polynomials are found to vanish at the point.
fn vanish_at(
    alloc: Global,
    ring: &PolyRing<Gf>,
    vars: u32,
    fs: &[KPoly],
    point: &[KPoly],
    basis: &CopiedBasis,
) -> Result<bool, RingFault>
    requires polynomials { ArePolynomials ring.now.coeffs vars fs.now }
    requires point { IsPoint ring.now.coeffs ring.now.vars vars point.now }
    requires divisors { HasDivisors ring.now.coeffs ring.now.vars basis.now }
    ensures { IfHolds result (HoldAt ring.now.coeffs basis.now fs.now (vanish point.now)) }
{
    let values = values_at(alloc, ring, vars, fs, point, basis)?;
    let vanish = are_zero(alloc, ring, &values, basis)?;
    Ok(vanish)
}

// Whether they are found to have the same values at the points.
fn agree_at(
    alloc: Global,
    ring: &PolyRing<Gf>,
    vars: u32,
    fs: &[KPoly],
    first: &[KPoly],
    second: &[KPoly],
    basis: &CopiedBasis,
) -> Result<bool, RingFault>
    requires polynomials { ArePolynomials ring.now.coeffs vars fs.now }
    requires first { IsPoint ring.now.coeffs ring.now.vars vars first.now }
    requires second { IsPoint ring.now.coeffs ring.now.vars vars second.now }
    requires divisors { HasDivisors ring.now.coeffs ring.now.vars basis.now }
    ensures { IfHolds result (HoldAt ring.now.coeffs basis.now fs.now (agree first.now second.now)) }
{
    let left = values_at(alloc, ring, vars, fs, first, basis)?;
    let right = values_at(alloc, ring, vars, fs, second, basis)?;
    let agree = are_same(alloc, ring, &left, &right, basis)?;
    Ok(agree)
}

// Whether they are found to have these values at the point.
fn give_at(
    alloc: Global,
    ring: &PolyRing<Gf>,
    vars: u32,
    fs: &[KPoly],
    point: &[KPoly],
    wanted: &[KPoly],
    basis: &CopiedBasis,
) -> Result<bool, RingFault>
    requires polynomials { ArePolynomials ring.now.coeffs vars fs.now }
    requires point { IsPoint ring.now.coeffs ring.now.vars vars point.now }
    requires wanted { IsPoint ring.now.coeffs ring.now.vars (length fs.now) wanted.now }
    requires divisors { HasDivisors ring.now.coeffs ring.now.vars basis.now }
    ensures { IfHolds result (HoldAt ring.now.coeffs basis.now fs.now (give point.now wanted.now)) }
{
    let values = values_at(alloc, ring, vars, fs, point, basis)?;
    let give = are_same(alloc, ring, &values, wanted, basis)?;
    Ok(give)
}

// The same, at each of two points.
fn give_at_both(
    alloc: Global,
    ring: &PolyRing<Gf>,
    vars: u32,
    fs: &[KPoly],
    first: &[KPoly],
    second: &[KPoly],
    wanted: &[KPoly],
    basis: &CopiedBasis,
) -> Result<bool, RingFault>
    requires polynomials { ArePolynomials ring.now.coeffs vars fs.now }
    requires first { IsPoint ring.now.coeffs ring.now.vars vars first.now }
    requires second { IsPoint ring.now.coeffs ring.now.vars vars second.now }
    requires wanted { IsPoint ring.now.coeffs ring.now.vars (length fs.now) wanted.now }
    requires divisors { HasDivisors ring.now.coeffs ring.now.vars basis.now }
    ensures { IfHolds result (HoldAtBoth ring.now.coeffs basis.now fs.now (give_both first.now second.now wanted.now)) }
{
    let left = give_at(alloc, ring, vars, fs, first, wanted, basis)?;
    if !left {
        return Ok(false);
    }
    let right = give_at(alloc, ring, vars, fs, second, wanted, basis)?;
    Ok(right)
}

// Whether what is said of the polynomials at the points is found to hold.
fn holds_at(
    alloc: Global,
    ring: &PolyRing<Gf>,
    vars: u32,
    fs: &[KPoly],
    points: &LawPoints,
    basis: &CopiedBasis,
) -> Result<bool, RingFault>
    requires polynomials { ArePolynomials ring.now.coeffs vars fs.now }
    requires points { AreCoordinates ring.now.coeffs ring.now.vars vars (length fs.now) points.now }
    requires divisors { HasDivisors ring.now.coeffs ring.now.vars basis.now }
    ensures { IfHolds result (HoldAtStored ring.now.coeffs basis.now fs.now points.now) }
{
    match points {
        LawPoints::Vanish(point) => vanish_at(alloc, ring, vars, fs, point, basis),
        LawPoints::Agree(first, second) => agree_at(alloc, ring, vars, fs, first, second, basis),
        LawPoints::Give(point, wanted) => give_at(alloc, ring, vars, fs, point, wanted, basis),
        LawPoints::GiveBoth(first, second, wanted) => {
            give_at_both(alloc, ring, vars, fs, first, second, wanted, basis)
        }
    }
}

// Whether the parts of a law are found to hold. Where a degree is too high, nothing is found.
fn parts_hold(
    alloc: Global,
    system: &System,
    group: &GroupBasis,
    own: &LawParts,
    basis: &CopiedBasis,
) -> Result<bool, NoMemory>
    requires group { IsGroupBasis system.now.system group.now.basis group.now.reduced.items }
    requires parts { ArePartsOf system.now.system own.now }
    requires basis { IsBasisFor system.now.system group.now.basis own.now.law basis.now }
    ensures { IfHolds result (LawHolds system.now.system (law_of own.now.law)) }
{
    let fs = law_polynomials(system, own.law);
    let vars = polynomial_variables(system, own.law);
    match holds_at(alloc, &own.ring, vars, fs, &own.points, basis) {
        Ok(hold) => Ok(hold),
        Err(RingFault::Degree { .. }) => Ok(false),
        Err(RingFault::NoMemory) => Err(NoMemory),
    }
}

// Whether a law is found to hold.
fn law_holds(
    alloc: Global,
    system: &System,
    group: &GroupBasis,
    places: &[usize],
    law: LawName,
) -> Result<bool, NoMemory>
    requires system { IsSystem system.now.system }
    requires group { IsGroupBasis system.now.system group.now.basis group.now.reduced.items }
    requires inside { All (λ k. k < length group.now.basis.polys) places.now }
    requires kept { AreGroupPlaces system.now.system group.now.basis places.now }
    ensures { IfHolds result (LawHolds system.now.system (law_of law)) }
{
    let from = PolyRing::new(system.field, system.group.len());
    let own = parts_of(alloc, system, law)?;
    let copies = law.copies();
    let basis = copied_basis(alloc, &from, &group.basis.polys, places, &own.ring, copies)?;
    let hold = parts_hold(alloc, system, group, &own, &basis)?;
    Ok(hold)
}

/// Whether all laws are found to hold. Where the answer is no, `test_laws` says whether they do.
pub fn laws_hold(alloc: Global, system: &System, group: &GroupBasis) -> Result<bool, NoMemory>
    requires system { IsSystem system.now.system }
    requires group { IsGroupBasis system.now.system group.now.basis group.now.reduced.items }
    ensures { IfHolds result (AllLawsHold system.now.system) }
{
    let ring = PolyRing::new(system.field, system.group.len());
    let places = kept_places(&ring, alloc, &group.basis.polys, &Grevlex)?;
    'laws: for k in 0..LAWS.len() {
        let holds = law_holds(alloc, system, group, &places, LAWS[k])?;
        if !holds {
            return Ok(false);
        }
    }
    Ok(true)
}
