//! The test of the laws, one after the other, part by part.

ghost use Rattle.std.specs.Prelude.{◌<◌, length, All, IfOk, IfErr, OnOk};
ghost use Rattle.rinv_groebner.specs.Reduced.{kept};
ghost use Rattle.rinv_defs.specs.SystemForm.{IsSystem};
ghost use Rattle.rinv_defs.specs.Laws.{AllLawsHold, LawHolds, parts};
ghost use Rattle.rinv_parts.specs.LawNames.{law_of};
ghost use Rattle.rinv_parts.specs.Parts.{ArePartsOf};
ghost use Rattle.rinv_parts.specs.Points.{ArePolynomials};
ghost use Rattle.rinv_laws.specs.Group.{IsGroupBasis};
ghost use Rattle.rinv_laws.specs.Copied.{AreAllQuotients};
ghost use Rattle.rinv_laws.specs.Faults.{HoldBefore, PartHolds};
ghost use Rattle.rinv_laws.specs.Tested.{FaultIn};
ghost use Rattle.rinv_poly.specs.Polynomials.{IsPolynomial};
ghost use Rattle.rinv_laws.specs.Lists.{IsInLaw, AreGroupPlaces, LeavesZero, AreLawQuotients};
ghost use Rattle.rinv_laws.specs.Ready.{HasDivisors, IsBasisFor, DividesWholly, StopsDivision, StopsPart, StopsTest};

use crate::copied::{CopiedBasis, copied_basis};
use crate::group::GroupBasis;
use crate::stop::{LawFault, LawStop};
use rinv_buch::kept_places;
use rinv_div::{Division, divide_wholly};
use rinv_mono::Grevlex;
use rinv_parts::{LawName, LawParts, part_at, part_count, parts_of};
use rinv_poly::{KPoly, PolyRing};
use rinv_ring::{Gf, Ring};
use rinv_text::System;
use std::alloc::Global;
use std::marker::Model;

/// The laws in the order in which they are tested.
pub(crate) const LAWS: [LawName; 8] = [
    LawName::L1,
    LawName::L2,
    LawName::L3,
    LawName::L4,
    LawName::L5,
    LawName::L6,
    LawName::A1,
    LawName::A2,
];

/// For each part of each law the quotients of its division by the kept elements of the group's basis, in the copies of the group's variables
/// of which the law speaks.
#[derive(Drop)]
pub struct LawQuotients {
    pub(crate) lists: Vec<Vec<Vec<KPoly>>>,
}

impl Model for LawQuotients {
    ghost use Rattle.std.specs.Prelude.{List, map};
    ghost use Rattle.rinv_defs.specs.System.{Poly};

    ghost Value = { List (List (List Poly)) };

    ghost view = { λ t. map (λ parts. map (λ qs. qs.items) parts.items) t.lists.items };
}

// The quotients of a part of the law by the basis, where its division leaves nothing.
fn divide_part(
    alloc: Global,
    ring: &PolyRing<Gf>,
    law: LawName,
    place: u32,
    part: &KPoly,
    basis: &CopiedBasis,
) -> Result<Vec<KPoly>, LawStop>
    requires part { IsPolynomial ring.now.coeffs ring.now.vars part.now }
    requires divisors { HasDivisors ring.now.coeffs ring.now.vars basis.now }
    ensures normal { IfOk result (λ qs. ArePolynomials ring.now.coeffs ring.now.vars qs.items) }
    ensures nothing { IfOk result (DividesWholly ring.now.coeffs basis.now part.now) }
    ensures fault { IfErr result (FaultIn ring.now.coeffs ring.now.vars) }
    ensures stop { IfErr result (StopsDivision ring.now.coeffs basis.now law place part.now) }
{
    let division = divide_wholly(ring, alloc, part, &basis.polys, &basis.divisors, &Grevlex)?;
    let Division { quotients, rest } = division;
    if ring.is_zero(&rest) {
        Ok(quotients)
    } else {
        Err(LawStop::Fault(LawFault {
            law,
            part: place,
            rest,
        }))
    }
}

// Makes a part of a law and divides it.
fn test_part(
    alloc: Global,
    system: &System,
    group: &GroupBasis,
    own: &LawParts,
    basis: &CopiedBasis,
    place: u32,
) -> Result<Vec<KPoly>, LawStop>
    requires group { IsGroupBasis system.now.system group.now.basis group.now.reduced.items }
    requires parts { ArePartsOf system.now.system own.now }
    requires basis { IsBasisFor system.now.system group.now.basis own.now.law basis.now }
    requires inside { place < length (parts system.now.system (law_of own.now.law)) }
    ensures normal { IfOk result (IsInLaw system.now.system own.now.law) }
    ensures holds { OnOk result (PartHolds system.now.system (law_of own.now.law) place) }
    ensures zero { IfOk result (LeavesZero system.now.system group.now.basis own.now.law place) }
    ensures stop { IfErr result (StopsPart system.now.system group.now.basis own.now.law place) }
{
    let part = part_at(alloc, system, own, place)?;
    divide_part(alloc, &own.ring, own.law, place, &part, basis)
}

// Tests the parts of a law in their order, where the laws before it hold.
fn test_parts(
    alloc: Global,
    system: &System,
    group: &GroupBasis,
    own: &LawParts,
    basis: &CopiedBasis,
) -> Result<Vec<Vec<KPoly>>, LawStop>
    requires group { IsGroupBasis system.now.system group.now.basis group.now.reduced.items }
    requires parts { ArePartsOf system.now.system own.now }
    requires basis { IsBasisFor system.now.system group.now.basis own.now.law basis.now }
    requires before { HoldBefore system.now.system (law_of own.now.law) }
    ensures holds { OnOk result (LawHolds system.now.system (law_of own.now.law)) }
    ensures quotients { IfOk result (AreLawQuotients system.now.system group.now.basis own.now.law) }
    ensures stop { IfErr result (StopsTest system.now.system group.now.basis) }
{
    let mut lists = Vec::new(alloc);
    'parts: for place in 0..part_count(system, own.law) {
        let quotients = test_part(alloc, system, group, own, basis, place)?;
        lists.push(quotients)?;
    }
    Ok(lists)
}

// Tests a law, those before which hold.
fn test_law(
    alloc: Global,
    system: &System,
    group: &GroupBasis,
    places: &[usize],
    law: LawName,
) -> Result<Vec<Vec<KPoly>>, LawStop>
    requires system { IsSystem system.now.system }
    requires group { IsGroupBasis system.now.system group.now.basis group.now.reduced.items }
    requires inside { All (λ k. k < length group.now.basis.polys) places.now }
    requires kept { AreGroupPlaces system.now.system group.now.basis places.now }
    requires before { HoldBefore system.now.system (law_of law) }
    ensures holds { OnOk result (LawHolds system.now.system (law_of law)) }
    ensures quotients { IfOk result (AreLawQuotients system.now.system group.now.basis law) }
    ensures stop { IfErr result (StopsTest system.now.system group.now.basis) }
{
    let from = PolyRing::new(system.field, system.group.len());
    let own = parts_of(alloc, system, law)?;
    let copies = law.copies();
    let basis = copied_basis(alloc, &from, &group.basis.polys, places, &own.ring, copies)?;
    test_parts(alloc, system, group, &own, &basis)
}

/// Tests the laws in their order, and each part by part, by division by the kept elements of the group's basis. Fault comes exactly where a
/// part is false, at the first; Degree only where all parts before one hold, and a substitution by which this one is made or its division
/// meets these degrees.
pub fn test_laws(
    alloc: Global,
    system: &System,
    group: &GroupBasis,
) -> Result<LawQuotients, LawStop>
    requires system { IsSystem system.now.system }
    requires group { IsGroupBasis system.now.system group.now.basis group.now.reduced.items }
    ensures hold { OnOk result (AllLawsHold system.now.system) }
    ensures quotients { IfOk result (AreAllQuotients system.now.system group.now.basis) }
    ensures stop { IfErr result (StopsTest system.now.system group.now.basis) }
{
    let ring = PolyRing::new(system.field, system.group.len());
    let places = kept_places(&ring, alloc, &group.basis.polys, &Grevlex)?;
    let mut lists = Vec::new(alloc);
    'laws: for k in 0..LAWS.len() {
        let quotients = test_law(alloc, system, group, &places, LAWS[k])?;
        lists.push(quotients)?;
    }
    Ok(LawQuotients { lists })
}
