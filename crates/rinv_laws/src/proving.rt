//! The proofs of the laws: cofactors of each part over the copies of the group's ideal.

ghost use Rattle.std.specs.Prelude.{◌≡◌, ◌<◌, ◌*◌, ℕ, [], length, get_or, map, false, All, IfOk, IfErr, OnOk};
ghost use Rattle.rinv_algebra.specs.Residue.{residue_ops};
ghost use Rattle.rinv_algebra.specs.Order.{grevlex};
ghost use Rattle.rinv_defs.specs.SystemForm.{IsSystem};
ghost use Rattle.rinv_defs.specs.Laws.{AllLawsHold, copies};
ghost use Rattle.rinv_ring.specs.Fault.{DegreesMeet};
ghost use Rattle.rinv_parts.specs.LawNames.{law_of, rank};
ghost use Rattle.rinv_laws.specs.Group.{IsGroupBasis};
ghost use Rattle.rinv_sub.specs.Refusal.{never};
ghost use Rattle.rinv_laws.specs.Copied.{AreAllQuotients};
ghost use Rattle.rinv_laws.specs.Proofs.{BasisMeets, proved_laws, ProofsMeet};
ghost use Rattle.rinv_laws.specs.Lists.{AreInGroup, AreInLaw, AreSoMany, AreGroupCofactors, AreLawCofactors, MakingFaults, AreLawProofs};
ghost use Rattle.rinv_laws.specs.Ready.{StopsCheck};

use crate::cofactors::{cofactors_in_copies, lists_in_copies};
use crate::group::GroupBasis;
use crate::stop::LawStop;
use crate::testing::{LawQuotients, test_laws};
use rinv_buch::kept_places;
use rinv_cofactors::combinations;
use rinv_mono::Grevlex;
use rinv_parts::{LawName, variables_of};
use rinv_poly::{KPoly, PolyRing};
use rinv_ring::RingFault;
use rinv_text::System;
use std::alloc::Global;

/// For each of the laws L2, L3, L4, L5, L6 and A2, in this order, a list for each part: its cofactors over the copies of the group's ideal,
/// those in the first copy of the group's variables first.
#[derive(Drop)]
pub struct LawProofs {
    pub cofactors: Vec<(LawName, Vec<Vec<KPoly>>)>,
}

/// Tests the laws, and proves each of them by cofactors. Fault comes exactly where a part is false, at the first; Degree only where the test
/// or the making of the cofactors meets these degrees.
pub fn check_laws(alloc: Global, system: &System, group: &GroupBasis) -> Result<LawProofs, LawStop>
    requires system { IsSystem system.now.system }
    requires group { IsGroupBasis system.now.system group.now.basis group.now.reduced.items }
    ensures hold { OnOk result (AllLawsHold system.now.system) }
    ensures laws { IfOk result (λ p. map (λ e. law_of e.0) p.cofactors.items ≡ proved_laws) }
    ensures proofs { IfOk result (λ p. AreLawProofs system.now.system group.now.basis p.cofactors.items) }
    ensures stop { IfErr result (StopsCheck system.now.system group.now.basis) }
{
    let quotients = test_laws(alloc, system, group)?;
    match proofs_of(alloc, system, group, &quotients) {
        Ok(cofactors) => Ok(LawProofs { cofactors }),
        Err(RingFault::NoMemory) => Err(LawStop::NoMemory),
        Err(RingFault::Degree { left, right }) => Err(LawStop::Degree { left, right }),
    }
}

// The proofs of the laws by these quotients.
fn proofs_of(
    alloc: Global,
    system: &System,
    group: &GroupBasis,
    quotients: &LawQuotients,
) -> Result<Vec<(LawName, Vec<Vec<KPoly>>)>, RingFault>
    requires system { IsSystem system.now.system }
    requires group { IsGroupBasis system.now.system group.now.basis group.now.reduced.items }
    requires hold { AllLawsHold system.now.system }
    requires quotients { AreAllQuotients system.now.system group.now.basis quotients.now }
    ensures laws { IfOk result (λ p. map (λ e. law_of e.0) p.items ≡ proved_laws) }
    ensures proofs { IfOk result (λ p. AreLawProofs system.now.system group.now.basis p.items) }
    ensures degree { IfErr result (DegreesMeet (ProofsMeet system.now.system group.now.basis)) }
{
    let (lists, places) = kept_cofactors(alloc, system, group)?;
    let mut proofs = Vec::with_capacity(alloc, 6)?;
    'laws: for k in 0..6usize {
        let (law, place) = proved_law(k);
        let own = quotients_at(quotients, place);
        let arrays = cofactors_of_law(alloc, system, &lists, &places, law, own)?;
        proofs.push((law, arrays))?;
    }
    Ok(proofs)
}

// The law at a place among those that are proved, and its place among those that are tested.
fn proved_law(k: usize) -> (LawName, usize)
    requires { k < 6 }
    ensures law { law_of result.0 ≡ get_or proved_laws k (law_of result.0) }
    ensures place { result.1 ≡ rank (law_of result.0) }
{
    match k {
        0 => (LawName::L2, 1),
        1 => (LawName::L3, 2),
        2 => (LawName::L4, 3),
        3 => (LawName::L5, 4),
        4 => (LawName::L6, 5),
        _ => (LawName::A2, 7),
    }
}

// The quotients of the parts of a law, by its place among those that are tested.
fn quotients_at(quotients: &LawQuotients, place: usize) -> &[Vec<KPoly>]
    requires { place < length quotients.now }
    ensures { map (λ qs. qs.items) result.now ≡ get_or quotients.now place [] }
{
    &quotients.lists[place]
}

// The cofactors of the elements of the group's basis over the group's ideal, and the places of the kept elements.
fn kept_cofactors(
    alloc: Global,
    system: &System,
    group: &GroupBasis,
) -> Result<(Vec<Vec<KPoly>>, Vec<usize>), RingFault>
    requires system { IsSystem system.now.system }
    requires group { IsGroupBasis system.now.system group.now.basis group.now.reduced.items }
    ensures lengths { IfOk result (λ r. AreSoMany (length system.now.system.ideal) r.0.items) }
    ensures normal { IfOk result (λ r. AreInGroup system.now.system r.0.items) }
    ensures inside { IfOk result (λ r. All (λ k. k < length r.0.items) r.1.items) }
    ensures cofactors { IfOk result (AreGroupCofactors system.now.system group.now.basis) }
    ensures degree { IfErr result (DegreesMeet (BasisMeets system.now.system group.now.basis)) }
{
    let ring = PolyRing::new(system.field, system.group.len());
    let found = &group.basis;
    let lists = combinations(&ring, alloc, &system.ideal, found, &Grevlex)?;
    let places = kept_places(&ring, alloc, &found.polys, &Grevlex)?;
    Ok((lists, places))
}

// For each part of the law, given by the quotients of its division, its cofactors over the copies of the group's ideal.
fn cofactors_of_law(
    alloc: Global,
    system: &System,
    lists: &[Vec<KPoly>],
    places: &[usize],
    law: LawName,
    quotients: &[Vec<KPoly>],
) -> Result<Vec<Vec<KPoly>>, RingFault>
    requires system { IsSystem system.now.system }
    requires lists { AreInGroup system.now.system lists.now }
    requires lengths { AreSoMany (length system.now.system.ideal) lists.now }
    requires places { All (λ k. k < length lists.now) places.now }
    requires many { AreSoMany (copies (law_of law) * length places.now) quotients.now }
    requires quotients { AreInLaw system.now.system law quotients.now }
    ensures cofactors { IfOk result (AreLawCofactors system.now.system law lists.now places.now quotients.now) }
    ensures degree { IfErr result (MakingFaults system.now.system law lists.now places.now quotients.now) }
{
    let from = PolyRing::new(system.field, system.group.len());
    let ring = PolyRing::new(system.field, variables_of(system, law));
    let copied = lists_in_copies(alloc, &from, lists, places, &ring, law.copies())?;
    let (kept, count) = (places.len(), system.ideal.len());
    let mut arrays = Vec::with_capacity(alloc, quotients.len())?;
    'parts: for k in 0..quotients.len() {
        let array = cofactors_in_copies(alloc, &ring, &quotients[k], &copied, kept, count)?;
        arrays.push(array)?;
    }
    Ok(arrays)
}
