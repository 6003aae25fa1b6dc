//! Whether the proofs of the laws multiply out within the limit on degrees.

ghost use Rattle.std.specs.Prelude.{◌≡◌, ◌<◌, length, map, true, All, IfErr, IfOk, OnOk};
ghost use Rattle.rinv_defs.specs.SystemForm.{IsSystem};
ghost use Rattle.rinv_defs.specs.Conditions.{law_fits};
ghost use Rattle.rinv_ring.specs.Fault.{DegreesMeet};
ghost use Rattle.rinv_parts.specs.LawNames.{law_of};
ghost use Rattle.rinv_parts.specs.Parts.{IsLawRing};
ghost use Rattle.rinv_certify.specs.Meets.{ArraysMeet, LawsMeet, PartsMeet};
ghost use Rattle.rinv_certify.specs.Parts.{AreCofactors, LawsFit, ProofFits};
ghost use Rattle.rinv_certify.specs.Stated.{AreCopiesStored, ArraysFit};

use rinv_fits::check_sums;
use rinv_generators::kinds::Generators;
use rinv_identities::copied_ideal;
use rinv_parts::{LawName, part_at, part_count, parts_of, variables_of};
use rinv_poly::{KPoly, PolyRing};
use rinv_ring::{Gf, NoMemory, RingFault};
use rinv_text::System;
use std::alloc::Global;

// All laws.
const LAWS: [LawName; 8] = [
    LawName::L1,
    LawName::L2,
    LawName::L3,
    LawName::L4,
    LawName::L5,
    LawName::L6,
    LawName::A1,
    LawName::A2,
];

// Makes each part of the law.
fn parts_fit(alloc: Global, system: &System, law: LawName) -> Result<(), RingFault>
    requires { IsSystem system.now.system }
    ensures fits { OnOk result (law_fits system.now.system (law_of law) ≡ true) }
    ensures degree { IfErr result (DegreesMeet (PartsMeet system.now.system (law_of law))) }
{
    let parts = parts_of(alloc, system, law)?;
    let count = part_count(system, law);
    'parts: for k in 0..count {
        part_at(alloc, system, &parts, k)?;
    }
    Ok(())
}

// The copies of the group's ideal in the variables of a law.
fn generators_of(
    alloc: Global,
    system: &System,
    law: LawName,
    ring: &PolyRing<Gf>,
) -> Result<Vec<KPoly>, NoMemory>
    requires { IsLawRing system.now.system (law_of law) ring.now.coeffs ring.now.vars }
    ensures { IfOk result (λ r. AreCopiesStored system.now.system (law_of law) r.items) }
{
    let group = PolyRing::new(system.field, system.group.len());
    let generators = copied_ideal(alloc, &group, &system.ideal, ring, law.copies())?;
    Ok(generators)
}

// Tests the products of cofactors of a law's parts and the copies of the group's ideal.
fn arrays_fit(
    alloc: Global,
    system: &System,
    law: LawName,
    arrays: &[Vec<KPoly>],
) -> Result<(), RingFault>
    requires system { IsSystem system.now.system }
    requires arrays { All (λ us. AreCofactors system.now.system (law_of law) us.items) arrays.now }
    ensures fits { OnOk result (ArraysFit system.now.system (law_of law) (map (λ us. us.items) arrays.now)) }
    ensures degree { IfErr result (DegreesMeet (ArraysMeet system.now.system (law_of law) (map (λ us. us.items) arrays.now))) }
{
    let ring = PolyRing::new(system.field, variables_of(system, law));
    let generators = generators_of(alloc, system, law, &ring)?;
    'arrays: for k in 0..arrays.len() {
        let cofactors = arrays[k].as_slice();
        check_sums(&ring, cofactors, &generators)?;
    }
    Ok(())
}

// Tests the products of the cofactors of the law that is proved at a place.
fn proof_fits(alloc: Global, gens: &Generators, k: usize) -> Result<(), RingFault>
    requires inside { k < length gens.now.laws }
    ensures fits { OnOk result (ProofFits gens.now k) }
    ensures degree { IfErr result (DegreesMeet (LawsMeet gens.now)) }
{
    let proofs = gens.laws.cofactors.as_slice();
    let (law, arrays) = &proofs[k];
    arrays_fit(alloc, &gens.system, *law, arrays)?;
    Ok(())
}

/// Forms each product that the laws ask for, and tests those of their cofactors. Degree comes only where one of them meets these degrees.
pub(crate) fn laws_fit(alloc: Global, gens: &Generators) -> Result<(), RingFault>
    ensures fits { OnOk result (LawsFit gens.now) }
    ensures degree { IfErr result (DegreesMeet (LawsMeet gens.now)) }
{
    let system = &gens.system;
    'laws: for k in 0..8usize {
        let law = LAWS[k];
        parts_fit(alloc, system, law)?;
    }
    let count = gens.laws.cofactors.len();
    'proofs: for k in 0..count {
        proof_fits(alloc, gens, k)?;
    }
    Ok(())
}
