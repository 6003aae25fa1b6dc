//! All that is made for a system on the way to its generators.

ghost use Rattle.std.specs.Prelude.{◌≡◌, map, IfOk, IfErr};
ghost use Rattle.rinv_defs.specs.SystemForm.{IsSystem};
ghost use Rattle.rinv_text.specs.Told.{Told};
ghost use Rattle.rinv_gens.specs.Found.{ArePieces};
ghost use Rattle.rinv_gens.specs.Runs.{BothEnd};
ghost use Rattle.rinv_generators.specs.Generated.{IsGenerators, ProveLaws};
ghost use Rattle.rinv_generators.specs.Made.{generated_of, laws_of, AreProofsFor, MakesGenerators};
ghost use Rattle.rinv_generators.specs.Stops.{StopsSo};

use crate::kinds::Generators;
use crate::proving::{generator_proofs, halted, joined};
use rinv_buch::Entry;
use rinv_buch::kinds::Basis;
use rinv_frac::Frac;
use rinv_gens::{Findings, GenStop, Phase, Relation, pieces};
use rinv_laws::{GroupBasis, LawProofs, LawStop, check_laws};
use rinv_poly::KPoly;
use rinv_ring::Gf;
use rinv_tails::Monic;
use rinv_text::System;
use std::alloc::Global;

/// What stands beside the system in `Generators`.
#[derive(Drop)]
pub(crate) struct Made {
    pub(crate) group: GroupBasis,
    pub(crate) laws: LawProofs,
    pub(crate) action: Basis<Gf>,
    pub(crate) monic: Monic,
    pub(crate) relations: Vec<Relation>,
    pub(crate) fractions: Vec<Frac>,
    pub(crate) proofs: Vec<Vec<KPoly>>,
    pub(crate) journal: Vec<Entry>,
}

/// All that is made for a system, with or without a section.
pub(crate) fn made_for(alloc: Global, system: &System) -> Result<Made, GenStop>
    requires { IsSystem system.now.system }
    ensures made { IfOk result (λ m. IsGenerators (generated_of system.now m)) }
    ensures ends { IfOk result (λ m. BothEnd system.now m.group.basis m.action) }
    ensures stop { IfErr result (StopsSo system.now) }
{
    let found = found_for(alloc, system)?;
    let laws = law_proofs(alloc, system, &found)?;
    let proofs = proofs_of(alloc, system, &found)?;
    let journal = joined(alloc, &found.group, &found.action)?;
    Ok(put_together(found, laws, proofs, journal))
}

// What is found without proofs.
fn found_for(alloc: Global, system: &System) -> Result<Findings, GenStop>
    requires { IsSystem system.now.system }
    ensures pieces { IfOk result (ArePieces system.now) }
    ensures stop { IfErr result (StopsSo system.now) }
{
    match pieces(alloc, system) {
        Ok(found) => Ok(found),
        Err(stop) => Err(stop),
    }
}

// The proofs of the laws.
fn law_proofs(alloc: Global, system: &System, found: &Findings) -> Result<LawProofs, GenStop>
    requires system { IsSystem system.now.system }
    requires pieces { ArePieces system.now found.now }
    ensures proofs { IfOk result (λ l. ProveLaws system.now.system found.now.group.basis (laws_of l)) }
    ensures stop { IfErr result (StopsSo system.now) }
{
    match check_laws(alloc, system, &found.group) {
        Ok(laws) => Ok(laws),
        Err(LawStop::Fault(fault)) => Err(GenStop::Law(fault)),
        Err(LawStop::Degree { left, right }) => {
            let phase = Phase::Laws;
            Err(halted(alloc, &found.group, &found.action, phase, left, right))
        }
        Err(LawStop::NoMemory) => Err(GenStop::NoMemory),
    }
}

// The proofs that the generators are invariant.
fn proofs_of(alloc: Global, system: &System, found: &Findings) -> Result<Vec<Vec<KPoly>>, GenStop>
    requires system { IsSystem system.now.system }
    requires pieces { ArePieces system.now found.now }
    ensures proofs { IfOk result (λ r. AreProofsFor system.now.system found.now (map (λ us. us.items) r.items)) }
    ensures stop { IfErr result (StopsSo system.now) }
{
    match generator_proofs(alloc, system, &found.group, &found.action, &found.fractions) {
        Ok(proofs) => Ok(proofs),
        Err(stop) => Err(stop),
    }
}

// All that was made.
fn put_together(
    found: Findings,
    laws: LawProofs,
    proofs: Vec<Vec<KPoly>>,
    journal: Vec<Entry>,
) -> Made
    ensures group { result.group ≡ found.group }
    ensures action { result.action ≡ found.action }
    ensures generated { (told : Told) → MakesGenerators told found laws (map (λ us. us.items) proofs.items) journal.items result }
{
    let Findings {
        group,
        action,
        monic,
        relations,
        fractions,
    } = found;
    Made {
        group,
        laws,
        action,
        monic,
        relations,
        fractions,
        proofs,
        journal,
    }
}

/// The system with what is made for it.
pub(crate) fn with_system(system: System, made: Made) -> Generators
    requires { IsGenerators (generated_of system made) }
    ensures { result ≡ generated_of system made }
{
    let Made {
        group,
        laws,
        action,
        monic,
        relations,
        fractions,
        proofs,
        journal,
    } = made;
    Generators {
        system,
        group,
        laws,
        action,
        monic,
        relations,
        fractions,
        proofs,
        journal,
    }
}
