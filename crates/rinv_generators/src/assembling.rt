//! Generators of what was found for a system already.

ghost use Rattle.std.specs.Prelude.{◌≡◌, map, All, IfOk, IfErr};
ghost use Rattle.rinv_defs.specs.System.{space_count};
ghost use Rattle.rinv_defs.specs.SystemForm.{IsSystem};
ghost use Rattle.rinv_defs.specs.Laws.{AllLawsHold};
ghost use Rattle.rinv_defs.specs.Extended.{Misses};
ghost use Rattle.rinv_tails.specs.Stored.{IsStoredRelation};
ghost use Rattle.rinv_laws.specs.Group.{IsGroupBasis};
ghost use Rattle.rinv_action.specs.Action.{IsActionBasis};
ghost use Rattle.rinv_coefficients.specs.Coefficients.{IsOrderedBasis};
ghost use Rattle.rinv_generators.specs.Generated.{IsGenerators, ProveLaws};
ghost use Rattle.rinv_generators.specs.Made.{AreNumbered, IsAssembled, laws_of, AreProofs};
ghost use Rattle.rinv_generators.specs.Proving.{AssemblyStopsSo};

use crate::kinds::Generators;
use crate::making::{Made, with_system};
use crate::proving::{generator_proofs, halted, joined};
use rinv_buch::Entry;
use rinv_buch::kinds::Basis;
use rinv_frac::{Frac, FracRing};
use rinv_gens::{GenStop, Numbered, Phase, Relation, number_coefficients};
use rinv_laws::{GroupBasis, LawProofs};
use rinv_poly::{KPoly, PolyRing};
use rinv_ring::{Gf, RingFault};
use rinv_tails::Monic;
use rinv_text::System;
use std::alloc::Global;

/// What is made of relations.
#[derive(Drop)]
pub(crate) struct Assembled {
    pub(crate) relations: Vec<Relation>,
    pub(crate) fractions: Vec<Frac>,
    pub(crate) proofs: Vec<Vec<KPoly>>,
    pub(crate) journal: Vec<Entry>,
}

/// The generators by what was found for the system, with or without a section: the coefficients of the relations are numbered, and proved to
/// be invariant. Incomplete comes in the last phase alone, for degrees that the numbering or a proof meets, with the entries of both runs;
/// Law and Missed never come. The system is handed back.
pub fn assemble(
    alloc: Global,
    system: System,
    group: GroupBasis,
    laws: LawProofs,
    action: Basis<Gf>,
    monic: Monic,
) -> Result<Generators, (System, GenStop)>
    requires system { IsSystem system.system }
    requires group { IsGroupBasis system.system group.basis group.reduced.items }
    requires hold { AllLawsHold system.system }
    requires laws { ProveLaws system.system group.basis (laws_of laws) }
    requires action { IsActionBasis system.system action }
    requires met { ¬ (Misses system.system) }
    requires monic { IsOrderedBasis system.system monic }
    requires stored { All (IsStoredRelation system.system.p (space_count system.system)) monic }
    ensures generators { IfOk result IsGenerators }
    ensures parts { IfOk result (λ g. (g.told ≡ system) × (g.group ≡ group.basis) × (g.action ≡ action) × (g.monic ≡ monic)) }
    ensures handed_back { IfErr result (λ e. e.0 ≡ system) }
    ensures stop { IfErr result (λ e. AssemblyStopsSo system.system group.basis action monic e.1) }
{
    match rest_of(alloc, &system, &group, &action, &monic) {
        Ok(rest) => {
            let Assembled {
                relations,
                fractions,
                proofs,
                journal,
            } = rest;
            let made = Made {
                group,
                laws,
                action,
                monic,
                relations,
                fractions,
                proofs,
                journal,
            };
            Ok(with_system(system, made))
        }
        Err(stop) => Err((system, stop)),
    }
}

// The coefficients numbered, the proofs, and the journal of both runs.
fn rest_of(
    alloc: Global,
    system: &System,
    group: &GroupBasis,
    action: &Basis<Gf>,
    monic: &Monic,
) -> Result<Assembled, GenStop>
    requires system { IsSystem system.now.system }
    requires group { IsGroupBasis system.now.system group.now.basis group.now.reduced.items }
    requires hold { AllLawsHold system.now.system }
    requires monic { IsOrderedBasis system.now.system monic.now }
    requires stored { All (IsStoredRelation system.now.system.p (space_count system.now.system)) monic.now }
    ensures assembled { IfOk result (IsAssembled system.now.system group.now.basis action.now monic.now) }
    ensures stop { IfErr result (AssemblyStopsSo system.now.system group.now.basis action.now monic.now) }
{
    let numbered = numbered_of(alloc, system, group, action, monic)?;
    let proofs = proofs_of(alloc, system, group, action, monic, &numbered)?;
    let journal = joined(alloc, group, action)?;
    let Numbered {
        relations,
        fractions,
    } = numbered;
    Ok(Assembled {
        relations,
        fractions,
        proofs,
        journal,
    })
}

// The coefficients of the relations numbered, or a halt in the last phase.
fn numbered_of(
    alloc: Global,
    system: &System,
    group: &GroupBasis,
    action: &Basis<Gf>,
    monic: &Monic,
) -> Result<Numbered, GenStop>
    requires { All (IsStoredRelation system.now.system.p (space_count system.now.system)) monic.now }
    ensures numbered { IfOk result (λ n. AreNumbered system.now.system monic.now n.relations.items n.fractions.items) }
    ensures stop { IfErr result (AssemblyStopsSo system.now.system group.now.basis action.now monic.now) }
{
    let ring = PolyRing::new(system.field, system.space.len());
    let field = FracRing::new(ring);
    match number_coefficients(&field, alloc, monic) {
        Ok(numbered) => Ok(numbered),
        Err(RingFault::Degree { left, right }) => {
            Err(halted(alloc, group, action, Phase::Tail, left, right))
        }
        Err(RingFault::NoMemory) => Err(GenStop::NoMemory),
    }
}

// The proofs that the generators are invariant.
fn proofs_of(
    alloc: Global,
    system: &System,
    group: &GroupBasis,
    action: &Basis<Gf>,
    monic: &Monic,
    numbered: &Numbered,
) -> Result<Vec<Vec<KPoly>>, GenStop>
    requires system { IsSystem system.now.system }
    requires group { IsGroupBasis system.now.system group.now.basis group.now.reduced.items }
    requires hold { AllLawsHold system.now.system }
    requires monic { IsOrderedBasis system.now.system monic.now }
    requires numbered { AreNumbered system.now.system monic.now numbered.now.relations.items numbered.now.fractions.items }
    ensures proofs { IfOk result (λ r. AreProofs system.now.system group.now numbered.now.fractions.items (map (λ us. us.items) r.items)) }
    ensures stop { IfErr result (AssemblyStopsSo system.now.system group.now.basis action.now monic.now) }
{
    match generator_proofs(alloc, system, group, action, &numbered.fractions) {
        Ok(proofs) => Ok(proofs),
        Err(stop) => Err(stop),
    }
}
