//! The relations of the extended ideal and the generators, from the basis of the action's ideal.

ghost use Rattle.std.specs.Prelude.{◌≡◌, List, All, IfOk, IfErr};
ghost use Rattle.std.specs.List.{AllZip};
ghost use Rattle.rinv_defs.specs.System.{space_count};
ghost use Rattle.rinv_defs.specs.SystemForm.{IsSystem};
ghost use Rattle.rinv_defs.specs.Extended.{Misses};
ghost use Rattle.rinv_parts.specs.Points.{ArePolynomials};
ghost use Rattle.rinv_frac.specs.Fractions.{IsStored};
ghost use Rattle.rinv_reduction.specs.Localised.{IsCut, all_count};
ghost use Rattle.rinv_tails.specs.Stored.{IsStoredRelation};
ghost use Rattle.rinv_action.specs.Action.{IsActionBasis};
ghost use Rattle.rinv_coefficients.specs.Coefficients.{IsOrderedBasis, generators_of};
ghost use Rattle.rinv_coefficients.specs.Ties.{Ties};
ghost use Rattle.rinv_gens.specs.Relations.{AreReduced, AreUnreduced};
ghost use Rattle.rinv_gens.specs.Stopped.{RelationsStopSo};

use crate::numbering::{Numbered, number_coefficients};
use rinv_buch::kinds::Basis;
use rinv_elim::{ElimStop, eliminate, localise, reduce};
use rinv_frac::FracRing;
use rinv_poly::{KPoly, PolyRing};
use rinv_ring::{Gf, RingFault};
use rinv_tails::Monic;
use rinv_text::System;
use std::alloc::Global;

/// Why there are none.
#[derive(Drop)]
pub enum RelationStop {
    /// The section misses the orbits.
    Missed(KPoly),
    /// The elimination meets these degrees.
    InElimination { left: u32, right: u32 },
    /// The reduction of the tails or the numbering does.
    InTails { left: u32, right: u32 },
    NoMemory,
}

/// The reduced basis, and its coefficients numbered.
#[derive(Drop)]
pub(crate) struct Related {
    pub(crate) monic: Monic,
    pub(crate) numbered: Numbered,
}

// The elements of the reduced basis of the action's ideal that have none of the group's variables.
fn cut_of(alloc: Global, system: &System, action: &Basis<Gf>) -> Result<Vec<KPoly>, RelationStop>
    requires system { IsSystem system.now.system }
    requires action { IsActionBasis system.now.system action.now }
    ensures cut { IfOk result (λ v. IsCut system.now.system v.items) }
    ensures normal { IfOk result (λ v. ArePolynomials system.now.system.p (all_count system.now.system) v.items) }
    ensures stop { IfErr result (RelationsStopSo system.now.system action.now) }
{
    match eliminate(alloc, system, action) {
        Ok(cut) => Ok(cut),
        Err(RingFault::Degree { left, right }) => Err(RelationStop::InElimination { left, right }),
        Err(RingFault::NoMemory) => Err(RelationStop::NoMemory),
    }
}

// Their relations, and that nothing is missed.
fn unreduced(alloc: Global, system: &System, action: &Basis<Gf>) -> Result<Monic, RelationStop>
    requires system { IsSystem system.now.system }
    requires action { IsActionBasis system.now.system action.now }
    ensures relations { IfOk result (AreUnreduced system.now.system) }
    ensures met { IfOk result (λ _. ¬ (Misses system.now.system)) }
    ensures stop { IfErr result (RelationsStopSo system.now.system action.now) }
{
    let cut = cut_of(alloc, system, action)?;
    match localise(alloc, system, &cut) {
        Ok(relations) => Ok(relations),
        Err(ElimStop::Whole { element }) => Err(RelationStop::Missed(element)),
        Err(ElimStop::Degree { .. }) => unreachable!(),
        Err(ElimStop::NoMemory) => Err(RelationStop::NoMemory),
    }
}

// The reduced basis of the extended ideal.
fn reduced(alloc: Global, system: &System, action: &Basis<Gf>) -> Result<Monic, RelationStop>
    requires system { IsSystem system.now.system }
    requires action { IsActionBasis system.now.system action.now }
    ensures relations { IfOk result (AreReduced system.now.system) }
    ensures ordered { IfOk result (IsOrderedBasis system.now.system) }
    ensures stored { IfOk result (All (IsStoredRelation system.now.system.p (space_count system.now.system))) }
    ensures met { IfOk result (λ _. ¬ (Misses system.now.system)) }
    ensures stop { IfErr result (RelationsStopSo system.now.system action.now) }
{
    let relations = unreduced(alloc, system, action)?;
    match reduce(alloc, system, relations) {
        Ok(monic) => Ok(monic),
        Err(ElimStop::Whole { .. }) => unreachable!(),
        Err(ElimStop::Degree { left, right }) => Err(RelationStop::InTails { left, right }),
        Err(ElimStop::NoMemory) => Err(RelationStop::NoMemory),
    }
}

/// The reduced basis of the extended ideal with its coefficients numbered.
pub(crate) fn relate(
    alloc: Global,
    system: &System,
    action: &Basis<Gf>,
) -> Result<Related, RelationStop>
    requires system { IsSystem system.now.system }
    requires action { IsActionBasis system.now.system action.now }
    ensures met { IfOk result (λ _. ¬ (Misses system.now.system)) }
    ensures monic { IfOk result (λ r. IsOrderedBasis system.now.system r.monic) }
    ensures monic_stored { IfOk result (λ r. All (IsStoredRelation system.now.system.p (space_count system.now.system)) r.monic) }
    ensures fractions { IfOk result (λ r. r.numbered.fractions.items ≡ generators_of system.now.system.p r.monic) }
    ensures stored { IfOk result (λ r. All (IsStored system.now.system.p (space_count system.now.system)) r.numbered.fractions.items) }
    ensures relations { IfOk result (λ r. AllZip (Ties system.now.system.p r.numbered.fractions.items) r.numbered.relations.items r.monic) }
    ensures stop { IfErr result (RelationsStopSo system.now.system action.now) }
{
    let monic = reduced(alloc, system, action)?;
    let field = FracRing::new(PolyRing::new(system.field, system.space.len()));
    match number_coefficients(&field, alloc, &monic) {
        Ok(numbered) => Ok(Related { monic, numbered }),
        Err(RingFault::Degree { left, right }) => Err(RelationStop::InTails { left, right }),
        Err(RingFault::NoMemory) => Err(RelationStop::NoMemory),
    }
}
