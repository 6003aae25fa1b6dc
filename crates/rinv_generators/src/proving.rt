//! The proofs that generators are invariant, and what is answered where they halt.

ghost use Rattle.std.specs.Prelude.{◌≡◌, ◌++◌, map, All, IfOk, IfErr};
ghost use Rattle.rinv_defs.specs.System.{space_count};
ghost use Rattle.rinv_defs.specs.SystemForm.{IsSystem};
ghost use Rattle.rinv_defs.specs.Invariant.{IsInvariant};
ghost use Rattle.rinv_ring.specs.Fault.{DegreesMeet};
ghost use Rattle.rinv_frac.specs.Fractions.{IsStored};
ghost use Rattle.rinv_buch.specs.Kinds.{journal_of};
ghost use Rattle.rinv_laws.specs.Group.{IsGroupBasis};
ghost use Rattle.rinv_generators.specs.Proving.{AreDegrees, FractionsMeet, HaltsAfter, InvarianceStopsSo};
ghost use Rattle.rinv_generators.specs.Made.{AreProofs};

use rinv_buch::kinds::Basis;
use rinv_buch::{Entry, Why};
use rinv_change::{invariance_proof, kept_cofactors};
use rinv_frac::Frac;
use rinv_gens::{GenStop, Phase};
use rinv_laws::GroupBasis;
use rinv_poly::KPoly;
use rinv_ring::{Gf, NoMemory, RingFault};
use rinv_text::System;
use std::alloc::Global;

/// The entries of both runs.
pub(crate) fn joined(
    alloc: Global,
    group: &GroupBasis,
    action: &Basis<Gf>,
) -> Result<Vec<Entry>, NoMemory>
    ensures { IfOk result (λ r. journal_of r.items ≡ group.now.basis.journal ++ action.now.journal) }
{
    let basis = &group.basis;
    let mut journal = basis.journal.as_slice().to_vec(alloc)?;
    let mut rest = action.journal.as_slice().to_vec(alloc)?;
    journal.append(&mut rest)?;
    Ok(journal)
}

/// A halt of the phase for these degrees, after both runs.
pub(crate) fn halted(
    alloc: Global,
    group: &GroupBasis,
    action: &Basis<Gf>,
    phase: Phase,
    left: u32,
    right: u32,
) -> GenStop
    ensures { HaltsAfter group.now.basis action.now phase (AreDegrees left right) result }
{
    match joined(alloc, group, action) {
        Ok(journal) => GenStop::Incomplete {
            phase,
            journal,
            why: Why::Degree { left, right },
        },
        Err(_) => GenStop::NoMemory,
    }
}

// For each fraction the cofactors of its change over the group's ideal. Those of the group's basis are made once, and not for no fraction.
fn invariance_proofs(
    alloc: Global,
    system: &System,
    group: &GroupBasis,
    fractions: &[Frac],
) -> Result<Vec<Vec<KPoly>>, RingFault>
    requires system { IsSystem system.now.system }
    requires group { IsGroupBasis system.now.system group.now.basis group.now.reduced.items }
    requires stored { All (IsStored system.now.system.p (space_count system.now.system)) fractions.now }
    requires invariant { All (IsInvariant system.now.system) fractions.now }
    ensures proofs { IfOk result (λ r. AreProofs system.now.system group.now fractions.now (map (λ us. us.items) r.items)) }
    ensures degree { IfErr result (DegreesMeet (FractionsMeet system.now.system group.now.basis fractions.now)) }
{
    let mut proofs = Vec::with_capacity(alloc, fractions.len())?;
    if fractions.is_empty() {
        return Ok(proofs);
    }
    let cofactors = kept_cofactors(alloc, system, group)?;
    'fractions: for k in 0..fractions.len() {
        let fraction = &fractions[k];
        let proof = invariance_proof(alloc, system, group, &cofactors, fraction)?;
        proofs.push(proof)?;
    }
    Ok(proofs)
}

/// The proofs that the generators are invariant, or a halt in the last phase.
pub(crate) fn generator_proofs(
    alloc: Global,
    system: &System,
    group: &GroupBasis,
    action: &Basis<Gf>,
    fractions: &[Frac],
) -> Result<Vec<Vec<KPoly>>, GenStop>
    requires system { IsSystem system.now.system }
    requires group { IsGroupBasis system.now.system group.now.basis group.now.reduced.items }
    requires stored { All (IsStored system.now.system.p (space_count system.now.system)) fractions.now }
    requires invariant { All (IsInvariant system.now.system) fractions.now }
    ensures proofs { IfOk result (λ r. AreProofs system.now.system group.now fractions.now (map (λ us. us.items) r.items)) }
    ensures stop { IfErr result (InvarianceStopsSo system.now.system group.now.basis action.now fractions.now) }
{
    match invariance_proofs(alloc, system, group, fractions) {
        Ok(proofs) => Ok(proofs),
        Err(RingFault::Degree { left, right }) => {
            Err(halted(alloc, group, action, Phase::Tail, left, right))
        }
        Err(RingFault::NoMemory) => Err(GenStop::NoMemory),
    }
}
