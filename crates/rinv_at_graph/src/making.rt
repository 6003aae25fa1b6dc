//! The making of what the cofactors of values at Z = g are made of.

ghost use Rattle.std.specs.Prelude.{IfOk, IfErr};
ghost use Rattle.rinv_defs.specs.SystemForm.{IsSystem};
ghost use Rattle.rinv_defs.specs.Conditions.{graph_point};
ghost use Rattle.rinv_ring.specs.Fault.{DegreesMeet};
ghost use Rattle.rinv_parts.specs.Points.{AreStored};
ghost use Rattle.rinv_laws.specs.Group.{IsGroupBasis};
ghost use Rattle.rinv_laws.specs.Proofs.{BasisMeets};
ghost use Rattle.rinv_change.specs.Asked.{IsChangeRing};
ghost use Rattle.rinv_change.specs.Changes.{change_count};
ghost use Rattle.rinv_at_graph.specs.Grounds.{IsGround};

use crate::ground::Ground;
use crate::point::graph_point;
use rinv_action::action_ring;
use rinv_change::{change_ring, kept_basis, kept_cofactors};
use rinv_identities::widened_ideal;
use rinv_laws::GroupBasis;
use rinv_poly::{KPoly, PolyRing};
use rinv_ring::{Gf, NoMemory, RingFault};
use rinv_text::System;
use std::alloc::Global;

// What stands for the variables.
fn point_of(alloc: Global, system: &System, whole: &PolyRing<Gf>) -> Result<Vec<KPoly>, NoMemory>
    requires { IsChangeRing system.now.system whole.now.coeffs whole.now.vars }
    ensures { IfOk result (λ r. AreStored system.now.system.p (change_count system.now.system) (graph_point system.now.system) r.items) }
{
    let group = system.group.len();
    let space = system.space.len();
    let point = graph_point(alloc, group, space, whole, &system.action)?;
    Ok(point)
}

// The group's ideal, in the variables of a change.
fn ideal_of(alloc: Global, system: &System, whole: &PolyRing<Gf>) -> Result<Vec<KPoly>, NoMemory>
    requires { IsChangeRing system.now.system whole.now.coeffs whole.now.vars }
    ensures { IfOk result (λ r. AreStored system.now.system.p (change_count system.now.system) system.now.system.ideal r.items) }
{
    let from = PolyRing::new(system.field, system.group.len());
    let ideal = widened_ideal(alloc, &from, &system.ideal, whole)?;
    Ok(ideal)
}

/// That of a system and the basis of its group's ideal. Degree comes only where the making of the cofactors of the basis meets these degrees.
pub fn ground_of(alloc: Global, system: &System, group: &GroupBasis) -> Result<Ground, RingFault>
    requires system { IsSystem system.now.system }
    requires group { IsGroupBasis system.now.system group.now.basis group.now.reduced.items }
    ensures ground { IfOk result (IsGround system.now.system group.now.basis) }
    ensures degree { IfErr result (DegreesMeet (BasisMeets system.now.system group.now.basis)) }
{
    let ring = action_ring(system);
    let whole = change_ring(system);
    let cofactors = kept_cofactors(alloc, system, group)?;
    let basis = kept_basis(alloc, system, group, &whole)?;
    let point = point_of(alloc, system, &whole)?;
    let ideal = ideal_of(alloc, system, &whole)?;
    Ok(Ground {
        ring,
        whole,
        point,
        ideal,
        basis,
        cofactors,
    })
}
