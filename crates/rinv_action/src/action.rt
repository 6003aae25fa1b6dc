//! The run on the action's ideal.

ghost use Rattle.std.specs.Prelude.{IfOk, IfErr};
ghost use Rattle.rinv_defs.specs.SystemForm.{IsSystem};
ghost use Rattle.rinv_buch.specs.Causes.{StopsSo};
ghost use Rattle.rinv_buch.specs.Spent.{IsKept, KeepsLimits, SpendsOn};
ghost use Rattle.rinv_action.specs.Action.{IsActionBasis, HaltsInAction};

use crate::blocks::{action_order, action_ring};
use crate::inputs::action_ideal;
use rinv_buch::kinds::Basis;
use rinv_buch::{Stop, basis_by};
use rinv_div::Budget;
use rinv_mono::DegreeFrom;
use rinv_ring::Gf;
use rinv_text::System;
use std::alloc::Global;

/// The Gröbner basis of the group's ideal, the graph and the section, in the order that eliminates the group's variables, then Z. Pairs come
/// by the degree of their least common multiples in Z and the space's variables: whatever has few of these ends the run sooner.
pub fn action_basis(
    alloc: Global,
    system: &System,
    budget: &mut Budget,
) -> Result<Basis<Gf>, Stop<Gf>>
    requires system { IsSystem system.now.system }
    requires within { IsKept budget.old }
    ensures basis { IfOk result (IsActionBasis system.now.system) }
    ensures spent { IfOk result (λ b. SpendsOn b.journal 0 budget.old budget.new) }
    ensures stop { IfErr result (StopsSo (HaltsInAction system.now.system budget.old budget.new)) }
    ensures limits { KeepsLimits budget.old budget.new }
    ensures still_within { IsKept budget.new }
{
    let _pairs = budget.pairs_spent;
    let _steps = budget.steps_spent;
    let ring = action_ring(system);
    let order = action_order(alloc, system)?;
    let given = action_ideal(alloc, system, &ring)?;
    let selection = DegreeFrom::new(system.group.len());
    let found = basis_by(&ring, alloc, &given, &order, &selection, budget)?;
    Ok(found)
}
