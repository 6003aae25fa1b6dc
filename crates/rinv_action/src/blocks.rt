//! The ring of the action's ideal, whose variables are the group's, then Z, then the space's; and the order that eliminates them in turn.

ghost use Rattle.std.specs.Prelude.{◌≡◌, IfOk};
ghost use Rattle.rinv_defs.specs.SystemForm.{IsSystem};
ghost use Rattle.rinv_algebra.specs.BlockEnds.{sizes_from, last_from};
ghost use Rattle.rinv_algebra.specs.Order.{block_order};
ghost use Rattle.rinv_defs.specs.PairConditions.{action_order};
ghost use Rattle.rinv_reduction.specs.Localised.{all_count};

use rinv_mono::Blocks;
use rinv_poly::PolyRing;
use rinv_ring::{Gf, NoMemory};
use rinv_text::System;
use std::alloc::Global;

/// The ring in all variables.
pub fn action_ring(system: &System) -> PolyRing<Gf>
    requires { IsSystem system.now.system }
    ensures field { result.coeffs ≡ system.now.system.p }
    ensures vars { result.vars ≡ all_count system.now.system }
{
    let group = system.group.len();
    let space = system.space.len();
    PolyRing::new(system.field, group + 2 * space)
}

/// The order in which first the group's variables decide, then Z, then the space's.
pub fn action_order(alloc: Global, system: &System) -> Result<Blocks, NoMemory>
    requires { IsSystem system.now.system }
    ensures order { IfOk result (λ ends. block_order (sizes_from 0 ends) ≡ action_order system.now.system) }
    ensures suits { IfOk result (λ ends. all_count system.now.system ≡ last_from 0 ends) }
{
    let group = system.group.len();
    let space = system.space.len();
    let ends = vec![in alloc; group, group + space, group + 2 * space]?;
    Ok(Blocks::new(ends))
}
