//! Whether a fraction is invariant.

ghost use Rattle.std.specs.Prelude.{MatchOption, IfOk, IfErr};
ghost use Rattle.std.specs.Result.{MatchResult};
ghost use Rattle.rinv_defs.specs.System.{space_count};
ghost use Rattle.rinv_defs.specs.SystemForm.{IsSystem};
ghost use Rattle.rinv_defs.specs.Invariant.{IsInvariant};
ghost use Rattle.rinv_ring.specs.Fault.{DegreesMeet};
ghost use Rattle.rinv_frac.specs.Fractions.{IsStored};
ghost use Rattle.rinv_laws.specs.Group.{IsGroupBasis};
ghost use Rattle.rinv_change.specs.Changes.{ChangeMeets, IsStray};

use crate::asked::asked_of;
use rinv_div::remainder_wholly;
use rinv_frac::Frac;
use rinv_laws::GroupBasis;
use rinv_mono::Grevlex;
use rinv_poly::KPoly;
use rinv_ring::{Ring, RingFault};
use rinv_text::System;
use std::alloc::Global;

/// None exactly where the fraction is invariant, and else the normal form of its change modulo the group's ideal, in the group's and then
/// the space's variables. Degree comes only where the making of the change, or its division by the kept elements of the group's basis,
/// meets these degrees.
pub fn test_invariant(
    alloc: Global,
    system: &System,
    group: &GroupBasis,
    f: &Frac,
) -> Result<Option<KPoly>, RingFault>
    requires system { IsSystem system.now.system }
    requires group { IsGroupBasis system.now.system group.now.basis group.now.reduced.items }
    requires fraction { IsStored system.now.system.p (space_count system.now.system) f.now }
    ensures exact { IfOk result (λ r. MatchOption r (IsInvariant system.now.system f.now) (IsStray system.now.system f.now)) }
    ensures degree { IfErr result (DegreesMeet (ChangeMeets system.now.system group.now.basis f.now)) }
{
    let asked = asked_of(alloc, system, group, f)?;
    let basis = &asked.basis;
    let rest = remainder_wholly(
        &asked.ring,
        alloc,
        &asked.change,
        &basis.polys,
        &basis.divisors,
        &Grevlex,
    )?;
    if asked.ring.is_zero(&rest) {
        Ok(None)
    } else {
        Ok(Some(rest))
    }
}
