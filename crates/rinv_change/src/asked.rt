//! What the test of a fraction is made of.

ghost use Rattle.std.specs.Result.{MatchResult};
ghost use Rattle.rinv_defs.specs.System.{space_count};
ghost use Rattle.rinv_defs.specs.SystemForm.{IsSystem};
ghost use Rattle.rinv_ring.specs.Fault.{DegreesMeet};
ghost use Rattle.rinv_frac.specs.Fractions.{IsStored};
ghost use Rattle.rinv_laws.specs.Group.{IsGroupBasis};
ghost use Rattle.rinv_change.specs.Asked.{IsAsked};
ghost use Rattle.rinv_change.specs.Changes.{ChangingMeets};

use crate::changing::{change_of, change_ring};
use crate::kept::{KeptBasis, kept_basis};
use rinv_frac::Frac;
use rinv_laws::GroupBasis;
use rinv_poly::{KPoly, PolyRing};
use rinv_ring::{Gf, RingFault};
use rinv_text::System;
use std::alloc::Global;

/// The ring of changes, a change, and the kept elements of the group's basis.
#[derive(Drop)]
pub(crate) struct Asked {
    pub(crate) ring: PolyRing<Gf>,
    pub(crate) change: KPoly,
    pub(crate) basis: KeptBasis,
}

/// Those of the fraction.
pub(crate) fn asked_of(
    alloc: Global,
    system: &System,
    group: &GroupBasis,
    f: &Frac,
) -> Result<Asked, RingFault>
    requires system { IsSystem system.now.system }
    requires group { IsGroupBasis system.now.system group.now.basis group.now.reduced.items }
    requires fraction { IsStored system.now.system.p (space_count system.now.system) f.now }
    ensures { MatchResult result (IsAsked system.now.system group.now.basis f.now) (DegreesMeet (ChangingMeets system.now.system f.now)) }
{
    let ring = change_ring(system);
    let change = change_of(alloc, system, &ring, f)?;
    let basis = kept_basis(alloc, system, group, &ring)?;
    Ok(Asked {
        ring,
        change,
        basis,
    })
}
