//! The Gröbner basis of the group's ideal.

ghost use Rattle.std.specs.Prelude.{IfOk, IfErr};
ghost use Rattle.rinv_defs.specs.SystemForm.{IsSystem};
ghost use Rattle.rinv_buch.specs.Causes.{StopsSo};
ghost use Rattle.rinv_buch.specs.Spent.{IsKept, KeepsLimits, SpendsOn};
ghost use Rattle.rinv_laws.specs.Group.{IsGroupBasis, HaltsInGroup};

use rinv_buch::kinds::Basis;
use rinv_buch::{Halt, Stop, Why, basis, interreduce};
use rinv_div::Budget;
use rinv_mono::Grevlex;
use rinv_poly::{KPoly, PolyRing};
use rinv_ring::{Gf, Ring, RingFault};
use rinv_text::System;
use std::alloc::Global;

/// A Gröbner basis of the group's ideal with its journal, and the reduced one, with ascending leading monomials.
#[derive(Drop)]
pub struct GroupBasis {
    pub basis: Basis<Gf>,
    pub reduced: Vec<KPoly>,
}

/// The Gröbner basis of the group's ideal, in grevlex. It halts as `basis` does, or where the making of the reduced basis meets a degree
/// over the limit.
pub fn group_basis(
    alloc: Global,
    system: &System,
    budget: &mut Budget,
) -> Result<GroupBasis, Stop<Gf>>
    requires system { IsSystem system.now.system }
    requires within { IsKept budget.old }
    ensures basis { IfOk result (λ g. IsGroupBasis system.now.system g.basis g.reduced.items) }
    ensures spent { IfOk result (λ g. SpendsOn g.basis.journal 0 budget.old budget.new) }
    ensures stop { IfErr result (StopsSo (HaltsInGroup system.now.system budget.old budget.new)) }
    ensures limits { KeepsLimits budget.old budget.new }
    ensures still_within { IsKept budget.new }
{
    let ring = PolyRing::new(system.field, system.group.len());
    let found = basis(&ring, alloc, &system.ideal, &Grevlex, budget)?;
    match interreduce(&ring, alloc, &found, &Grevlex) {
        Ok(reduced) => Ok(GroupBasis {
            basis: found,
            reduced,
        }),
        Err(RingFault::NoMemory) => Err(Stop::NoMemory),
        Err(RingFault::Degree { left, right }) => {
            let working = ring.zero(alloc)?;
            Err(Stop::Incomplete(Halt {
                polys: found.polys,
                journal: found.journal,
                working,
                origin: None,
                why: Why::Degree { left, right },
            }))
        }
    }
}
