//! The stages on the way to generators up to the basis of the action's ideal: the two runs, with one budget, and the test of the laws
//! between them.

ghost use Rattle.std.specs.Prelude.{◌≡◌, ◌++◌, IfOk, IfErr};
ghost use Rattle.rinv_defs.specs.SystemForm.{IsSystem};
ghost use Rattle.rinv_defs.specs.Laws.{AllLawsHold};
ghost use Rattle.rinv_buch.specs.Kinds.{journal_of};
ghost use Rattle.rinv_laws.specs.Group.{IsGroupBasis};
ghost use Rattle.rinv_gens.specs.Runs.{BothEnd, GroupEnds, budget_of};
ghost use Rattle.rinv_gens.specs.Halts.{GenStopsSo};

use crate::kinds::{GenStop, Phase};
use rinv_buch::kinds::Basis;
use rinv_buch::{Entry, Halt, Stop, Why};
use rinv_div::Budget;
use rinv_elim::action_basis;
use rinv_laws::{GroupBasis, LawStop, group_basis, laws_hold, test_laws};
use rinv_ring::{Gf, NoMemory};
use rinv_text::System;
use std::alloc::Global;

/// The bases of the group's ideal and of the action's.
#[derive(Drop)]
pub(crate) struct Runs {
    pub(crate) group: GroupBasis,
    pub(crate) action: Basis<Gf>,
}

// The pairs and steps that the text allows, none of them spent.
fn budget_of(system: &System) -> Budget
    ensures { result ≡ budget_of system.now }
{
    Budget {
        pairs: system.pairs,
        steps: system.steps,
        pairs_spent: 0,
        steps_spent: 0,
        endless: false,
    }
}

// The group's basis, and what is left of the budget.
fn group_stage(alloc: Global, system: &System) -> Result<(GroupBasis, Budget), GenStop>
    requires { IsSystem system.now.system }
    ensures ends { IfOk result (λ r. GroupEnds system.now r.0.basis r.0.reduced.items r.1) }
    ensures stop { IfErr result (GenStopsSo system.now) }
{
    let mut budget = budget_of(system);
    match group_basis(alloc, system, &mut budget) {
        Ok(group) => Ok((group, budget)),
        Err(Stop::Incomplete(halt)) => {
            let Halt { journal, why, .. } = halt;
            let phase = Phase::Group;
            Err(GenStop::Incomplete {
                phase,
                journal,
                why,
            })
        }
        Err(Stop::NoMemory) => Err(GenStop::NoMemory),
    }
}

// The group's basis and what is left of the budget, where the laws hold.
fn law_stage(alloc: Global, system: &System) -> Result<(GroupBasis, Budget), GenStop>
    requires { IsSystem system.now.system }
    ensures ends { IfOk result (λ r. GroupEnds system.now r.0.basis r.0.reduced.items r.1) }
    ensures hold { IfOk result (λ r. AllLawsHold system.now.system) }
    ensures stop { IfErr result (GenStopsSo system.now) }
{
    let (group, left) = group_stage(alloc, system)?;
    let hold = laws_hold(alloc, system, &group)?;
    if hold {
        return Ok((group, left));
    }
    match test_laws(alloc, system, &group) {
        Ok(_quotients) => Ok((group, left)),
        Err(LawStop::Fault(fault)) => Err(GenStop::Law(fault)),
        Err(LawStop::Degree { left, right }) => {
            let GroupBasis { basis, .. } = group;
            let phase = Phase::Laws;
            let why = Why::Degree { left, right };
            let journal = basis.journal;
            Err(GenStop::Incomplete {
                phase,
                journal,
                why,
            })
        }
        Err(LawStop::NoMemory) => Err(GenStop::NoMemory),
    }
}

/// The entries of the group's basis, and then others.
pub(crate) fn followed(group: GroupBasis, second: Vec<Entry>) -> Result<Vec<Entry>, NoMemory>
    ensures { IfOk result (λ r. journal_of r.items ≡ group.basis.journal ++ journal_of second.items) }
{
    let GroupBasis { basis, .. } = group;
    let mut journal = basis.journal;
    let mut rest = second;
    journal.append(&mut rest)?;
    Ok(journal)
}

/// Both bases, where the laws hold.
pub(crate) fn both_runs(alloc: Global, system: &System) -> Result<Runs, GenStop>
    requires { IsSystem system.now.system }
    ensures group { IfOk result (λ r. IsGroupBasis system.now.system r.group.basis r.group.reduced.items) }
    ensures ends { IfOk result (λ r. BothEnd system.now r.group.basis r.action) }
    ensures hold { IfOk result (λ r. AllLawsHold system.now.system) }
    ensures stop { IfErr result (GenStopsSo system.now) }
{
    let (group, left) = law_stage(alloc, system)?;
    let mut budget = left;
    match action_basis(alloc, system, &mut budget) {
        Ok(action) => Ok(Runs { group, action }),
        Err(Stop::Incomplete(halt)) => {
            let Halt { journal, why, .. } = halt;
            let phase = Phase::Action;
            let journal = followed(group, journal)?;
            Err(GenStop::Incomplete {
                phase,
                journal,
                why,
            })
        }
        Err(Stop::NoMemory) => Err(GenStop::NoMemory),
    }
}
