//! The answer to the bytes of a system whose laws are tested: a text and how it ends.

ghost use Rattle.std.specs.Prelude.{◌≡◌, ◌<◌, ◌-◌, ◌^◌, length, IfOk, IfErr, OnOk};
ghost use Rattle.rinv_defs.specs.SystemForm.{IsSystem};
ghost use Rattle.rinv_defs.specs.Laws.{AllLawsHold};
ghost use Rattle.rinv_laws.specs.Group.{IsGroupBasis};
ghost use Rattle.rinv_answers.specs.Budgets.{budget_of, IsLimited, IsWithin};
ghost use Rattle.rinv_lines.specs.Stopped.{StopsSo};
ghost use Rattle.rinv_answers.specs.Commands.Laws.{IsLawsAnswer, IsTested, IsUnlawful};

use crate::incomplete::{Cause, Phase, cause_of, incomplete_line};
use crate::law_lines::{fault_line, hold_line, refused_line};
use rinv_buch::Stop;
use rinv_div::Budget;
use rinv_laws::{GroupBasis, LawStop, group_basis, laws_hold, test_laws};
use rinv_lines::{Ending, Stopped};
use rinv_system::{SystemStop, read_system};
use rinv_text::System;
use std::alloc::{AllocError as NoMemory, Global};

/// What is printed for the bytes of a system, and how that ends.
pub fn answer(alloc: Global, bytes: &[u8]) -> Result<(Vec<u8>, Ending), NoMemory>
    requires { length bytes.now < 2 ^ 32 - 1 }
    ensures { IfOk result (λ a. IsLawsAnswer bytes.now a.0.items a.1) }
{
    let system = match read_system(alloc, bytes) {
        Ok(system) => system,
        Err(SystemStop::Refused(refused)) => {
            let text = refused_line(alloc, refused)?;
            return Ok((text, Ending::Refused));
        }
        Err(SystemStop::NoMemory) => return Err(NoMemory),
    };
    let answer = tested(alloc, &system)?;
    Ok(answer)
}

// What the test of the system's laws answers.
fn tested(alloc: Global, system: &System) -> Result<(Vec<u8>, Ending), NoMemory>
    requires system { IsSystem system.now.system }
    requires limits { IsLimited system.now }
    ensures { IfOk result (λ a. IsTested system.now a.0.items a.1) }
{
    match lawful(alloc, system) {
        Ok(_group) => {
            let text = hold_line(alloc)?;
            Ok((text, Ending::Done))
        }
        Err(Stopped::Answer(text, ending)) => Ok((text, ending)),
        Err(Stopped::NoMemory) => Err(NoMemory),
    }
}

/// The basis of the group's ideal, where all laws hold. Where they do not, or where a budget or degrees end the work before that is known,
/// the stop has what is printed.
pub fn lawful(alloc: Global, system: &System) -> Result<GroupBasis, Stopped>
    requires system { IsSystem system.now.system }
    requires limits { IsLimited system.now }
    ensures basis { IfOk result (λ g. IsGroupBasis system.now.system g.basis g.reduced.items) }
    ensures within { IfOk result (λ g. IsWithin system.now g.basis.journal) }
    ensures hold { OnOk result (AllLawsHold system.now.system) }
    ensures stop { IfErr result (StopsSo (IsUnlawful system.now)) }
{
    let group = grouped(alloc, system)?;
    let hold = laws_hold(alloc, system, &group)?;
    if hold {
        return Ok(group);
    }
    match test_laws(alloc, system, &group) {
        Ok(_quotients) => Ok(group),
        Err(LawStop::Fault(fault)) => {
            let text = fault_line(alloc, system, &fault)?;
            Err(Stopped::Answer(text, Ending::Denied))
        }
        Err(LawStop::Degree { left, right }) => {
            let text = incomplete_line(alloc, Phase::Laws, Cause::Degree(left, right))?;
            Err(Stopped::Answer(text, Ending::Incomplete))
        }
        Err(LawStop::NoMemory) => Err(Stopped::NoMemory),
    }
}

// The basis of the group's ideal.
fn grouped(alloc: Global, system: &System) -> Result<GroupBasis, Stopped>
    requires system { IsSystem system.now.system }
    requires limits { IsLimited system.now }
    ensures basis { IfOk result (λ g. IsGroupBasis system.now.system g.basis g.reduced.items) }
    ensures within { IfOk result (λ g. IsWithin system.now g.basis.journal) }
    ensures stop { IfErr result (StopsSo (IsUnlawful system.now)) }
{
    let mut budget = budget_of(system);
    match group_basis(alloc, system, &mut budget) {
        Ok(group) => Ok(group),
        Err(Stop::Incomplete(halt)) => {
            let cause = cause_of(system, &halt.why);
            let text = incomplete_line(alloc, Phase::Group, cause)?;
            Err(Stopped::Answer(text, Ending::Incomplete))
        }
        Err(Stop::NoMemory) => Err(Stopped::NoMemory),
    }
}

// The pairs and steps that the text allows, none of them spent.
fn budget_of(system: &System) -> Budget
    ensures { result ≡ budget_of system.now }
{
    Budget {
        pairs: system.pairs,
        steps: system.steps,
        pairs_spent: 0,
        steps_spent: 0,
        endless: false,
    }
}
